//! Dict displays.

ghost use Rattle.std.specs.Prelude.{◌≡◌, [], OnOk, map, option_map};
ghost use Rattle.std.specs.List.{list_any};
ghost use Rattle.pyc_ast.specs.ExprView.{expr_of, dict_item_of};
ghost use Rattle.pyc_ast.specs.Exprs.{at_of};
ghost use Rattle.pyc_displays.specs.Displays as spec;
ghost use Rattle.pyc_displays.specs.Messages.{required_entry};
ghost use Rattle.pyc_displays.specs.Views.{entry_in, entry_types_in};
ghost use Rattle.pyc_reading.specs.Traces.{Performs, owing};
ghost use Rattle.pyc_type_forms.specs.TypeView.{ty_of};

use crate::built::{dict_of, dict_type};
use crate::expecting::expected_entry;
use crate::items::infer_freely;
use crate::messages::RequiredPart;
use pyc_ast::{DictItem, Expr};
use pyc_obligations::{AskTypes, InferType, require_row};
use pyc_type_forms::{DictTypes, Ty};
use std::alloc::{AllocError, Global};
use std::marker::PhantomData;

/// The types of the keys and the values of entries.
#[derive(Drop)]
pub(crate) struct EntryTypes {
    pub(crate) keys: Vec<Ty>,
    pub(crate) values: Vec<Ty>,
}

/// The type of a dict display. Where a dictionary is expected each key and each value must be of its types, and what is
/// not is reported; else it is a dictionary of the unions of the keys and of the values. The only error is that memory
/// runs out.
pub fn dict_display<N: AskTypes, R: InferType<N>>(
    alloc: Global,
    recorder: &mut N,
    reader: &R,
    items: &[DictItem],
    want: Option<&Ty>,
) -> Result<Ty, AllocError>
    requires { R.ready reader.now }
    ensures { Performs ty_of
        (spec.dict_display (R.reads reader.now) (map dict_item_of items.now)
        (option_map (λ ty. ty_of ty.now) want.entry)) (N.trace recorder.old) result (N.trace recorder.new) }
{
    let entry = expected_entry(alloc, want)?;
    dict_by(alloc, recorder, reader, items, entry)
}

/// A dict display, by what is expected of its entries.
fn dict_by<N: AskTypes, R: InferType<N>>(
    alloc: Global,
    recorder: &mut N,
    reader: &R,
    items: &[DictItem],
    want: Option<DictTypes>,
) -> Result<Ty, AllocError>
    requires { R.ready reader.now }
    ensures { Performs ty_of
        (spec.dict_by (R.reads reader.now) (map dict_item_of items.now) (option_map entry_in want))
        (N.trace recorder.old)
        result (N.trace recorder.new) }
{
    match want {
        Some(entry) => check_dict_display(alloc, recorder, reader, items, entry),
        None => free_dict(alloc, recorder, reader, items),
    }
}

/// A dict display of which nothing is expected.
#[tactic(auto, using(pyc_obligations::proofs::Steps::performing), unfolding(crate::specs::Displays::free_dict))]
fn free_dict<N: AskTypes, R: InferType<N>>(
    alloc: Global,
    recorder: &mut N,
    reader: &R,
    items: &[DictItem],
) -> Result<Ty, AllocError>
    requires { R.ready reader.now }
    ensures { Performs ty_of (spec.free_dict (R.reads reader.now) (map dict_item_of items.now)) (N.trace recorder.old)
        result (N.trace recorder.new) }
{
    let is_open = is_open_dict(items);
    let types = read_entries(alloc, recorder, reader, items)?;
    dict_type(alloc, is_open, &types)
}

/// Whether not all entries are known: there are none, or something stands after `**`.
fn is_open_dict(items: &[DictItem]) -> bool
    ensures { result ≡ spec.is_open_dict (map dict_item_of items.now) }
{
    items.is_empty() || has_unpacking(items)
}

/// Whether something stands after `**`.
fn has_unpacking(items: &[DictItem]) -> bool
    ensures { result ≡ list_any spec.is_unpacking (map dict_item_of items.now) }
{
    for item in items {
        if is_unpacking(item) {
            return true;
        }
    }
    false
}

/// Whether an item stands after `**`.
fn is_unpacking(item: &DictItem) -> bool
    ensures { result ≡ spec.is_unpacking (dict_item_of item.now) }
{
    match item {
        DictItem::Entry { .. } => false,
        DictItem::Unpacking(_) => true,
    }
}

/// The types of entries of which nothing is expected, in turn.
#[tactic(auto, using(pyc_obligations::proofs::Steps::performing), unfolding(crate::specs::Displays::more_entries))]
fn read_entries<N: AskTypes, R: InferType<N>>(
    alloc: Global,
    recorder: &mut N,
    reader: &R,
    items: &[DictItem],
) -> Result<EntryTypes, AllocError>
    requires { R.ready reader.now }
    ensures { Performs entry_types_in
        (spec.more_entries (R.reads reader.now) (record { keys = []; values = [] }) (map dict_item_of items.now))
        (N.trace recorder.old) result (N.trace recorder.new) }
{
    let mut types = EntryTypes {
        keys: Vec::with_capacity(alloc, items.len())?,
        values: Vec::with_capacity(alloc, items.len())?,
    };
    for item in items {
        let found = free_entry(alloc, recorder, reader, item)?;
        push_entry(&mut types, found)?;
    }
    Ok(types)
}

/// Adds the types of an entry, if it has some.
fn push_entry(types: &mut EntryTypes, found: Option<DictTypes>) -> Result<(), AllocError>
    ensures { OnOk result (entry_types_in types.new
        ≡ spec.with_entry (entry_types_in types.old) (option_map entry_in found)) }
{
    if let Some(found) = found {
        types.keys.push(found.key)?;
        types.values.push(found.value)?;
    }
    Ok(())
}

/// The types of an entry of which nothing is expected.
fn free_entry<N: AskTypes, R: InferType<N>>(
    alloc: Global,
    recorder: &mut N,
    reader: &R,
    item: &DictItem,
) -> Result<Option<DictTypes>, AllocError>
    requires { R.ready reader.now }
    ensures { Performs (option_map entry_in) (spec.free_entry (R.reads reader.now) (dict_item_of item.now))
        (N.trace recorder.old) result (N.trace recorder.new) }
{
    match item {
        DictItem::Entry { key, value } => {
            let entry = KeyAndValue {
                alloc,
                reader,
                key,
                value,
                of: PhantomData,
            };
            entry.free_pair(recorder)
        }
        DictItem::Unpacking(part) => free_unpacking(alloc, recorder, reader, part),
    }
}

/// A key and its value, and what reads them.
#[derive(Clone, Copy)]
struct KeyAndValue<'a, N, R> {
    alloc: Global,
    reader: &'a R,
    key: &'a Expr,
    value: &'a Expr,
    of: PhantomData<N>,
}

impl<N: AskTypes, R: InferType<N>> KeyAndValue<'_, N, R> {
    /// The types of the key and the value, of which nothing is expected.
    #[tactic(auto, using(pyc_obligations::proofs::Steps::performing), unfolding(crate::specs::Displays::free_pair))]
    fn free_pair(&self, recorder: &mut N) -> Result<Option<DictTypes>, AllocError>
        requires { R.ready self.now.reader.now }
        ensures { Performs (option_map entry_in)
            (spec.free_pair (R.reads self.now.reader.now) (expr_of self.now.key.now) (expr_of self.now.value.now))
            (N.trace recorder.old) result (N.trace recorder.new) }
    {
        let found = self.entry_types(recorder, None, None)?;
        Ok(Some(found))
    }

    /// The types of the key and the value, with what is expected of each.
    #[tactic(auto, using(pyc_obligations::proofs::Steps::performing), unfolding(crate::specs::Displays::entry_types))]
    fn entry_types(
        &self,
        recorder: &mut N,
        want_key: Option<&Ty>,
        want_value: Option<&Ty>,
    ) -> Result<DictTypes, AllocError>
        requires { R.ready self.now.reader.now }
        ensures { Performs entry_in
            (spec.entry_types (R.reads self.now.reader.now) (expr_of self.now.key.now) (expr_of self.now.value.now)
            (option_map (λ ty. ty_of ty.now) want_key.entry) (option_map (λ ty. ty_of ty.now) want_value.entry))
            (N.trace recorder.old) result (N.trace recorder.new) }
    {
        let key = self.reader.read(self.alloc, recorder, self.key, want_key)?;
        let value = self
            .reader
            .read(self.alloc, recorder, self.value, want_value)?;
        Ok(DictTypes { key, value })
    }

    /// The key and the value must be of these types.
    #[tactic(auto, using(pyc_obligations::proofs::Steps::performing), unfolding(crate::specs::Displays::check_pair_types))]
    fn check_pair_types(
        &self,
        recorder: &mut N,
        want: &DictTypes,
        index: usize,
    ) -> Result<(), AllocError>
        requires { R.ready self.now.reader.now }
        ensures { Performs (λ u. u)
            (spec.check_pair_types (R.reads self.now.reader.now) (entry_in want.now) index (expr_of self.now.key.now)
            (expr_of self.now.value.now)) (N.trace recorder.old) result (N.trace recorder.new) }
    {
        let got = self.entry_types(recorder, Some(&want.key), Some(&want.value))?;
        require_entry(self.alloc, recorder, self.key, index, &got, want)
    }
}

/// What stands after `**` is read alone.
#[tactic(auto, using(pyc_obligations::proofs::Steps::performing), unfolding(crate::specs::Displays::free_unpacking))]
fn free_unpacking<N: AskTypes, R: InferType<N>>(
    alloc: Global,
    recorder: &mut N,
    reader: &R,
    part: &Expr,
) -> Result<Option<DictTypes>, AllocError>
    requires { R.ready reader.now }
    ensures { Performs (option_map entry_in) (spec.free_unpacking (R.reads reader.now) (expr_of part.now))
        (N.trace recorder.old) result (N.trace recorder.new) }
{
    infer_freely(alloc, recorder, reader, part)?;
    Ok(None)
}

/// A dict display whose entries must be of these types.
#[tactic(auto, using(pyc_obligations::proofs::Steps::performing), unfolding(crate::specs::Displays::check_dict_display))]
fn check_dict_display<N: AskTypes, R: InferType<N>>(
    alloc: Global,
    recorder: &mut N,
    reader: &R,
    items: &[DictItem],
    want: DictTypes,
) -> Result<Ty, AllocError>
    requires { R.ready reader.now }
    ensures { Performs ty_of (spec.check_dict_display (R.reads reader.now) (map dict_item_of items.now) (entry_in want))
        (N.trace recorder.old) result (N.trace recorder.new) }
{
    entries_to(alloc, recorder, reader, &want, items)?;
    dict_of(alloc, want)
}

/// Entries that must be of these types, in turn.
#[tactic(auto, using(pyc_obligations::proofs::Steps::performing), unfolding(crate::specs::Displays::entries_to))]
fn entries_to<N: AskTypes, R: InferType<N>>(
    alloc: Global,
    recorder: &mut N,
    reader: &R,
    want: &DictTypes,
    items: &[DictItem],
) -> Result<(), AllocError>
    requires { R.ready reader.now }
    ensures { Performs (λ u. u)
        (spec.entries_to (R.reads reader.now) (entry_in want.now) 0 (map dict_item_of items.now)) (N.trace recorder.old)
        result (N.trace recorder.new) }
{
    for index in 0..items.len() {
        check_entry_types(alloc, recorder, reader, want, index, &items[index])?;
    }
    Ok(())
}

/// An entry that must be of these types: what stands after `**` is read alone.
fn check_entry_types<N: AskTypes, R: InferType<N>>(
    alloc: Global,
    recorder: &mut N,
    reader: &R,
    want: &DictTypes,
    index: usize,
    item: &DictItem,
) -> Result<(), AllocError>
    requires { R.ready reader.now }
    ensures { Performs (λ u. u)
        (spec.check_entry_types (R.reads reader.now) (entry_in want.now) index (dict_item_of item.now))
        (N.trace recorder.old)
        result (N.trace recorder.new) }
{
    match item {
        DictItem::Entry { key, value } => {
            let entry = KeyAndValue {
                alloc,
                reader,
                key,
                value,
                of: PhantomData,
            };
            entry.check_pair_types(recorder, want, index)
        }
        DictItem::Unpacking(part) => infer_freely(alloc, recorder, reader, part),
    }
}

/// Requires that the key and the value of an entry are of the types that are expected.
fn require_entry<N: AskTypes>(
    alloc: Global,
    recorder: &mut N,
    key: &Expr,
    index: usize,
    got: &DictTypes,
    want: &DictTypes,
) -> Result<(), AllocError>
    ensures { Performs (λ u. u)
        (owing (required_entry (at_of (expr_of key.now)) index (entry_in got.now) (entry_in want.now)))
        (N.trace recorder.old)
        result (N.trace recorder.new) }
{
    let required_key = RequiredPart {
        at: key.at,
        index,
        got_entry: got,
        want_entry: want,
        got: &got.key,
        want: &want.key,
    };
    let required_value = RequiredPart {
        at: key.at,
        index,
        got_entry: got,
        want_entry: want,
        got: &got.value,
        want: &want.value,
    };
    require_row(alloc, recorder, &[required_key, required_value])
}
