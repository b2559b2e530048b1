//! List displays.

ghost use Rattle.std.specs.Prelude.{◌≡◌, map, option_map};
ghost use Rattle.pyc_ast.specs.ExprView.{expr_of, element_of};
ghost use Rattle.pyc_displays.specs.Displays as spec;
ghost use Rattle.pyc_reading.specs.Traces.{Performs};
ghost use Rattle.pyc_type_forms.specs.TypeView.{ty_of};

use crate::built::{list_of, list_type};
use crate::expecting::expected_item;
use crate::items::{has_starred, infer_freely, read_types};
use crate::messages::RequiredItem;
use pyc_ast::{Element, Expr};
use pyc_obligations::{AskTypes, InferType, require};
use pyc_type_forms::Ty;
use std::alloc::{AllocError, Global};

/// The type of a list display. Where a list is expected each item must be of the type of its items, and what is not is
/// reported; else it is a list of the union of the items. The only error is that memory runs out.
pub fn list_display<N: AskTypes, R: InferType<N>>(
    alloc: Global,
    recorder: &mut N,
    reader: &R,
    items: &[Element],
    want: Option<&Ty>,
) -> Result<Ty, AllocError>
    requires { R.ready reader.now }
    ensures { Performs ty_of
        (spec.list_display (R.reads reader.now) (map element_of items.now)
        (option_map (λ ty. ty_of ty.now) want.entry)) (N.trace recorder.old) result (N.trace recorder.new) }
{
    let item = expected_item(alloc, want)?;
    list_by(alloc, recorder, reader, items, item)
}

/// A list display, by what is expected of its items.
fn list_by<N: AskTypes, R: InferType<N>>(
    alloc: Global,
    recorder: &mut N,
    reader: &R,
    items: &[Element],
    want: Option<Ty>,
) -> Result<Ty, AllocError>
    requires { R.ready reader.now }
    ensures { Performs ty_of
        (spec.list_by (R.reads reader.now) (map element_of items.now) (option_map ty_of want)) (N.trace recorder.old)
        result (N.trace recorder.new) }
{
    match want {
        Some(item) => check_list_display(alloc, recorder, reader, items, item),
        None => free_list(alloc, recorder, reader, items),
    }
}

/// A list display of which nothing is expected.
#[tactic(auto, using(pyc_obligations::proofs::Steps::performing), unfolding(crate::specs::Displays::free_list))]
fn free_list<N: AskTypes, R: InferType<N>>(
    alloc: Global,
    recorder: &mut N,
    reader: &R,
    items: &[Element],
) -> Result<Ty, AllocError>
    requires { R.ready reader.now }
    ensures { Performs ty_of (spec.free_list (R.reads reader.now) (map element_of items.now)) (N.trace recorder.old)
        result (N.trace recorder.new) }
{
    let is_open = is_open_list(items);
    let types = read_types(alloc, recorder, reader, &[], items)?;
    list_type(alloc, is_open, &types)
}

/// Whether not all items are known: there are none, or some stand after `*`.
fn is_open_list(items: &[Element]) -> bool
    ensures { result ≡ spec.is_open_list (map element_of items.now) }
{
    items.is_empty() || has_starred(items)
}

/// A list display whose items must be of a type.
#[tactic(auto, using(pyc_obligations::proofs::Steps::performing), unfolding(crate::specs::Displays::check_list_display))]
fn check_list_display<N: AskTypes, R: InferType<N>>(
    alloc: Global,
    recorder: &mut N,
    reader: &R,
    items: &[Element],
    want: Ty,
) -> Result<Ty, AllocError>
    requires { R.ready reader.now }
    ensures { Performs ty_of (spec.check_list_display (R.reads reader.now) (map element_of items.now) (ty_of want))
        (N.trace recorder.old) result (N.trace recorder.new) }
{
    check_item_types(alloc, recorder, reader, &want, items)?;
    list_of(alloc, want)
}

/// Items that must be of a type, in turn.
#[tactic(auto, using(pyc_obligations::proofs::Steps::performing), unfolding(crate::specs::Displays::check_item_types))]
fn check_item_types<N: AskTypes, R: InferType<N>>(
    alloc: Global,
    recorder: &mut N,
    reader: &R,
    want: &Ty,
    items: &[Element],
) -> Result<(), AllocError>
    requires { R.ready reader.now }
    ensures { Performs (λ u. u)
        (spec.check_item_types (R.reads reader.now) (ty_of want.now) 0 (map element_of items.now))
        (N.trace recorder.old) result
        (N.trace recorder.new) }
{
    for index in 0..items.len() {
        check_item_type(alloc, recorder, reader, want, index, &items[index])?;
    }
    Ok(())
}

/// An item that must be of a type: one after `*` is read alone.
fn check_item_type<N: AskTypes, R: InferType<N>>(
    alloc: Global,
    recorder: &mut N,
    reader: &R,
    want: &Ty,
    index: usize,
    item: &Element,
) -> Result<(), AllocError>
    requires { R.ready reader.now }
    ensures { Performs (λ u. u)
        (spec.check_item_type (R.reads reader.now) (ty_of want.now) index (element_of item.now))
        (N.trace recorder.old) result
        (N.trace recorder.new) }
{
    if item.is_starred {
        infer_freely(alloc, recorder, reader, &item.value)
    } else {
        check_value_type(alloc, recorder, reader, want, index, &item.value)
    }
}

/// A value that must be of a type.
#[tactic(auto, using(pyc_obligations::proofs::Steps::performing), unfolding(crate::specs::Displays::check_value_type))]
fn check_value_type<N: AskTypes, R: InferType<N>>(
    alloc: Global,
    recorder: &mut N,
    reader: &R,
    want: &Ty,
    index: usize,
    part: &Expr,
) -> Result<(), AllocError>
    requires { R.ready reader.now }
    ensures { Performs (λ u. u)
        (spec.check_value_type (R.reads reader.now) (ty_of want.now) index (expr_of part.now)) (N.trace recorder.old)
        result
        (N.trace recorder.new) }
{
    let got = reader.read(alloc, recorder, part, Some(want))?;
    let required = RequiredItem {
        at: part.at,
        index,
        got: &got,
        want,
    };
    require(alloc, recorder, &required)?;
    Ok(())
}
