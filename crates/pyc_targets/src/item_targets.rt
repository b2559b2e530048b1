//! What items of subscripts take.

ghost use Rattle.std.specs.Prelude.{◌≡◌, IfOk, OnOk, codes, map, option_map};
ghost use Rattle.pyc_ast.specs.ExprView.{index_of};
ghost use Rattle.pyc_obligations.specs.Asking as asking;
ghost use Rattle.pyc_reading.specs.AnswerView.{member_answer_of};
ghost use Rattle.pyc_reading.specs.Traces.{Performs};
ghost use Rattle.pyc_targets.specs.ItemTargets as spec;
ghost use Rattle.pyc_targets.specs.Views.{item_target_of, item_targets_in, target_type_of};
ghost use Rattle.pyc_type_forms.specs.TypeView.{ty_of};

use crate::messages::report_unsupported;
use crate::target_type::TargetType;
use pyc_ast::{Index, Position};
use pyc_class_ids::ClassId;
use pyc_obligations::{AskTypes, ask_member, is_unknown_class};
use pyc_reading::MemberAnswer;
use pyc_subscripts::item_of;
use pyc_type_forms::{Ty, items_of, union_of};
use std::alloc::{AllocError, Global};

/// What an item of a value is as a target.
#[derive(Debug, Drop)]
pub(crate) enum ItemTarget {
    /// It cannot be assigned to.
    Unsupported,
    /// It takes anything.
    Free,
    /// It takes a value of this type.
    Takes(Ty),
}

/// The types that items take, whether one takes anything, and whether one cannot be assigned to.
#[derive(Debug, Drop)]
pub(crate) struct ItemTargets {
    pub(crate) types: Vec<Ty>,
    pub(crate) is_free: bool,
    pub(crate) is_unsupported: bool,
}

/// An item of a subscript as a target, by an index of the type `got`: the target begins at `at`, and at `inside` within
/// its parentheses.
#[derive(Clone, Copy)]
pub struct IndexedTarget<'a> {
    pub alloc: Global,
    pub at: Position,
    pub inside: Position,
    pub index: &'a Index,
    pub got: &'a Ty,
}

impl IndexedTarget<'_> {
    /// What an item of a value of a type takes. An index of another type than is wanted, and a value whose items cannot
    /// be assigned to, is reported. The only error is that memory runs out.
    #[tactic(auto, using(pyc_obligations::proofs::Steps::performing), unfolding(crate::specs::ItemTargets::item_target))]
    pub fn item_target<N: AskTypes>(
        &self,
        recorder: &mut N,
        ty: &Ty,
    ) -> Result<TargetType, AllocError>
        ensures { Performs target_type_of
            (spec.item_target self.now.at self.now.inside (index_of self.now.index.now) (ty_of self.now.got.now)
            (ty_of ty.now)) (N.trace recorder.old) result (N.trace recorder.new) }
    {
        let types = items_of(self.alloc, ty)?;
        let found = all_targets(
            self.alloc,
            recorder,
            self.inside,
            self.index,
            self.got,
            &types,
        )?;
        conclude(self.alloc, recorder, self.at, ty, &found)
    }
}

/// What the items of types take, in turn.
#[tactic(auto, using(pyc_obligations::proofs::Steps::performing), unfolding(crate::specs::ItemTargets::more_targets))]
fn all_targets<N: AskTypes>(
    alloc: Global,
    recorder: &mut N,
    at: Position,
    index: &Index,
    got: &Ty,
    types: &[Ty],
) -> Result<ItemTargets, AllocError>
    ensures { Performs item_targets_in
        (spec.more_targets at (index_of index.now) (ty_of got.now) spec.no_targets (map ty_of types.now))
        (N.trace recorder.old) result (N.trace recorder.new) }
{
    let mut found = ItemTargets {
        types: Vec::with_capacity(alloc, types.len())?,
        is_free: false,
        is_unsupported: false,
    };
    for ty in types {
        let item = target_of_type(alloc, recorder, at, index, got, ty)?;
        push_target(&mut found, item)?;
    }
    Ok(found)
}

/// Adds what an item takes.
fn push_target(found: &mut ItemTargets, item: ItemTarget) -> Result<(), AllocError>
    ensures { OnOk result (item_targets_in found.new
        ≡ spec.with_target (item_targets_in found.old) (item_target_of item)) }
{
    match item {
        ItemTarget::Unsupported => found.is_unsupported = true,
        ItemTarget::Free => found.is_free = true,
        ItemTarget::Takes(ty) => found.types.push(ty)?,
    }
    Ok(())
}

/// What items take together.
fn conclude<N: AskTypes>(
    alloc: Global,
    recorder: &mut N,
    at: Position,
    ty: &Ty,
    found: &ItemTargets,
) -> Result<TargetType, AllocError>
    ensures { Performs target_type_of (spec.conclude at (ty_of ty.now) (item_targets_in found.now))
        (N.trace recorder.old) result
        (N.trace recorder.new) }
{
    if found.is_unsupported {
        report_unsupported(alloc, recorder, at, ty)
    } else {
        supported_target_type(alloc, found)
    }
}

/// What items take together that can be assigned to.
fn supported_target_type(alloc: Global, found: &ItemTargets) -> Result<TargetType, AllocError>
    ensures { IfOk result (λ target_type. target_type_of target_type ≡ spec.supported_target_type
        (item_targets_in found.now)) }
{
    if found.is_free {
        Ok(TargetType::plain(None))
    } else {
        Ok(TargetType::item(union_of(alloc, &found.types)?))
    }
}

/// What an item of a value of a type that is no union takes.
fn target_of_type<N: AskTypes>(
    alloc: Global,
    recorder: &mut N,
    at: Position,
    index: &Index,
    got: &Ty,
    ty: &Ty,
) -> Result<ItemTarget, AllocError>
    ensures { Performs item_target_of
        (spec.target_of_type at (index_of index.now) (ty_of got.now) (ty_of ty.now)) (N.trace recorder.old) result
        (N.trace recorder.new) }
{
    match ty {
        Ty::Any => Ok(ItemTarget::Takes(Ty::Any)),
        Ty::Class(_) => Ok(ItemTarget::Takes(Ty::Any)),
        Ty::Instance(class) => instance_target(alloc, recorder, class),
        Ty::List(_) => indexed_target(alloc, recorder, at, index, got, ty),
        Ty::Dict(_) => indexed_target(alloc, recorder, at, index, got, ty),
        _ => Ok(ItemTarget::Unsupported),
    }
}

/// What an item of a list or a dictionary takes.
#[tactic(auto, using(pyc_obligations::proofs::Steps::performing), unfolding(crate::specs::ItemTargets::indexed_target))]
fn indexed_target<N: AskTypes>(
    alloc: Global,
    recorder: &mut N,
    at: Position,
    index: &Index,
    got: &Ty,
    ty: &Ty,
) -> Result<ItemTarget, AllocError>
    ensures { Performs item_target_of
        (spec.indexed_target at (index_of index.now) (ty_of got.now) (ty_of ty.now)) (N.trace recorder.old) result
        (N.trace recorder.new) }
{
    let found = item_of(alloc, recorder, at, index, got, ty)?;
    Ok(target_of_item(found))
}

/// What an item takes that a subscript gives.
fn target_of_item(found: Option<Ty>) -> ItemTarget
    ensures { item_target_of result ≡ spec.target_of_item (option_map ty_of found) }
{
    match found {
        Some(ty) => ItemTarget::Takes(ty),
        None => ItemTarget::Unsupported,
    }
}

/// What an item of an instance of a class takes.
fn instance_target<N: AskTypes>(
    alloc: Global,
    recorder: &mut N,
    class: &ClassId,
) -> Result<ItemTarget, AllocError>
    ensures { Performs item_target_of (spec.instance_target class.now) (N.trace recorder.old) result
        (N.trace recorder.new) }
{
    match class.as_builtin() {
        Some(_) => Ok(ItemTarget::Unsupported),
        None => source_target(alloc, recorder, class),
    }
}

/// What an item of an instance of a class of a source takes.
#[tactic(auto, using(pyc_obligations::proofs::Steps::performing), unfolding(crate::specs::ItemTargets::source_target))]
fn source_target<N: AskTypes>(
    alloc: Global,
    recorder: &mut N,
    class: &ClassId,
) -> Result<ItemTarget, AllocError>
    ensures { Performs item_target_of (spec.source_target class.now) (N.trace recorder.old) result
        (N.trace recorder.new) }
{
    let is_unknown = is_unknown_class(alloc, recorder, class)?;
    user_target(alloc, recorder, class, is_unknown)
}

/// What an item of an instance of `class` takes; `is_unknown` says whether the order of the class is unknown.
fn user_target<N: AskTypes>(
    alloc: Global,
    recorder: &mut N,
    class: &ClassId,
    is_unknown: bool,
) -> Result<ItemTarget, AllocError>
    ensures { Performs item_target_of (spec.user_target class.now is_unknown) (N.trace recorder.old) result
        (N.trace recorder.new) }
{
    if is_unknown {
        Ok(ItemTarget::Takes(Ty::Any))
    } else {
        ask_target(alloc, recorder, class)
    }
}

/// What an item of an instance of `class` takes, once the class is asked for its `__setitem__`.
#[tactic(auto, using(pyc_obligations::proofs::Steps::performing), unfolding(crate::specs::ItemTargets::ask_target))]
fn ask_target<N: AskTypes>(
    alloc: Global,
    recorder: &mut N,
    class: &ClassId,
) -> Result<ItemTarget, AllocError>
    ensures { Performs item_target_of (spec.ask_target class.now) (N.trace recorder.old) result (N.trace recorder.new) }
{
    let found = setitem_member(alloc, recorder, class)?;
    Ok(by_setitem(found))
}

/// The `__setitem__` of a class.
fn setitem_member<N: AskTypes>(
    alloc: Global,
    recorder: &mut N,
    class: &ClassId,
) -> Result<Option<MemberAnswer>, AllocError>
    ensures { Performs (option_map member_answer_of) (asking.ask_member class.now (codes "__setitem__"))
        (N.trace recorder.old) result (N.trace recorder.new) }
{
    ask_member(alloc, recorder, class, "__setitem__")
}

/// What an item takes, where this is the `__setitem__`.
fn by_setitem(found: Option<MemberAnswer>) -> ItemTarget
    ensures { item_target_of result ≡ spec.by_setitem (option_map member_answer_of found) }
{
    match found {
        Some(_) => ItemTarget::Free,
        None => ItemTarget::Unsupported,
    }
}
