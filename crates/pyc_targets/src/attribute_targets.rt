//! What attributes take.

ghost use Rattle.std.specs.Prelude.{◌≡◌, IfOk, OnOk, map, option_map};
ghost use Rattle.pyc_attributes.specs.FoundView.{found_in};
ghost use Rattle.pyc_obligations.specs.ValueView.{value_of};
ghost use Rattle.pyc_reading.specs.AnswerView.{kind_of};
ghost use Rattle.pyc_reading.specs.Traces.{Performs};
ghost use Rattle.pyc_targets.specs.AttributeTargets as spec;
ghost use Rattle.pyc_targets.specs.Views.{wants_in};
ghost use Rattle.pyc_type_forms.specs.TypeView.{ty_of};

use crate::members::{MemberTarget, is_builtin_method};
use pyc_ast::{Position, Text};
use pyc_attributes::{FoundAttribute, item_attribute, no_attribute, no_item_attribute};
use pyc_obligations::{AskTypes, Value};
use pyc_reading::{NameAnswer, NameKind};
use pyc_type_forms::{Ty, items_of, union_of};
use std::alloc::{AllocError, Global};

/// The types that items take, and whether one takes anything.
#[derive(Debug, Drop)]
pub(crate) struct Wants {
    pub(crate) types: Vec<Ty>,
    pub(crate) is_free: bool,
}

/// The type that an attribute of a value takes, None where it takes anything. The target begins at `at`, and at
/// `inside` within its parentheses. An attribute that is not there, and a property that cannot be set, is reported. The
/// only error is that memory runs out.
pub fn attribute_want<N: AskTypes>(
    alloc: Global,
    recorder: &mut N,
    at: Position,
    inside: Position,
    owner: &Value,
    name: &Text,
) -> Result<Option<Ty>, AllocError>
    ensures { Performs (option_map ty_of) (spec.attribute_want at inside (value_of owner.now) name.now)
        (N.trace recorder.old) result (N.trace recorder.new) }
{
    type_want(alloc, recorder, at, inside, &owner.ty, name.as_str())
}

/// What an attribute of a value of a type takes.
#[tactic(auto, using(pyc_obligations::proofs::Steps::performing), unfolding(crate::specs::AttributeTargets::type_want))]
fn type_want<N: AskTypes>(
    alloc: Global,
    recorder: &mut N,
    at: Position,
    inside: Position,
    ty: &Ty,
    name: &str,
) -> Result<Option<Ty>, AllocError>
    ensures { Performs (option_map ty_of) (spec.type_want at inside (ty_of ty.now) name.now) (N.trace recorder.old)
        result
        (N.trace recorder.new) }
{
    let items = items_of(alloc, ty)?;
    let target = AttributeTarget {
        alloc,
        at,
        inside,
        whole: ty,
        name,
    };
    let found = target.all_wants(recorder, &items)?;
    want_of(alloc, &found)
}

/// An attribute as a target: the target begins at `at`, and at `inside` within its parentheses.
#[derive(Clone, Copy)]
struct AttributeTarget<'a> {
    alloc: Global,
    at: Position,
    inside: Position,
    /// The type of what stands before the name.
    whole: &'a Ty,
    name: &'a str,
}

impl AttributeTarget<'_> {
    /// What the attribute of items takes, in turn.
    #[tactic(auto, using(pyc_obligations::proofs::Steps::performing), unfolding(crate::specs::AttributeTargets::more_wants))]
    fn all_wants<N: AskTypes>(&self, recorder: &mut N, items: &[Ty]) -> Result<Wants, AllocError>
        ensures { Performs wants_in
            (spec.more_wants self.now.at self.now.inside (ty_of self.now.whole.now) self.now.name.now spec.no_wants
            (map ty_of items.now)) (N.trace recorder.old) result (N.trace recorder.new) }
    {
        let mut found = Wants {
            types: Vec::with_capacity(self.alloc, items.len())?,
            is_free: false,
        };
        for item in items {
            let want = self.item_want(recorder, item)?;
            push_want(&mut found, want)?;
        }
        Ok(found)
    }

    /// What the attribute of an item takes.
    #[tactic(auto, using(pyc_obligations::proofs::Steps::performing), unfolding(crate::specs::AttributeTargets::item_want))]
    fn item_want<N: AskTypes>(&self, recorder: &mut N, item: &Ty) -> Result<Option<Ty>, AllocError>
        ensures { Performs (option_map ty_of)
            (spec.item_want self.now.at self.now.inside (ty_of self.now.whole.now) self.now.name.now (ty_of item.now))
            (N.trace recorder.old) result (N.trace recorder.new) }
    {
        let found = item_attribute(self.alloc, recorder, item, self.name)?;
        self.found_want(recorder, item, found)
    }

    /// What was found under the name of an item takes.
    fn found_want<N: AskTypes>(
        &self,
        recorder: &mut N,
        item: &Ty,
        found: FoundAttribute,
    ) -> Result<Option<Ty>, AllocError>
        ensures { Performs (option_map ty_of)
            (spec.found_want self.now.at self.now.inside (ty_of self.now.whole.now) (ty_of item.now) self.now.name.now
            (found_in found)) (N.trace recorder.old) result (N.trace recorder.new) }
    {
        match found {
            FoundAttribute::Absent => self.absent_want(recorder, item),
            FoundAttribute::Known(ty) => Ok(known_want(is_builtin_method(item, self.name), ty)),
            FoundAttribute::Member(class, kind, ty) => {
                let member = MemberTarget {
                    alloc: self.alloc,
                    at: self.at,
                    owner: item,
                    name: self.name,
                    class: &class,
                };
                member.member_want(recorder, kind, ty)
            }
            FoundAttribute::Name(found) => Ok(name_want(found)),
        }
    }

    /// What the attribute takes where it is not there.
    #[tactic(auto, using(pyc_obligations::proofs::Steps::performing), unfolding(crate::specs::AttributeTargets::absent_want))]
    fn absent_want<N: AskTypes>(
        &self,
        recorder: &mut N,
        item: &Ty,
    ) -> Result<Option<Ty>, AllocError>
        ensures { Performs (option_map ty_of)
            (spec.absent_want self.now.inside (ty_of self.now.whole.now) (ty_of item.now) self.now.name.now)
            (N.trace recorder.old) result (N.trace recorder.new) }
    {
        let ty = self.absent(recorder, item)?;
        Ok(Some(ty))
    }

    /// Reports that the attribute is not there, of an item where the whole is a union.
    fn absent<N: AskTypes>(&self, recorder: &mut N, item: &Ty) -> Result<Ty, AllocError>
        ensures { Performs ty_of
            (spec.absent_reported self.now.inside (ty_of self.now.whole.now) (ty_of item.now) self.now.name.now)
            (N.trace recorder.old) result (N.trace recorder.new) }
    {
        match self.whole {
            Ty::Union(_) => no_item_attribute(
                self.alloc,
                recorder,
                self.inside,
                self.whole,
                item,
                self.name,
            ),
            _ => no_attribute(self.alloc, recorder, self.inside, self.whole, self.name),
        }
    }
}

/// Adds what an item takes.
fn push_want(found: &mut Wants, want: Option<Ty>) -> Result<(), AllocError>
    ensures { OnOk result (wants_in found.new ≡ spec.with_want (wants_in found.old) (option_map ty_of want)) }
{
    match want {
        Some(ty) => found.types.push(ty)?,
        None => found.is_free = true,
    }
    Ok(())
}

/// The union of the types that items take, where none takes anything.
fn want_of(alloc: Global, found: &Wants) -> Result<Option<Ty>, AllocError>
    ensures { IfOk result (λ want. option_map ty_of want ≡ spec.want_of (wants_in found.now)) }
{
    if found.is_free {
        Ok(None)
    } else {
        Ok(Some(union_of(alloc, &found.types)?))
    }
}

/// What was found without its class takes.
fn known_want(is_method: bool, ty: Ty) -> Option<Ty>
    ensures { option_map ty_of result ≡ spec.known_want is_method (ty_of ty) }
{
    if is_method { None } else { Some(ty) }
}

/// What a name of a module takes.
fn name_want(found: NameAnswer) -> Option<Ty>
    ensures { option_map ty_of result ≡ spec.name_want (kind_of found.kind) (ty_of found.ty) }
{
    match &found.kind {
        NameKind::Function => None,
        NameKind::Class => None,
        NameKind::Module(_) => None,
        _ => Some(found.ty),
    }
}
