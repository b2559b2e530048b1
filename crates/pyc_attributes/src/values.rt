//! The attribute of a value.

ghost use Rattle.std.specs.Prelude.{[], map};
ghost use Rattle.std.specs.declared.vec.Vec.{Vec};
ghost use Rattle.pyc_attributes.specs.AttributeValues as spec;
ghost use Rattle.pyc_attributes.specs.FoundView.{found_in};
ghost use Rattle.pyc_obligations.specs.ValueView.{value_of};
ghost use Rattle.pyc_reading.specs.Traces.{Performs};
ghost use Rattle.pyc_type_forms.specs.TypeView.{ty_of};
ghost use Rattle.pyc_type_forms.specs.Unions as unions;

use crate::found::{FoundAttribute, item_attribute};
use crate::messages::{no_attribute, no_item_attribute};
use pyc_ast::{Position, Text};
use pyc_obligations::{AskTypes, Value};
use pyc_scopes::answered_value;
use pyc_type_forms::{Ty, items_of, union_of};
use std::alloc::{AllocError, Global};

/// The attribute of a value, in an expression that begins at a position: where it is not there that is reported, and it
/// is Any. The only error is that memory runs out.
pub fn attribute<N: AskTypes>(
    alloc: Global,
    recorder: &mut N,
    at: Position,
    value: &Value,
    name: &Text,
) -> Result<Value, AllocError>
    ensures { Performs value_of (spec.attribute at (value_of value.now) name.now) (N.trace recorder.old) result
        (N.trace recorder.new) }
{
    type_attribute(alloc, recorder, at, &value.ty, name.as_str())
}

/// The attribute of a value of a type.
fn type_attribute<N: AskTypes>(
    alloc: Global,
    recorder: &mut N,
    at: Position,
    ty: &Ty,
    name: &str,
) -> Result<Value, AllocError>
    ensures { Performs value_of (spec.type_attribute at (ty_of ty.now) name.now) (N.trace recorder.old) result
        (N.trace recorder.new) }
{
    match ty {
        Ty::Union(_) => union_attribute(alloc, recorder, at, ty, name),
        _ => single_attribute(alloc, recorder, at, ty, name),
    }
}

/// The attribute of a value of a type that is no union.
#[tactic(auto, using(crate::proofs::Steps::performing), unfolding(crate::specs::AttributeValues::single_attribute))]
fn single_attribute<N: AskTypes>(
    alloc: Global,
    recorder: &mut N,
    at: Position,
    ty: &Ty,
    name: &str,
) -> Result<Value, AllocError>
    ensures { Performs value_of (spec.single_attribute at (ty_of ty.now) name.now) (N.trace recorder.old) result
        (N.trace recorder.new) }
{
    let found = item_attribute(alloc, recorder, ty, name)?;
    found_value(alloc, recorder, at, ty, name, found)
}

/// What was found.
fn found_value<N: AskTypes>(
    alloc: Global,
    recorder: &mut N,
    at: Position,
    ty: &Ty,
    name: &str,
    found: FoundAttribute,
) -> Result<Value, AllocError>
    ensures { Performs value_of (spec.found_value at (ty_of ty.now) name.now (found_in found)) (N.trace recorder.old)
        result
        (N.trace recorder.new) }
{
    match found {
        FoundAttribute::Absent => absent_value(alloc, recorder, at, ty, name),
        FoundAttribute::Known(found) => Ok(Value::plain(found)),
        FoundAttribute::Member(_, _, found) => Ok(Value::plain(found)),
        FoundAttribute::Name(found) => Ok(answered_value(found)),
    }
}

/// What is not there.
#[tactic(auto, using(crate::proofs::Steps::performing), unfolding(crate::specs::AttributeValues::absent_value))]
fn absent_value<N: AskTypes>(
    alloc: Global,
    recorder: &mut N,
    at: Position,
    ty: &Ty,
    name: &str,
) -> Result<Value, AllocError>
    ensures { Performs value_of (spec.absent_value at (ty_of ty.now) name.now) (N.trace recorder.old) result
        (N.trace recorder.new) }
{
    let found = no_attribute(alloc, recorder, at, ty, name)?;
    Ok(Value::plain(found))
}

/// The attribute of the items of a union.
#[tactic(auto, using(crate::proofs::Steps::performing), unfolding(crate::specs::AttributeValues::union_attribute))]
fn union_attribute<N: AskTypes>(
    alloc: Global,
    recorder: &mut N,
    at: Position,
    whole: &Ty,
    name: &str,
) -> Result<Value, AllocError>
    ensures { Performs value_of
        (spec.union_attribute at (ty_of whole.now) name.now (unions.items_of (ty_of whole.now))) (N.trace recorder.old)
        result (N.trace recorder.new) }
{
    let items = items_of(alloc, whole)?;
    let attribute = UnionAttribute {
        alloc,
        at,
        whole,
        name,
    };
    let found = attribute.item_types(recorder, &items)?;
    let union = union_of(alloc, &found)?;
    Ok(Value::plain(union))
}

/// The attribute of the items of a union, in an expression that begins at `at`.
#[derive(Clone, Copy)]
struct UnionAttribute<'a> {
    alloc: Global,
    at: Position,
    whole: &'a Ty,
    name: &'a str,
}

impl UnionAttribute<'_> {
    /// The types of the attribute of items, in turn.
    #[tactic(auto, using(crate::proofs::Steps::performing), unfolding(crate::specs::AttributeValues::item_types))]
    fn item_types<N: AskTypes>(&self, recorder: &mut N, items: &[Ty]) -> Result<Vec<Ty>, AllocError>
        ensures { Performs (λ (found : Vec Ty Global). map ty_of found.items)
            (spec.item_types self.now.at (ty_of self.now.whole.now) self.now.name.now [] (map ty_of items.now))
            (N.trace recorder.old) result (N.trace recorder.new) }
    {
        let mut found = Vec::with_capacity(self.alloc, items.len())?;
        for item in items {
            let ty = self.union_item(recorder, item)?;
            found.push(ty)?;
        }
        Ok(found)
    }

    /// The attribute of an item of a union.
    #[tactic(auto, using(crate::proofs::Steps::performing), unfolding(crate::specs::AttributeValues::union_item))]
    fn union_item<N: AskTypes>(&self, recorder: &mut N, item: &Ty) -> Result<Ty, AllocError>
        ensures { Performs ty_of
            (spec.union_item self.now.at (ty_of self.now.whole.now) self.now.name.now (ty_of item.now))
            (N.trace recorder.old) result (N.trace recorder.new) }
    {
        let found = item_attribute(self.alloc, recorder, item, self.name)?;
        self.item_type(recorder, item, found)
    }

    /// The type of what was found in an item of a union.
    fn item_type<N: AskTypes>(
        &self,
        recorder: &mut N,
        item: &Ty,
        found: FoundAttribute,
    ) -> Result<Ty, AllocError>
        ensures { Performs ty_of
            (spec.item_type self.now.at (ty_of self.now.whole.now) (ty_of item.now) self.now.name.now (found_in found))
            (N.trace recorder.old) result (N.trace recorder.new) }
    {
        match found {
            FoundAttribute::Absent => no_item_attribute(
                self.alloc, recorder, self.at, self.whole, item, self.name,
            ),
            FoundAttribute::Known(found) => Ok(found),
            FoundAttribute::Member(_, _, found) => Ok(found),
            FoundAttribute::Name(found) => Ok(found.ty),
        }
    }
}
