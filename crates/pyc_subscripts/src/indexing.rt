//! What subscripts of builtin types give.

ghost use Rattle.std.specs.Prelude.{◌≡◌, IfOk, option_map};
ghost use Rattle.pyc_ast.specs.ExprView.{index_of};
ghost use Rattle.pyc_subscripts.specs.Chosen as chosen;
ghost use Rattle.pyc_subscripts.specs.Owners as owners;
ghost use Rattle.pyc_subscripts.specs.Owners.{int_type};
ghost use Rattle.pyc_subscripts.specs.Subscripts as spec;
ghost use Rattle.pyc_reading.specs.Traces.{Performs};
ghost use Rattle.pyc_type_forms.specs.Types as plain;
ghost use Rattle.pyc_type_forms.specs.TypeView.{row, ty_of};

use crate::chosen::{Chosen, chosen_by, chosen_type, is_slice};
use crate::messages::{RequiredIndex, report_out_of_range};
use pyc_ast::{Index, Position};
use pyc_class_ids::{BuiltinClass, ClassId};
use pyc_obligations::{AskTypes, require};
use pyc_type_forms::{DictTypes, Ty};
use std::alloc::{AllocError, Global};

/// What a subscript of a builtin type gives; none where there is no such subscript.
pub(crate) fn builtin_item<N: AskTypes>(
    alloc: Global,
    recorder: &mut N,
    at: Position,
    index: &Index,
    got: &Ty,
    ty: &Ty,
) -> Result<Option<Ty>, AllocError>
    ensures { Performs (option_map ty_of) (spec.builtin_item at (index_of index.now) (ty_of got.now) (ty_of ty.now))
        (N.trace recorder.old) result (N.trace recorder.new) }
{
    match ty {
        Ty::Instance(class) => text_item(alloc, recorder, index, got, class),
        Ty::List(item) => sequence_item(alloc, recorder, index, got, ty, item),
        Ty::Dict(types) => dict_item(alloc, recorder, index, got, ty, types),
        Ty::Tuple(items) => fixed_item(alloc, recorder, at, chosen_by(index), items),
        Ty::TupleOf(item) => Ok(Some(any_length_item(index, ty, item)?)),
        _ => Ok(None),
    }
}

/// What a subscript of a dictionary gives.
fn dict_item<N: AskTypes>(
    alloc: Global,
    recorder: &mut N,
    index: &Index,
    got: &Ty,
    whole: &Ty,
    types: &DictTypes,
) -> Result<Option<Ty>, AllocError>
    ensures { Performs (option_map ty_of)
        (spec.required_item (chosen.at_of (index_of index.now)) (ty_of got.now) (ty_of whole.now) (ty_of types.now.key)
        (ty_of types.now.value)) (N.trace recorder.old) result (N.trace recorder.new) }
{
    let required = RequiredIndex {
        at: index.at,
        got,
        whole,
        want: &types.key,
    };
    required_item(alloc, recorder, &required, &types.value)
}

/// An int, or a slice, of a sequence.
fn sequence_item<N: AskTypes>(
    alloc: Global,
    recorder: &mut N,
    index: &Index,
    got: &Ty,
    whole: &Ty,
    given: &Ty,
) -> Result<Option<Ty>, AllocError>
    ensures { Performs (option_map ty_of)
        (spec.sequence_item (index_of index.now) (ty_of got.now) (ty_of whole.now) (ty_of given.now))
        (N.trace recorder.old) result (N.trace recorder.new) }
{
    if is_slice(index) {
        Ok(Some(whole.clone()?))
    } else {
        let int = int();
        let required = RequiredIndex {
            at: index.at,
            got,
            whole,
            want: &int,
        };
        required_item(alloc, recorder, &required, given)
    }
}

/// The type int.
fn int() -> Ty
    ensures { ty_of result ≡ int_type }
{
    Ty::Instance(ClassId::builtin(BuiltinClass::Int))
}

/// What a subscript of a string or of bytes gives.
fn text_item<N: AskTypes>(
    alloc: Global,
    recorder: &mut N,
    index: &Index,
    got: &Ty,
    class: &ClassId,
) -> Result<Option<Ty>, AllocError>
    ensures { Performs (option_map ty_of) (spec.text_item (index_of index.now) (ty_of got.now) class.now)
        (N.trace recorder.old) result (N.trace recorder.new) }
{
    match class.as_builtin() {
        Some(BuiltinClass::Str) => str_item(alloc, recorder, index, got),
        Some(BuiltinClass::Bytes) => bytes_item(alloc, recorder, index, got),
        _ => Ok(None),
    }
}

/// What a subscript of a string gives.
fn str_item<N: AskTypes>(
    alloc: Global,
    recorder: &mut N,
    index: &Index,
    got: &Ty,
) -> Result<Option<Ty>, AllocError>
    ensures { Performs (option_map ty_of)
        (spec.sequence_item (index_of index.now) (ty_of got.now) owners.str_type owners.str_type) (N.trace recorder.old)
        result (N.trace recorder.new) }
{
    let text = Ty::Instance(ClassId::builtin(BuiltinClass::Str));
    sequence_item(alloc, recorder, index, got, &text, &text)
}

/// What a subscript of bytes gives.
fn bytes_item<N: AskTypes>(
    alloc: Global,
    recorder: &mut N,
    index: &Index,
    got: &Ty,
) -> Result<Option<Ty>, AllocError>
    ensures { Performs (option_map ty_of)
        (spec.sequence_item (index_of index.now) (ty_of got.now) owners.bytes_type int_type) (N.trace recorder.old)
        result
        (N.trace recorder.new) }
{
    let text = Ty::Instance(ClassId::builtin(BuiltinClass::Bytes));
    sequence_item(alloc, recorder, index, got, &text, &int())
}

/// An item of the type `given`, which an index of a wanted type gives.
#[tactic(auto, using(crate::proofs::Steps::performing), unfolding(crate::specs::Subscripts::required_item))]
fn required_item<N: AskTypes>(
    alloc: Global,
    recorder: &mut N,
    required: &RequiredIndex<'_>,
    given: &Ty,
) -> Result<Option<Ty>, AllocError>
    ensures { Performs (option_map ty_of)
        (spec.required_item required.now.at (ty_of required.now.got.now) (ty_of required.now.whole.now)
        (ty_of required.now.want.now) (ty_of given.now)) (N.trace recorder.old) result (N.trace recorder.new) }
{
    require(alloc, recorder, required)?;
    Ok(Some(given.clone()?))
}

/// The item at a place of a fixed tuple.
fn fixed_item<N: AskTypes>(
    alloc: Global,
    recorder: &mut N,
    at: Position,
    place: Option<Chosen>,
    items: &[Ty],
) -> Result<Option<Ty>, AllocError>
    ensures { Performs (option_map ty_of) (spec.fixed_item at place (row items.now)) (N.trace recorder.old) result
        (N.trace recorder.new) }
{
    match place {
        Some(place) => placed_item(alloc, recorder, at, chosen_type(place, items)),
        None => Ok(Some(Ty::Any)),
    }
}

/// The item at a place, if it is there.
fn placed_item<N: AskTypes>(
    alloc: Global,
    recorder: &mut N,
    at: Position,
    found: Option<&Ty>,
) -> Result<Option<Ty>, AllocError>
    ensures { Performs (option_map ty_of) (spec.placed_item at (option_map (λ ty. ty_of ty.now) found.entry))
        (N.trace recorder.old) result (N.trace recorder.new) }
{
    match found {
        Some(ty) => Ok(Some(ty.clone()?)),
        None => report_out_of_range(alloc, recorder, at),
    }
}

/// An item, or a slice, of a tuple of any length.
fn any_length_item(index: &Index, whole: &Ty, item: &Ty) -> Result<Ty, AllocError>
    requires { ty_of whole.now ≡ plain.tuple_of (ty_of item.now) }
    ensures { IfOk result (λ ty. ty_of ty ≡ spec.any_length_item (index_of index.now) (ty_of item.now)) }
{
    if is_slice(index) {
        whole.clone()
    } else {
        item.clone()
    }
}
