//! The items of displays, of whatever types they are.

ghost use Rattle.std.specs.Prelude.{◌≡◌, map, option_map};
ghost use Rattle.std.specs.List.{list_any};
ghost use Rattle.pyc_ast.specs.ExprView.{expr_of, element_of};
ghost use Rattle.pyc_displays.specs.Displays as spec;
ghost use Rattle.pyc_reading.specs.Traces.{Performs};
ghost use Rattle.pyc_type_forms.specs.TypeView.{ty_of};

use pyc_ast::{Element, Expr};
use pyc_obligations::{AskTypes, InferType};
use pyc_type_forms::Ty;
use std::alloc::{AllocError, Global};

/// Reads a part of which nothing is expected, whatever its type is.
#[tactic(auto, using(pyc_obligations::proofs::Steps::performing), unfolding(crate::specs::Displays::infer_freely))]
pub(crate) fn infer_freely<N: AskTypes, R: InferType<N>>(
    alloc: Global,
    recorder: &mut N,
    reader: &R,
    part: &Expr,
) -> Result<(), AllocError>
    requires { R.ready reader.now }
    ensures { Performs (λ u. u) (spec.infer_freely (R.reads reader.now) (expr_of part.now)) (N.trace recorder.old)
        result
        (N.trace recorder.new) }
{
    reader.read(alloc, recorder, part, None)?;
    Ok(())
}

/// The types of items, in turn, with what is expected of each place.
#[tactic(auto, using(pyc_obligations::proofs::Steps::performing), unfolding(crate::specs::Displays::more_types))]
pub(crate) fn read_types<N: AskTypes, R: InferType<N>>(
    alloc: Global,
    recorder: &mut N,
    reader: &R,
    places: &[Ty],
    items: &[Element],
) -> Result<Vec<Ty>, AllocError>
    requires { R.ready reader.now }
    ensures { Performs (λ types. map ty_of types.items)
        (spec.types_of (R.reads reader.now) (map ty_of places.now) (map element_of items.now)) (N.trace recorder.old)
        result (N.trace recorder.new) }
{
    let mut types = Vec::with_capacity(alloc, items.len())?;
    for index in 0..items.len() {
        let ty = reader.read(alloc, recorder, &items[index].value, places.get(index))?;
        types.push(ty)?;
    }
    Ok(types)
}

/// Whether some items stand after `*`.
pub(crate) fn has_starred(items: &[Element]) -> bool
    ensures { result ≡ list_any spec.is_starred (map element_of items.now) }
{
    for item in items {
        if item.is_starred {
            return true;
        }
    }
    false
}
