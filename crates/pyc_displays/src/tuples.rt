//! Tuple and set displays.

ghost use Rattle.std.specs.Prelude.{◌≡◌, map, option_map};
ghost use Rattle.pyc_ast.specs.ExprView.{element_of};
ghost use Rattle.pyc_displays.specs.Displays as spec;
ghost use Rattle.pyc_reading.specs.Traces.{Performs};
ghost use Rattle.pyc_type_forms.specs.TypeView.{ty_of};

use crate::built::tuple_type;
use crate::expecting::expected_places;
use crate::items::{has_starred, read_types};
use pyc_ast::Element;
use pyc_obligations::{AskTypes, InferType};
use pyc_type_forms::Ty;
use std::alloc::{AllocError, Global};

/// The type of a tuple display: the tuple of its items, or one of any length where some stand after `*`. Each item is
/// read with what is expected of its place. The only error is that memory runs out.
#[tactic(auto, using(pyc_obligations::proofs::Steps::performing), unfolding(crate::specs::Displays::tuple_display))]
pub fn tuple_display<N: AskTypes, R: InferType<N>>(
    alloc: Global,
    recorder: &mut N,
    reader: &R,
    items: &[Element],
    want: Option<&Ty>,
) -> Result<Ty, AllocError>
    requires { R.ready reader.now }
    ensures { Performs ty_of
        (spec.tuple_display (R.reads reader.now) (map element_of items.now)
        (option_map (λ ty. ty_of ty.now) want.entry)) (N.trace recorder.old) result (N.trace recorder.new) }
{
    let is_starred = has_starred(items);
    let places = expected_places(alloc, is_starred, items.len(), want)?;
    let types = read_types(alloc, recorder, reader, &places, items)?;
    let tuple = tuple_type(alloc, is_starred, types)?;
    Ok(tuple)
}

/// The type of a set display, which is Any: its items are read, whatever they are. The only error is that memory runs
/// out.
#[tactic(auto, using(pyc_obligations::proofs::Steps::performing), unfolding(crate::specs::Displays::set_display))]
pub fn set_display<N: AskTypes, R: InferType<N>>(
    alloc: Global,
    recorder: &mut N,
    reader: &R,
    items: &[Element],
    _want: Option<&Ty>,
) -> Result<Ty, AllocError>
    requires { R.ready reader.now }
    ensures { Performs ty_of
        (spec.set_display (R.reads reader.now) (map element_of items.now)
        (option_map (λ ty. ty_of ty.now) _want.entry)) (N.trace recorder.old) result (N.trace recorder.new) }
{
    read_types(alloc, recorder, reader, &[], items)?;
    Ok(Ty::Any)
}
