//! The parameters of a row that an argument may fill.

ghost use Rattle.std.specs.Prelude.{◌≡◌, option_map};
ghost use Rattle.pyc_matching.specs.Matching as spec;
ghost use Rattle.pyc_matching.specs.Views.{found_in};
ghost use Rattle.pyc_type_forms.specs.TypeView.{param_row};

use crate::kinds::{is_double_star, is_named, is_plain, is_star};
use pyc_ast::Text;
use pyc_type_forms::{Param, Ty};

/// A parameter that was looked up: its index in the row, and its type.
#[derive(Clone, Copy)]
pub(crate) struct Found<'a> {
    pub(crate) index: usize,
    pub(crate) ty: &'a Ty,
}

/// The plain parameter before which stand so many others.
pub(crate) fn find_plain_param<'a>(params: &'a [Param], before: usize) -> Option<Found<'a>>
    ensures { option_map found_in result ≡ spec.plain_from 0 (param_row params.now) before }
{
    let mut left = before;
    for (index, param) in params.iter().enumerate() {
        if is_plain(&param.kind) {
            if left == 0 {
                return Some(Found {
                    index,
                    ty: &param.ty,
                });
            }
            left -= 1;
        }
    }
    None
}

/// The first parameter of a name.
pub(crate) fn first_named<'a>(params: &'a [Param], name: &Text) -> Option<Found<'a>>
    ensures { option_map found_in result ≡ spec.first_from (spec.is_named name.now) 0 (param_row params.now) }
{
    for (index, param) in params.iter().enumerate() {
        if is_named(name, &param.kind) {
            return Some(Found {
                index,
                ty: &param.ty,
            });
        }
    }
    None
}

/// The first parameter that gathers the arguments of further places.
pub(crate) fn first_star<'a>(params: &'a [Param]) -> Option<Found<'a>>
    ensures { option_map found_in result ≡ spec.first_from spec.is_star 0 (param_row params.now) }
{
    for (index, param) in params.iter().enumerate() {
        if is_star(&param.kind) {
            return Some(Found {
                index,
                ty: &param.ty,
            });
        }
    }
    None
}

/// The first parameter that gathers the arguments of further names.
pub(crate) fn first_double_star<'a>(params: &'a [Param]) -> Option<Found<'a>>
    ensures { option_map found_in result ≡ spec.first_from spec.is_double_star 0 (param_row params.now) }
{
    for (index, param) in params.iter().enumerate() {
        if is_double_star(&param.kind) {
            return Some(Found {
                index,
                ty: &param.ty,
            });
        }
    }
    None
}
