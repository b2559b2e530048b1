//! How large a type is.

ghost use Rattle.std.specs.Prelude.{◌≡◌, ◌≤◌, ◌-◌, nat_le, SomeIff};
ghost use Rattle.pyc_type_forms.specs.TypeView.{ty_of, row, params_of, param_row};
ghost use Rattle.pyc_type_forms.specs.Size.{size, row_size, params_size, listed_size};

use crate::{Param, Params, Ty};

/// Whether a type is built of at most so many types. Takes no memory.
pub(crate) fn is_at_most(ty: &Ty, most: u32) -> bool
    ensures { result ≡ nat_le (size (ty_of ty.now)) most }
{
    left_after(ty, most).is_some()
}

/// What is left of a number of types after those that a type is built of, if they are no more.
#[cycle(size)]
fn left_after(ty: &Ty, left: u32) -> Option<u32>
    ensures { SomeIff result (size (ty_of ty.now) ≤ left) (left - size (ty_of ty.now)) }
{
    let left = left.checked_sub(1)?;
    match ty {
        Ty::List(item) => left_after(item, left),
        Ty::Dict(types) => left_after(&types.value, left_after(&types.key, left)?),
        Ty::Tuple(items) => left_after_each(items, left),
        Ty::TupleOf(item) => left_after(item, left),
        Ty::Union(items) => left_after_each(items, left),
        Ty::Callable(signature) => {
            left_after(
                &signature.result,
                left_after_params(&signature.params, left)?,
            )
        }
        _ => Some(left),
    }
}

/// What is left of `left` types after those that a row is built of, if they are no more.
#[cycle(size)]
fn left_after_each(types: &[Ty], left: u32) -> Option<u32>
    ensures { SomeIff result (row_size (row types.now) ≤ left) (left - row_size (row types.now)) }
{
    let mut left = left;
    for ty in types {
        left = left_after(ty, left)?;
    }
    Some(left)
}

/// What is left of `left` types after those that what a call takes is built of, if they are no more.
#[cycle(size)]
fn left_after_params(params: &Params, left: u32) -> Option<u32>
    ensures { SomeIff result (params_size (params_of params.now) ≤ left) (left - params_size (params_of params.now)) }
{
    match params {
        Params::Dots => Some(left),
        Params::Listed(listed) => left_after_listed(listed, left),
    }
}

/// What is left of `left` types after those that a row of parameters is built of, if they are no more.
#[cycle(size)]
fn left_after_listed(params: &[Param], left: u32) -> Option<u32>
    ensures { SomeIff result (listed_size (param_row params.now) ≤ left) (left - listed_size (param_row params.now)) }
{
    let mut left = left;
    for param in params {
        left = left_after(&param.ty, left)?;
    }
    Some(left)
}
