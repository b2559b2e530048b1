//! The parameters that a call must fill and does not.

ghost use Rattle.std.specs.Prelude.{◌≡◌, ◌++◌, IfOk, OnOk, map};
ghost use Rattle.pyc_matching.specs.Missing as spec;
ghost use Rattle.pyc_matching.specs.Views.{fill_of, missing_in};
ghost use Rattle.pyc_type_forms.specs.TypeView.{kind_of, param_of, param_row};

use crate::Fill;
use crate::kinds::is_plain;
use pyc_ast::Text;
use pyc_type_forms::{Param, ParamKind};
use std::alloc::{AllocError, Global};

/// A parameter that a call must fill and does not.
#[derive(Clone, Copy)]
pub enum MissingArgument<'a> {
    /// A plain one: its name, if it has one, and its number among the plain ones, counted from 1.
    Place(Option<&'a Text>, usize),
    /// A keyword-only one.
    Name(&'a Text),
}

/// The parameters that are missing after all arguments: the plain ones in order, and then the keyword-only ones. The
/// only error is that memory runs out.
pub fn missing<'a>(
    alloc: Global,
    fill: &Fill,
    params: &'a [Param],
) -> Result<Vec<MissingArgument<'a>>, AllocError>
    ensures { IfOk result (λ found. map missing_in found.items
        ≡ spec.missing (fill_of fill.now) (param_row params.now)) }
{
    let mut found = Vec::new(alloc);
    add_missing_places(&mut found, fill, params)?;
    add_missing_names(&mut found, fill, params)?;
    Ok(found)
}

/// Adds the plain parameters that are missing.
fn add_missing_places<'a>(
    found: &mut Vec<MissingArgument<'a>>,
    fill: &Fill,
    params: &'a [Param],
) -> Result<(), AllocError>
    ensures { OnOk result (map missing_in found.new.items
        ≡ map missing_in found.old.items ++ spec.missing_places (fill_of fill.now) 0 1 (param_row params.now)) }
{
    let mut number = 1;
    for (index, param) in params.iter().enumerate() {
        add_place(found, is_unfilled(fill, index, param), number, &param.kind)?;
        if is_plain(&param.kind) {
            number += 1;
        }
    }
    Ok(())
}

/// Adds a plain parameter with this number, if it is unfilled.
fn add_place<'a>(
    found: &mut Vec<MissingArgument<'a>>,
    is_unfilled: bool,
    number: usize,
    kind: &'a ParamKind,
) -> Result<(), AllocError>
    ensures { OnOk result (map missing_in found.new.items
        ≡ map missing_in found.old.items ++ spec.place_of is_unfilled number (kind_of kind.now)) }
{
    match kind {
        ParamKind::Plain(name) if is_unfilled => {
            found.push(MissingArgument::Place(name.as_ref(), number))?;
        }
        _ => {}
    }
    Ok(())
}

/// Adds the keyword-only parameters that are missing.
fn add_missing_names<'a>(
    found: &mut Vec<MissingArgument<'a>>,
    fill: &Fill,
    params: &'a [Param],
) -> Result<(), AllocError>
    ensures { OnOk result (map missing_in found.new.items
        ≡ map missing_in found.old.items ++ spec.missing_names (fill_of fill.now) 0 (param_row params.now)) }
{
    for (index, param) in params.iter().enumerate() {
        add_name(found, is_unfilled(fill, index, param), &param.kind)?;
    }
    Ok(())
}

/// Adds a keyword-only parameter, if it is unfilled.
fn add_name<'a>(
    found: &mut Vec<MissingArgument<'a>>,
    is_unfilled: bool,
    kind: &'a ParamKind,
) -> Result<(), AllocError>
    ensures { OnOk result (map missing_in found.new.items
        ≡ map missing_in found.old.items ++ spec.name_of is_unfilled (kind_of kind.now)) }
{
    match kind {
        ParamKind::KeywordOnly(name) if is_unfilled => {
            found.push(MissingArgument::Name(name))?;
        }
        _ => {}
    }
    Ok(())
}

/// Whether the parameter with this index is not filled, and a call may not leave it out.
fn is_unfilled(fill: &Fill, index: usize, param: &Param) -> bool
    ensures { result ≡ spec.is_unfilled (fill_of fill.now) index (param_of param.now).slot }
{
    !(param.is_optional || fill.is_filled(index))
}
