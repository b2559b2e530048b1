//! How a type is written.

ghost use Rattle.std.specs.Prelude.{◌≡◌, ◌++◌, IfOk, OnOk, string_bytes, codes};
ghost use Rattle.pyc_type_forms.specs.TypeView.{ty_of, row, params_of, param_row, kind_of};
ghost use Rattle.pyc_type_forms.specs.Text.{text_of, texts_of, params_text, param_texts, joined, tuple_text};
ghost use Rattle.pyc_type_forms.specs.Text.{is_plain, are_plain};

use crate::{Param, ParamKind, Params, Ty};
use std::alloc::{AllocError, Global};

/// The text of a type, as it is written in an annotation. The only error is that memory runs out.
pub fn show(alloc: Global, ty: &Ty) -> Result<String, AllocError>
    ensures { IfOk result (λ text. string_bytes text ≡ text_of (ty_of ty.now)) }
{
    let mut text = String::new(alloc);
    write_type(&mut text, ty)?;
    Ok(text)
}

/// Writes a type.
#[cycle(write)]
fn write_type(out: &mut String, ty: &Ty) -> Result<(), AllocError>
    ensures { OnOk result (string_bytes out.new ≡ string_bytes out.old ++ text_of (ty_of ty.now)) }
{
    match ty {
        Ty::Any => out.push_str("Any"),
        Ty::None => out.push_str("None"),
        Ty::Module(_) => out.push_str("Module"),
        Ty::Instance(class) => out.push_str(class.name()),
        Ty::Class(class) => {
            out.push_str("type[")?;
            out.push_str(class.name())?;
            out.push_str("]")
        }
        Ty::List(item) => {
            out.push_str("list[")?;
            write_type(out, item)?;
            out.push_str("]")
        }
        Ty::Dict(types) => {
            out.push_str("dict[")?;
            write_type(out, &types.key)?;
            out.push_str(", ")?;
            write_type(out, &types.value)?;
            out.push_str("]")
        }
        Ty::Tuple(items) => {
            out.push_str("tuple[")?;
            write_tuple(out, items)?;
            out.push_str("]")
        }
        Ty::TupleOf(item) => {
            out.push_str("tuple[")?;
            write_type(out, item)?;
            out.push_str(", ...]")
        }
        Ty::Union(items) => write_joined(out, " | ", items),
        Ty::Callable(signature) => {
            out.push_str("Callable[")?;
            write_params(out, &signature.params)?;
            out.push_str(", ")?;
            write_type(out, &signature.result)?;
            out.push_str("]")
        }
    }
}

/// Writes what stands between the brackets of a tuple of these items.
#[cycle(write)]
fn write_tuple(out: &mut String, items: &[Ty]) -> Result<(), AllocError>
    ensures { OnOk result (string_bytes out.new ≡ string_bytes out.old ++ tuple_text (texts_of (row items.now))) }
{
    if items.is_empty() {
        out.push_str("()")
    } else {
        write_joined(out, ", ", items)
    }
}

/// Writes the types, with the separator between each two.
#[cycle(write)]
fn write_joined(out: &mut String, separator: &str, items: &[Ty]) -> Result<(), AllocError>
    ensures { OnOk result (string_bytes out.new
        ≡ string_bytes out.old ++ joined separator.now (texts_of (row items.now))) }
{
    let mut is_first = true;
    for item in items {
        if !is_first {
            out.push_str(separator)?;
        }
        is_first = false;
        write_type(out, item)?;
    }
    Ok(())
}

/// Writes what a call takes.
#[cycle(write)]
fn write_params(out: &mut String, params: &Params) -> Result<(), AllocError>
    ensures { OnOk result (string_bytes out.new ≡ string_bytes out.old ++ params_text (params_of params.now)) }
{
    match params {
        Params::Dots => out.push_str("..."),
        Params::Listed(listed) => {
            if !are_plain(listed) {
                return out.push_str("...");
            }
            out.push_str("[")?;
            write_param_types(out, listed)?;
            out.push_str("]")
        }
    }
}

/// Writes the types of the parameters, with a comma between each two.
#[cycle(write)]
fn write_param_types(out: &mut String, params: &[Param]) -> Result<(), AllocError>
    ensures { OnOk result (string_bytes out.new
        ≡ string_bytes out.old ++ joined (codes ", ") (param_texts (param_row params.now))) }
{
    let mut is_first = true;
    for param in params {
        if !is_first {
            out.push_str(", ")?;
        }
        is_first = false;
        write_type(out, &param.ty)?;
    }
    Ok(())
}

/// Whether all parameters are plain.
fn are_plain(params: &[Param]) -> bool
    ensures { result ≡ are_plain (param_row params.now) }
{
    for param in params {
        if !is_plain(&param.kind) {
            return false;
        }
    }
    true
}

/// Whether a parameter of this kind is plain.
fn is_plain(kind: &ParamKind) -> bool
    ensures { result ≡ is_plain (kind_of kind.now) }
{
    match kind {
        ParamKind::Plain(_) => true,
        _ => false,
    }
}
