//! What is reported of attributes that are not there.

ghost use Rattle.std.specs.Prelude.{◌≡◌, IfOk, string_bytes};
ghost use Rattle.pyc_attributes.specs.AttributeValues as spec;
ghost use Rattle.pyc_messages.specs.Expressions.{no_attribute_text};
ghost use Rattle.pyc_reading.specs.Traces.{Performs};
ghost use Rattle.pyc_type_forms.specs.Text.{text_of};
ghost use Rattle.pyc_type_forms.specs.TypeView.{ty_of};

use pyc_ast::Position;
use pyc_messages::{no_attribute_text, no_item_attribute_text, no_module_attribute_text};
use pyc_obligations::{AskTypes, report_error};
use pyc_report::Code;
use pyc_type_forms::{Ty, show};
use std::alloc::{AllocError, Global};

/// The text on what has no such attribute.
fn absent_text(alloc: Global, ty: &Ty, name: &str) -> Result<String, AllocError>
    ensures { IfOk result (λ text. string_bytes text ≡ spec.absent_text (ty_of ty.now) name.now) }
{
    match ty {
        Ty::Module(_) => no_module_attribute_text(alloc, name),
        _ => no_type_attribute_text(alloc, ty, name),
    }
}

/// The text on a type that is no module.
fn no_type_attribute_text(alloc: Global, ty: &Ty, name: &str) -> Result<String, AllocError>
    ensures { IfOk result (λ text. string_bytes text
        ≡ no_attribute_text (text_of (ty_of ty.now)) name.now) }
{
    let shown = show(alloc, ty)?;
    no_attribute_text(alloc, shown.as_str(), name)
}

/// Reports that a type has no such attribute, and answers Any. The only error is that memory runs out.
#[tactic(auto, using(crate::proofs::Steps::performing), unfolding(crate::specs::AttributeValues::no_attribute))]
pub fn no_attribute<N: AskTypes>(
    alloc: Global,
    recorder: &mut N,
    at: Position,
    ty: &Ty,
    name: &str,
) -> Result<Ty, AllocError>
    ensures { Performs ty_of (spec.no_attribute at (ty_of ty.now) name.now) (N.trace recorder.old) result
        (N.trace recorder.new) }
{
    let text = absent_text(alloc, ty, name)?;
    report_error(recorder, at, Code::AttrDefined, text)?;
    Ok(Ty::Any)
}

/// Reports that an item of a union has no such attribute, and answers Any. The only error is that memory runs out.
#[tactic(auto, using(crate::proofs::Steps::performing), unfolding(crate::specs::AttributeValues::no_item_attribute))]
pub fn no_item_attribute<N: AskTypes>(
    alloc: Global,
    recorder: &mut N,
    at: Position,
    whole: &Ty,
    item: &Ty,
    name: &str,
) -> Result<Ty, AllocError>
    ensures { Performs ty_of (spec.no_item_attribute at (ty_of whole.now) (ty_of item.now) name.now)
        (N.trace recorder.old) result (N.trace recorder.new) }
{
    let item = show(alloc, item)?;
    let whole = show(alloc, whole)?;
    let text = no_item_attribute_text(alloc, item.as_str(), whole.as_str(), name)?;
    report_error(recorder, at, Code::UnionAttr, text)?;
    Ok(Ty::Any)
}
