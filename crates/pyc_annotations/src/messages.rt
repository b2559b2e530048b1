//! What is reported of annotations and bases.

ghost use Rattle.std.specs.Prelude.{◌≡◌, IfOk, string_bytes};
ghost use Rattle.pyc_annotations.specs.Annotations as spec;
ghost use Rattle.pyc_annotations.specs.Bases as base_spec;
ghost use Rattle.pyc_annotations.specs.Meanings as name_spec;
ghost use Rattle.pyc_annotations.specs.Views.{annotation_in, base_of, meaning_of};
ghost use Rattle.pyc_reading.specs.Traces.{Performs};
ghost use Rattle.pyc_report.specs.declared.message.Code.TheVariants as code;
ghost use Rattle.pyc_report.specs.Message.{error_at};
ghost use Rattle.pyc_report.specs.NameTexts.{joined_names};
ghost use Rattle.pyc_type_exprs.specs.TypeExprView.{dotted_name_of};

use crate::class_bases::Base;
use crate::meaning::Meaning;
use crate::reading::{Annotation, annotation_of_type};
use crate::type_form::TypeForm;
use pyc_ast::{Position, Text};
use pyc_messages::{
    invalid_annotation_text, invalid_base_text, no_module_attribute_text, not_a_type_text,
    not_defined_text, wrong_count_text,
};
use pyc_reading::{Ask, report_error};
use pyc_report::{Code, push_names};
use pyc_type_exprs::DottedName;
use pyc_type_forms::Ty;
use std::alloc::{AllocError, Global};

/// Reports an error of an annotation, which is Any.
fn report_invalid<N: Ask>(
    recorder: &mut N,
    at: Position,
    text: String,
) -> Result<Annotation, AllocError>
    ensures { Performs annotation_in (spec.report_invalid (error_at at code.ValidType (string_bytes text)))
        (N.trace recorder.old) result (N.trace recorder.new) }
{
    report_error(recorder, at, Code::ValidType, text)?;
    Ok(annotation_of_type(Ty::Any))
}

/// Names with a dot between each two.
pub(crate) fn names_text(alloc: Global, names: &[Text]) -> Result<String, AllocError>
    ensures { IfOk result (λ text. string_bytes text ≡ joined_names names.now) }
{
    let mut text = String::new(alloc);
    push_names(&mut text, names)?;
    Ok(text)
}

/// Reports that a variable, a function or a module is no type.
#[tactic(auto, unfolding(crate::specs::Annotations::not_a_type))]
pub(crate) fn not_a_type<N: Ask>(
    alloc: Global,
    recorder: &mut N,
    name: &DottedName,
) -> Result<Annotation, AllocError>
    ensures { Performs annotation_in (spec.not_a_type (dotted_name_of name.now)) (N.trace recorder.old) result
        (N.trace recorder.new) }
{
    let names = names_text(alloc, &name.names)?;
    let text = not_a_type_text(alloc, names.as_str())?;
    report_invalid(recorder, name.at, text)
}

/// Reports that a form has another number of arguments than it takes.
#[tactic(auto, unfolding(crate::specs::Annotations::wrong_count))]
pub(crate) fn wrong_count<N: Ask>(
    alloc: Global,
    recorder: &mut N,
    at: Position,
    form: TypeForm,
) -> Result<Annotation, AllocError>
    ensures { Performs annotation_in (spec.wrong_count at form) (N.trace recorder.old) result (N.trace recorder.new) }
{
    let text = wrong_count_text(alloc, form.name())?;
    report_invalid(recorder, at, text)
}

/// Reports that an annotation is wrong.
#[tactic(auto, unfolding(crate::specs::Annotations::invalid))]
pub(crate) fn invalid<N: Ask>(
    alloc: Global,
    recorder: &mut N,
    at: Position,
) -> Result<Annotation, AllocError>
    ensures { Performs annotation_in (spec.invalid at) (N.trace recorder.old) result (N.trace recorder.new) }
{
    let text = invalid_annotation_text(alloc)?;
    report_invalid(recorder, at, text)
}

/// Reports that a base is no class.
#[tactic(auto, unfolding(crate::specs::Bases::invalid_base))]
pub(crate) fn invalid_base<N: Ask>(
    alloc: Global,
    recorder: &mut N,
    at: Position,
    shown: &str,
) -> Result<Base, AllocError>
    ensures { Performs base_of (base_spec.invalid_base at shown.now) (N.trace recorder.old) result
        (N.trace recorder.new) }
{
    let text = invalid_base_text(alloc, shown)?;
    report_error(recorder, at, Code::Misc, text)?;
    Ok(Base::Invalid)
}

/// Reports that nothing defines a name, which is Any.
#[tactic(auto, unfolding(crate::specs::Meanings::report_undefined))]
pub(crate) fn report_undefined<N: Ask>(
    alloc: Global,
    recorder: &mut N,
    at: Position,
    name: &str,
) -> Result<Meaning, AllocError>
    ensures { Performs meaning_of (name_spec.report_undefined at name.now) (N.trace recorder.old) result
        (N.trace recorder.new) }
{
    let text = not_defined_text(alloc, name)?;
    report_error(recorder, at, Code::NameDefined, text)?;
    Ok(Meaning::Any)
}

/// Reports that a module does not have an attribute, which is Any.
#[tactic(auto, unfolding(crate::specs::Meanings::no_attribute))]
pub(crate) fn no_attribute<N: Ask>(
    alloc: Global,
    recorder: &mut N,
    at: Position,
    name: &str,
) -> Result<Meaning, AllocError>
    ensures { Performs meaning_of (name_spec.no_attribute at name.now) (N.trace recorder.old) result
        (N.trace recorder.new) }
{
    let text = no_module_attribute_text(alloc, name)?;
    report_error(recorder, at, Code::AttrDefined, text)?;
    Ok(Meaning::Any)
}
