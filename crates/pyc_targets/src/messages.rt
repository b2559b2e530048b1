//! What is reported of targets.

ghost use Rattle.std.specs.Prelude.{option_map};
ghost use Rattle.pyc_reading.specs.Traces.{Performs};
ghost use Rattle.pyc_targets.specs.AttributeTargets as spec;
ghost use Rattle.pyc_targets.specs.ItemTargets as items;
ghost use Rattle.pyc_targets.specs.Views.{target_type_of};
ghost use Rattle.pyc_type_forms.specs.TypeView.{ty_of};

use crate::target_type::TargetType;
use pyc_ast::Position;
use pyc_class_ids::ClassId;
use pyc_messages::{read_only_text, unsupported_target_text};
use pyc_obligations::{AskTypes, report_error};
use pyc_report::Code;
use pyc_type_forms::{Ty, show};
use std::alloc::{AllocError, Global};

/// Reports that a property of a class cannot be set.
#[tactic(auto, using(pyc_obligations::proofs::Steps::performing), unfolding(crate::specs::AttributeTargets::read_only))]
pub(crate) fn read_only<N: AskTypes>(
    alloc: Global,
    recorder: &mut N,
    at: Position,
    name: &str,
    class: &ClassId,
) -> Result<Option<Ty>, AllocError>
    ensures { Performs (option_map ty_of) (spec.read_only at name.now class.now) (N.trace recorder.old) result
        (N.trace recorder.new) }
{
    let text = read_only_text(alloc, name, class.name())?;
    report_error(recorder, at, Code::Misc, text)?;
    Ok(None)
}

/// Reports that the items of a value cannot be assigned to.
#[tactic(auto, using(pyc_obligations::proofs::Steps::performing), unfolding(crate::specs::ItemTargets::unsupported_reported))]
pub(crate) fn report_unsupported<N: AskTypes>(
    alloc: Global,
    recorder: &mut N,
    at: Position,
    ty: &Ty,
) -> Result<TargetType, AllocError>
    ensures { Performs target_type_of (items.unsupported_reported at (ty_of ty.now)) (N.trace recorder.old) result
        (N.trace recorder.new) }
{
    let shown = show(alloc, ty)?;
    let text = unsupported_target_text(alloc, shown.as_str())?;
    report_error(recorder, at, Code::Index, text)?;
    Ok(TargetType::plain(Some(Ty::Any)))
}
