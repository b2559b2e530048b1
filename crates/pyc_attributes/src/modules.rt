//! What modules have under names.

ghost use Rattle.std.specs.Prelude.{◌≡◌, IfOk, None};
ghost use Rattle.pyc_attributes.specs.FoundAttributes as spec;
ghost use Rattle.pyc_attributes.specs.FoundView.{found_in};
ghost use Rattle.pyc_names.specs.FixedModules as fixed;
ghost use Rattle.pyc_names.specs.FollowingView.{qualified_of};
ghost use Rattle.pyc_reading.specs.AnswerView.{kind_of, name_answer_of};
ghost use Rattle.pyc_reading.specs.Traces.{Performs};

use crate::found::FoundAttribute;
use pyc_ast::Text;
use pyc_builtins::is_dunder;
use pyc_names::{FixedName, QualifiedName, fixed_module, fixed_name, module_of_parts};
use pyc_obligations::AskTypes;
use pyc_reading::{NameAnswer, NameKind, ask_outside};
use pyc_type_forms::Ty;
use std::alloc::{AllocError, Global};

/// What a module has under a name, by the parts of its own.
#[tactic(auto, unfolding(crate::specs::FoundAttributes::module_attribute))]
pub(crate) fn module_attribute<N: AskTypes>(
    alloc: Global,
    recorder: &mut N,
    module_path: &[Text],
    name: &str,
) -> Result<FoundAttribute, AllocError>
    ensures { Performs found_in (spec.module_attribute module_path.now name.now) (N.trace recorder.old) result
        (N.trace recorder.new) }
{
    if is_dunder(name) {
        Ok(FoundAttribute::Known(Ty::Any))
    } else {
        module_name(alloc, recorder, module_path, name)
    }
}

/// A name of a module.
fn module_name<N: AskTypes>(
    alloc: Global,
    recorder: &mut N,
    module_path: &[Text],
    name: &str,
) -> Result<FoundAttribute, AllocError>
    ensures { Performs found_in (spec.module_name module_path.now name.now (fixed.fixed_module module_path.now))
        (N.trace recorder.old) result (N.trace recorder.new) }
{
    match fixed_module(module_path) {
        Some(found) => Ok(fixed_found(fixed_name(found, name))),
        None => ask_attribute(alloc, recorder, module_path, name),
    }
}

/// A name of a fixed module.
fn fixed_found(found: Option<FixedName>) -> FoundAttribute
    ensures { found_in result ≡ spec.fixed_found found }
{
    match found {
        Some(name) => FoundAttribute::Name(NameAnswer {
            kind: NameKind::Fixed(name),
            ty: Ty::Any,
        }),
        None => FoundAttribute::Known(Ty::Any),
    }
}

/// A name of a module that is no fixed one.
#[tactic(auto, using(crate::proofs::Steps::performing))]
fn ask_attribute<N: AskTypes>(
    alloc: Global,
    recorder: &mut N,
    module_path: &[Text],
    name: &str,
) -> Result<FoundAttribute, AllocError>
    ensures { Performs found_in (spec.module_name module_path.now name.now None) (N.trace recorder.old) result
        (N.trace recorder.new) }
{
    let asked = qualified(alloc, module_path, name)?;
    let found = ask_outside(alloc, recorder, &asked)?;
    Ok(answered_found(found))
}

/// A name with the module of these parts.
fn qualified(alloc: Global, module_path: &[Text], name: &str) -> Result<QualifiedName, AllocError>
    ensures { IfOk result (λ q. qualified_of q ≡ record { module_path = module_path.now; name = name.now }) }
{
    Ok(QualifiedName {
        module_path: module_of_parts(alloc, &[], module_path)?,
        name: Text::new(alloc, name)?,
    })
}

/// A name of a module, as other files see it.
fn answered_found(found: NameAnswer) -> FoundAttribute
    ensures { found_in result ≡ spec.answered_found (name_answer_of found) (kind_of found.kind) }
{
    match &found.kind {
        NameKind::NoName => FoundAttribute::Absent,
        _ => FoundAttribute::Name(found),
    }
}
