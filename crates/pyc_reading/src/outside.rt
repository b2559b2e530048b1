//! What a name of a module is as other files see it.

ghost use Rattle.std.specs.Prelude.{◌≡◌, IfOk};
ghost use Rattle.pyc_names.specs.FollowingView.{qualified_of};
ghost use Rattle.pyc_reading.specs.AnswerView.{answer_in, kind_of, name_answer_of};
ghost use Rattle.pyc_reading.specs.Outside as spec;
ghost use Rattle.pyc_reading.specs.Traces.{Performs};

use crate::answer::{Answer, Export, NameAnswer, NameKind};
use crate::ask::Ask;
use crate::key::Key;
use pyc_names::{QualifiedName, module_of_parts};
use pyc_type_forms::Ty;
use std::alloc::{AllocError, Global};
use std::rc::Rc;
use std::slice;

/// What a name of a module stands for, as its own file sees it, which is asked. The only error is that memory runs out.
pub fn ask_name<N: Ask>(
    alloc: Global,
    recorder: &mut N,
    name: QualifiedName,
) -> Result<NameAnswer, AllocError>
    ensures { Performs name_answer_of (spec.ask_name (qualified_of name)) (N.trace recorder.old) result
        (N.trace recorder.new) }
{
    let answer = recorder.ask(alloc, Key::Name(name))?;
    Ok(name_in(answer))
}

/// What a name stands for, as an answer says it.
fn name_in(answer: Answer) -> NameAnswer
    ensures { name_answer_of result ≡ spec.name_in (answer_in answer) }
{
    match answer {
        Answer::Name(found) => found,
        _ => NameAnswer {
            kind: NameKind::Unknown,
            ty: Ty::Any,
        },
    }
}

/// Whether a module passes a name on to other files, which is asked. The only error is that memory runs out.
pub fn ask_export<N: Ask>(
    alloc: Global,
    recorder: &mut N,
    name: QualifiedName,
) -> Result<Export, AllocError>
    ensures { Performs (λ found. found) (spec.ask_export (qualified_of name)) (N.trace recorder.old) result
        (N.trace recorder.new) }
{
    let answer = recorder.ask(alloc, Key::Export(name))?;
    Ok(export_in(&answer))
}

/// Whether a module passes a name on, as an answer says it.
fn export_in(answer: &Answer) -> Export
    ensures { result ≡ spec.export_in (answer_in answer.now) }
{
    match answer {
        Answer::Export(found) => *found,
        _ => Export::Open,
    }
}

/// What a name of a module is as other files see it, which is asked. The only error is that memory runs out.
#[tactic(auto, using(crate::proofs::Steps::performing))]
pub fn ask_outside<N: Ask>(
    alloc: Global,
    recorder: &mut N,
    name: &QualifiedName,
) -> Result<NameAnswer, AllocError>
    ensures { Performs name_answer_of (spec.ask_outside (qualified_of name.now)) (N.trace recorder.old) result
        (N.trace recorder.new) }
{
    let asked = name.clone()?;
    let found = ask_name(alloc, recorder, asked)?;
    outside_found(alloc, recorder, name, found)
}

/// What a name of a module that stands for this in its own file is as other files see it.
#[tactic(auto, using(crate::proofs::Steps::performing))]
fn outside_found<N: Ask>(
    alloc: Global,
    recorder: &mut N,
    name: &QualifiedName,
    found: NameAnswer,
) -> Result<NameAnswer, AllocError>
    ensures { Performs name_answer_of (spec.outside_found (qualified_of name.now) (name_answer_of found))
        (N.trace recorder.old) result (N.trace recorder.new) }
{
    if may_be_hidden(&found.kind) {
        let asked = name.clone()?;
        let passed_on = ask_export(alloc, recorder, asked)?;
        exported(alloc, name, found, passed_on)
    } else {
        Ok(found)
    }
}

/// Whether it is asked if a module passes a name on that is of this kind.
fn may_be_hidden(kind: &NameKind) -> bool
    ensures { result ≡ spec.may_be_hidden (kind_of kind.now) }
{
    match kind {
        NameKind::NoModule | NameKind::NoName | NameKind::NoTarget => false,
        NameKind::Cycle | NameKind::Opaque => false,
        _ => true,
    }
}

/// What a name that stands for this is to other files, by whether its module passes it on. The only error is that
/// memory runs out.
pub fn exported(
    alloc: Global,
    name: &QualifiedName,
    found: NameAnswer,
    passed_on: Export,
) -> Result<NameAnswer, AllocError>
    ensures { IfOk result (λ seen. name_answer_of seen
        ≡ spec.exported (qualified_of name.now) (name_answer_of found) passed_on) }
{
    match passed_on {
        Export::Open => Ok(found),
        Export::Submodule => submodule_answer(alloc, name),
        Export::Hidden => Ok(NameAnswer {
            kind: NameKind::NoName,
            ty: Ty::Any,
        }),
    }
}

/// The submodule of a name.
fn submodule_answer(alloc: Global, name: &QualifiedName) -> Result<NameAnswer, AllocError>
    ensures { IfOk result (λ found. name_answer_of found ≡ spec.submodule_answer (qualified_of name.now)) }
{
    let under = module_of_parts(alloc, name.module_path.parts(), slice::from_ref(&name.name))?;
    let parts = Vec::from_clones(alloc, under.parts())?;
    Ok(NameAnswer {
        kind: NameKind::Module(under),
        ty: Ty::Module(Rc::new(alloc, parts)?),
    })
}
