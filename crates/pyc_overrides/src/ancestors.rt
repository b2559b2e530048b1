//! What the ancestors of a class declare under a name.

ghost use Rattle.std.specs.Prelude.{◌≡◌, IfOk, option_map};
ghost use Rattle.pyc_overrides.specs.Ancestors as spec;
ghost use Rattle.pyc_reading.specs.AnswerView.{member_answer_of};
ghost use Rattle.pyc_reading.specs.Traces.{Performs};

use pyc_attributes::through_instance;
use pyc_builtins::{Member, member_type, own_member};
use pyc_class_ids::{BuiltinClass, ClassId};
use pyc_obligations::ask_member;
use pyc_reading::{Ask, MemberAnswer, MemberKind};
use pyc_type_forms::Ty;
use std::alloc::{AllocError, Global};

/// A member with its type as it is through an instance.
pub(crate) fn bind_to_instance(
    alloc: Global,
    found: MemberAnswer,
) -> Result<MemberAnswer, AllocError>
    ensures { IfOk result (λ member. member_answer_of member ≡ spec.bind_to_instance (member_answer_of found)) }
{
    let class = found.class.clone()?;
    let kind = found.kind;
    let ty = through_instance(alloc, found)?;
    Ok(MemberAnswer { class, kind, ty })
}

/// What a class has under a name, where the class itself declares it.
pub(crate) fn own_declaration(class: &ClassId, found: Option<MemberAnswer>) -> Option<MemberAnswer>
    ensures { option_map member_answer_of result
        ≡ spec.own_declaration class.now (option_map member_answer_of found) }
{
    match found {
        Some(found) => declared_only_by(class, found),
        None => None,
    }
}

/// A member, where the class itself declares it.
fn declared_only_by(class: &ClassId, found: MemberAnswer) -> Option<MemberAnswer>
    ensures { option_map member_answer_of result
        ≡ spec.declared_only_by class.now (member_answer_of found) }
{
    if found.class == *class {
        Some(found)
    } else {
        None
    }
}

/// What an ancestor itself declares under a name. No file is asked of a builtin class.
pub(crate) fn ancestor_member<N: Ask>(
    alloc: Global,
    recorder: &mut N,
    ancestor: &ClassId,
    name: &str,
) -> Result<Option<MemberAnswer>, AllocError>
    ensures { Performs (option_map member_answer_of) (spec.ancestor_member ancestor.now name.now) (N.trace recorder.old)
        result (N.trace recorder.new) }
{
    match ancestor.as_builtin() {
        Some(class) => builtin_member(alloc, class, own_member(class, name)),
        None => user_member(alloc, recorder, ancestor, name),
    }
}

/// What a class of a source itself declares under a name.
#[tactic(auto, using(pyc_obligations::proofs::Steps::performing))]
fn user_member<N: Ask>(
    alloc: Global,
    recorder: &mut N,
    class: &ClassId,
    name: &str,
) -> Result<Option<MemberAnswer>, AllocError>
    ensures { Performs (option_map member_answer_of) (spec.user_member class.now name.now) (N.trace recorder.old)
        result (N.trace recorder.new) }
{
    let found = ask_member(alloc, recorder, class, name)?;
    Ok(own_declaration(class, found))
}

/// A member of a builtin class, if there is one.
fn builtin_member(
    alloc: Global,
    class: BuiltinClass,
    found: Option<Member>,
) -> Result<Option<MemberAnswer>, AllocError>
    ensures { IfOk result (λ member. option_map member_answer_of member
        ≡ option_map (spec.builtin_answer class) found) }
{
    match found {
        Some(found) => Ok(Some(builtin_answer(alloc, class, found)?)),
        None => Ok(None),
    }
}

/// A member of a builtin class.
fn builtin_answer(
    alloc: Global,
    class: BuiltinClass,
    found: Member,
) -> Result<MemberAnswer, AllocError>
    ensures { IfOk result (λ answer. member_answer_of answer ≡ spec.builtin_answer class found) }
{
    let owner = Ty::Instance(ClassId::builtin(class));
    let ty = member_type(alloc, &owner, found)?;
    Ok(MemberAnswer {
        class: ClassId::builtin(class),
        kind: builtin_kind(found),
        ty,
    })
}

/// The kind of a member of a builtin class.
fn builtin_kind(found: Member) -> MemberKind
    ensures { result ≡ spec.builtin_kind found }
{
    match found {
        Member::Attribute => MemberKind::Variable,
        Member::Method(_) | Member::Append => MemberKind::Method,
    }
}
