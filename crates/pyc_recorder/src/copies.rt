//! Answers once more.

ghost use Rattle.std.specs.Prelude.{◌≡◌, IfOk};
ghost use Rattle.pyc_reading.specs.AnswerView.{answer_in, class_order_of, kind_of, member_answer_of, name_answer_of};

use pyc_reading::{Answer, MemberAnswer, MroAnswer, NameAnswer, NameKind};
use std::alloc::AllocError;

/// An answer once more, whose types and names are shared. The only error is that memory runs out.
pub(crate) fn copy_of(answer: &Answer) -> Result<Answer, AllocError>
    ensures { IfOk result (λ copy. answer_in copy ≡ answer_in answer.now) }
{
    Ok(match answer {
        Answer::Presence(found) => Answer::Presence(*found),
        Answer::Name(found) => Answer::Name(name_once_more(found)?),
        Answer::Mro(order) => Answer::Mro(order_once_more(order)?),
        Answer::Member(Some(found)) => Answer::Member(Some(member_once_more(found)?)),
        Answer::Member(None) => Answer::Member(None),
        Answer::Export(found) => Answer::Export(*found),
    })
}

/// What a name stands for, once more.
fn name_once_more(found: &NameAnswer) -> Result<NameAnswer, AllocError>
    ensures { IfOk result (λ copy. name_answer_of copy ≡ name_answer_of found.now) }
{
    Ok(NameAnswer {
        kind: kind_once_more(&found.kind)?,
        ty: found.ty.clone()?,
    })
}

/// The kind of thing that a name stands for, once more.
fn kind_once_more(kind: &NameKind) -> Result<NameKind, AllocError>
    ensures { IfOk result (λ copy. kind_of copy ≡ kind_of kind.now) }
{
    Ok(match kind {
        NameKind::AnnotatedVariable => NameKind::AnnotatedVariable,
        NameKind::Variable => NameKind::Variable,
        NameKind::Alias => NameKind::Alias,
        NameKind::Function => NameKind::Function,
        NameKind::Class => NameKind::Class,
        NameKind::Module(name) => NameKind::Module(name.clone()?),
        NameKind::Fixed(name) => NameKind::Fixed(*name),
        NameKind::Unknown => NameKind::Unknown,
        NameKind::Opaque => NameKind::Opaque,
        NameKind::NoModule => NameKind::NoModule,
        NameKind::NoName => NameKind::NoName,
        NameKind::NoTarget => NameKind::NoTarget,
        NameKind::Cycle => NameKind::Cycle,
    })
}

/// The order of a class, once more.
fn order_once_more(order: &MroAnswer) -> Result<MroAnswer, AllocError>
    ensures { IfOk result (λ copy. class_order_of copy ≡ class_order_of order.now) }
{
    Ok(MroAnswer {
        classes: order.classes.clone()?,
        unknown: order.unknown,
        has_call: order.has_call,
    })
}

/// What a class has under a name, once more.
fn member_once_more(found: &MemberAnswer) -> Result<MemberAnswer, AllocError>
    ensures { IfOk result (λ copy. member_answer_of copy ≡ member_answer_of found.now) }
{
    Ok(MemberAnswer {
        class: found.class.clone()?,
        kind: found.kind,
        ty: found.ty.clone()?,
    })
}
