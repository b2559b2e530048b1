//! What readings of expressions ask.

ghost use Rattle.std.specs.Prelude.{◌≡◌, option_map};
ghost use Rattle.pyc_class_ids.specs.Mro.{is_unknown};
ghost use Rattle.pyc_obligations.specs.Asking as spec;
ghost use Rattle.pyc_reading.specs.AnswerView.{answer_in, member_answer_of};
ghost use Rattle.pyc_reading.specs.Traces.{Performs};
ghost use Rattle.pyc_reading.specs.Owing.{order_in};

use crate::judging::AskTypes;
use pyc_ast::Text;
use pyc_class_ids::ClassId;
use pyc_reading::{Answer, Ask, Key, MemberAnswer, MemberName};
use std::alloc::{AllocError, Global};

/// Whether the order of a class is not known, which is asked. The only error is that memory runs out.
pub fn is_unknown_class<N: AskTypes>(
    alloc: Global,
    recorder: &mut N,
    class: &ClassId,
) -> Result<bool, AllocError>
    ensures { Performs (λ b. b) (spec.is_unknown_class class.now) (N.trace recorder.old) result (N.trace recorder.new) }
{
    if class.as_builtin().is_some() {
        return Ok(false);
    }
    let key = Key::Class(class.clone()?);
    let answer = recorder.ask(alloc, key)?;
    Ok(is_unknown_in(&answer))
}

/// Whether the order that an answer gives is not known.
fn is_unknown_in(answer: &Answer) -> bool
    ensures { result ≡ is_unknown (order_in (answer_in answer.now)) }
{
    match answer {
        Answer::Mro(order) => order.unknown.is_some(),
        _ => true,
    }
}

/// What a class has under a name, which is asked. The only error is that memory runs out.
pub fn ask_member<N: Ask>(
    alloc: Global,
    recorder: &mut N,
    class: &ClassId,
    name: &str,
) -> Result<Option<MemberAnswer>, AllocError>
    ensures { Performs (option_map member_answer_of) (spec.ask_member class.now name.now) (N.trace recorder.old) result
        (N.trace recorder.new) }
{
    let key = Key::Member(MemberName {
        class: class.clone()?,
        name: Text::new(alloc, name)?,
    });
    let answer = recorder.ask(alloc, key)?;
    Ok(member_in(answer))
}

/// The member that an answer gives.
fn member_in(answer: Answer) -> Option<MemberAnswer>
    ensures { option_map member_answer_of result ≡ spec.member_in (answer_in answer) }
{
    match answer {
        Answer::Member(found) => found,
        _ => None,
    }
}
