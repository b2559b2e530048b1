//! The methods of users' classes that operations call.

ghost use Rattle.std.specs.Prelude.{map, option_map};
ghost use Rattle.pyc_operators.specs.Methods as spec;
ghost use Rattle.pyc_operators.specs.Methods.{Caller};
ghost use Rattle.pyc_reading.specs.AnswerView.{member_answer_of};
ghost use Rattle.pyc_reading.specs.Traces.{Performs};
ghost use Rattle.pyc_type_forms.specs.TypeView.{ty_of};

use pyc_class_ids::ClassId;
use pyc_obligations::{AskTypes, ask_member};
use pyc_reading::MemberAnswer;
use pyc_type_forms::Ty;
use std::alloc::{AllocError, Global};

/// Calls the methods of users' classes.
pub trait CallsMethods<N: AskTypes> {
    ghost caller: { Self → Caller };

    /// What a member gives when it is called through an instance with plain arguments of these types; none where the
    /// call fails. Nothing is reported. The only error is that memory runs out.
    fn call_method(
        &self,
        alloc: Global,
        recorder: &mut N,
        member: MemberAnswer,
        arguments: &[Ty],
    ) -> Result<Option<Ty>, AllocError>
        ensures { Performs (option_map ty_of) (caller self.now (member_answer_of member) (map ty_of arguments.now))
            (N.trace recorder.old) result (N.trace recorder.new) };
}

/// The method of this name that an operand has by its class, if that is a user's class. The only error is that memory
/// runs out.
pub(crate) fn method_of<N: AskTypes>(
    alloc: Global,
    recorder: &mut N,
    operand: &Ty,
    name: &str,
) -> Result<Option<MemberAnswer>, AllocError>
    ensures { Performs (option_map member_answer_of) (spec.method_of (ty_of operand.now) name.now)
        (N.trace recorder.old) result (N.trace recorder.new) }
{
    match operand {
        Ty::Instance(class) => class_method(alloc, recorder, class, name),
        _ => Ok(None),
    }
}

/// The method of this name that a user's class has.
fn class_method<N: AskTypes>(
    alloc: Global,
    recorder: &mut N,
    class: &ClassId,
    name: &str,
) -> Result<Option<MemberAnswer>, AllocError>
    ensures { Performs (option_map member_answer_of) (spec.class_method class.now name.now) (N.trace recorder.old)
        result
        (N.trace recorder.new) }
{
    if class.as_builtin().is_some() {
        return Ok(None);
    }
    ask_member(alloc, recorder, class, name)
}
