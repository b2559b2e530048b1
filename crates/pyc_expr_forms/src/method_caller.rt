//! Calls the methods of users' classes for operators.

ghost use Rattle.pyc_calls.specs.Methods as spec;

use pyc_calls::infer_method_call;
use pyc_obligations::AskTypes;
use pyc_operators::CallsMethods;
use pyc_reading::MemberAnswer;
use pyc_type_forms::Ty;
use std::alloc::{AllocError, Global};

/// Calls the methods of users' classes for operators.
#[derive(Clone, Copy, Drop)]
pub struct MethodCaller;

impl<N: AskTypes> CallsMethods<N> for MethodCaller {
    ghost caller = { λ caller. spec.infer_method_call };

    fn call_method(
        &self,
        alloc: Global,
        recorder: &mut N,
        member: MemberAnswer,
        arguments: &[Ty],
    ) -> Result<Option<Ty>, AllocError> {
        infer_method_call(alloc, recorder, member, arguments)
    }
}
