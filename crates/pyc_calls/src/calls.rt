//! The type of a call.

ghost use Rattle.std.specs.Prelude.{map};
ghost use Rattle.pyc_arguments.specs.Views.{args_in, call_in, shown_in};
ghost use Rattle.pyc_ast.specs.ExprView.{argument_of};
ghost use Rattle.pyc_calls.specs.Called as spec;
ghost use Rattle.pyc_reading.specs.Traces.{Performs};
ghost use Rattle.pyc_type_forms.specs.TypeView.{ty_of};

use crate::caller::Caller;
use pyc_arguments::{Arguments, Call, CalleeName};
use pyc_ast::{Argument, Position};
use pyc_obligations::{AskTypes, InferType};
use pyc_type_forms::Ty;
use std::alloc::{AllocError, Global};
use std::marker::PhantomData;

/// A call that begins at `at` of what messages show as `shown`, and what reads its arguments.
#[derive(Clone, Copy)]
pub struct UnreadCall<'a, N, R> {
    pub alloc: Global,
    pub reader: &'a R,
    pub shown: CalleeName<'a>,
    pub at: Position,
    pub of: PhantomData<N>,
}

impl<N: AskTypes, R: InferType<N>> UnreadCall<'_, N, R> {
    /// The type of a call of something of a type with these arguments: they are read, and where they do not fit, or
    /// where it cannot be called, that is reported. The only error is that memory runs out.
    pub fn call(
        &self,
        recorder: &mut N,
        arguments: &[Argument],
        callee: &Ty,
    ) -> Result<Ty, AllocError>
        requires { R.ready self.now.reader.now }
        ensures { Performs ty_of
            (spec.call (R.reads self.now.reader.now) (shown_in self.now.shown) self.now.at
            (map argument_of arguments.now) (ty_of callee.now)) (N.trace recorder.old) result (N.trace recorder.new) }
    {
        let call = Call {
            at: self.at,
            shown: self.shown,
        };
        let arguments = Arguments::Unread(arguments);
        call_result(self.alloc, recorder, self.reader, &call, &arguments, callee)
    }
}

/// The type of a call of something of a type with these arguments. The only error is that memory runs out.
pub(crate) fn call_result<N: AskTypes, R: InferType<N>>(
    alloc: Global,
    recorder: &mut N,
    reader: &R,
    call: &Call<'_>,
    arguments: &Arguments<'_>,
    callee: &Ty,
) -> Result<Ty, AllocError>
    requires { R.ready reader.now }
    ensures { Performs ty_of
        (spec.call_result (call_in call.now) (args_in (R.reads reader.now) arguments.now) (ty_of callee.now))
        (N.trace recorder.old) result (N.trace recorder.new) }
{
    let caller = Caller {
        alloc,
        reader,
        call,
        arguments,
        of: PhantomData,
    };
    caller.call(recorder, callee)
}
