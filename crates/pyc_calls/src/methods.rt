//! The methods of users' classes that operations call.

ghost use Rattle.std.specs.Prelude.{◌≡◌, ◌∷◌, ◌++◌, [], IfOk, OnOk, map, option_map};
ghost use Rattle.pyc_arguments.specs.Views.{read_in};
ghost use Rattle.pyc_calls.specs.Called as spec_called;
ghost use Rattle.pyc_calls.specs.Methods as spec;
ghost use Rattle.pyc_reading.specs.AnswerView.{member_answer_of};
ghost use Rattle.pyc_reading.specs.Traces.{Performs};
ghost use Rattle.pyc_reading.specs.Readings.{Done};
ghost use Rattle.pyc_type_forms.specs.Types.{any};
ghost use Rattle.pyc_type_forms.specs.TypeView.{ty_of};

use crate::calls::call_result;
use pyc_arguments::{Arguments, Call, CalleeName, ReadArgument, push_read};
use pyc_ast::{ArgumentKind, Expr, Position};
use pyc_attributes::through_instance;
use pyc_obligations::{AskTypes, InferType, quieten};
use pyc_reading::MemberAnswer;
use pyc_type_forms::Ty;
use std::alloc::{AllocError, Global};

/// A position of a call of which nothing is reported.
const NOWHERE: Position = Position { line: 1, column: 1 };

/// Reads nothing, since all arguments were read.
struct NoReader;

impl<N: AskTypes> InferType<N> for NoReader {
    ghost ready = { λ reader. Unit };

    ghost reads = { λ reader part want. Done any };

    fn read(
        &self,
        _alloc: Global,
        _recorder: &mut N,
        _part: &Expr,
        _want: Option<&Ty>,
    ) -> Result<Ty, AllocError> {
        Ok(Ty::Any)
    }
}

/// What a member gives that is called through an instance with arguments by place of these types; none where something
/// would be reported of the call.
#[tactic(auto, using(pyc_obligations::proofs::Steps::performing))]
pub fn infer_method_call<N: AskTypes>(
    alloc: Global,
    recorder: &mut N,
    member: MemberAnswer,
    types: &[Ty],
) -> Result<Option<Ty>, AllocError>
    ensures { Performs (option_map ty_of) (spec.infer_method_call (member_answer_of member) (map ty_of types.now))
        (N.trace recorder.old) result (N.trace recorder.new) }
{
    let callee = through_instance(alloc, member)?;
    let arguments = arguments_by_place(alloc, types)?;
    infer_call_quietly(alloc, recorder, &arguments, &callee)
}

/// What is given by a call of which nothing is reported, where nothing would be reported.
fn infer_call_quietly<N: AskTypes>(
    alloc: Global,
    recorder: &mut N,
    arguments: &[ReadArgument],
    callee: &Ty,
) -> Result<Option<Ty>, AllocError>
    ensures { Performs (option_map ty_of)
        (spec.infer_call_quietly (map read_in arguments.now) (ty_of callee.now)) (N.trace recorder.old) result
        (N.trace recorder.new) }
{
    let count = recorder.reported_count();
    let ty = infer_placed_call(alloc, recorder, arguments, callee)?;
    let is_reported = quieten(recorder, count);
    Ok(unless_reported(is_reported, ty))
}

/// What is called with arguments by place gives.
fn infer_placed_call<N: AskTypes>(
    alloc: Global,
    recorder: &mut N,
    arguments: &[ReadArgument],
    callee: &Ty,
) -> Result<Ty, AllocError>
    ensures { Performs ty_of (spec_called.call_result spec.method_call (map read_in arguments.now) (ty_of callee.now))
        (N.trace recorder.old) result (N.trace recorder.new) }
{
    let call = Call {
        at: NOWHERE,
        shown: CalleeName::Nameless,
    };
    let arguments = Arguments::Read(arguments);
    call_result(alloc, recorder, &NoReader, &call, &arguments, callee)
}

/// Arguments by place of these types.
fn arguments_by_place(alloc: Global, types: &[Ty]) -> Result<Vec<ReadArgument>, AllocError>
    ensures { IfOk result (λ arguments. map read_in arguments.items ≡ spec.arguments_by_place (map ty_of types.now)) }
{
    let mut arguments = Vec::with_capacity(alloc, types.len())?;
    for ty in types {
        push_placed(&mut arguments, ty)?;
    }
    Ok(arguments)
}

/// Adds an argument by place of this type.
fn push_placed(arguments: &mut Vec<ReadArgument>, ty: &Ty) -> Result<(), AllocError>
    ensures { OnOk result (map read_in arguments.new.items
        ≡ map read_in arguments.old.items ++ (spec.placed_argument (ty_of ty.now) ∷ [])) }
{
    push_read(arguments, NOWHERE, &ArgumentKind::Positional, ty.clone()?)
}

/// What a call came to, by whether something was reported of it.
fn unless_reported(is_reported: bool, ty: Ty) -> Option<Ty>
    ensures { option_map ty_of result ≡ spec.unless_reported is_reported (ty_of ty) }
{
    if is_reported { None } else { Some(ty) }
}
