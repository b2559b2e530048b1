//! The arguments of calls.

ghost use Rattle.std.specs.Prelude.{◌≡◌, ◌∷◌, ◌++◌, [], IfOk, OnOk, map};
ghost use Rattle.std.specs.declared.vec.Vec.{Vec};
ghost use Rattle.std.specs.List.{list_any};
ghost use Rattle.pyc_ast.specs.ExprView.{argument_of};
ghost use Rattle.pyc_arguments.specs.Arguments as spec;
ghost use Rattle.pyc_arguments.specs.Views.{args_in, has_unpacked_in, read_in, unread_in};
ghost use Rattle.pyc_matching.specs.Views.{given_in};
ghost use Rattle.pyc_reading.specs.Traces.{Performs};
ghost use Rattle.pyc_type_forms.specs.TypeView.{ty_of};

use pyc_ast::{Argument, ArgumentKind, Position};
use pyc_matching::Given;
use pyc_obligations::{AskTypes, InferType};
use pyc_type_forms::Ty;
use std::alloc::{AllocError, Global};

/// An argument that was read: where it begins, how it is given, and its type.
#[derive(Drop)]
pub struct ReadArgument {
    pub at: Position,
    pub kind: ArgumentKind,
    pub ty: Ty,
}

/// The arguments of a call.
#[derive(Clone, Copy)]
pub enum Arguments<'a> {
    /// They are to be read.
    Unread(&'a [Argument]),
    /// They were read.
    Read(&'a [ReadArgument]),
}

/// How an argument of a kind is given, if it does not stand after `*` or `**`.
pub(crate) fn given_by<'a>(kind: &'a ArgumentKind) -> Given<'a>
    ensures { given_in result ≡ spec.given_by kind.now }
{
    match kind {
        ArgumentKind::Keyword(name) => Given::ByName(name),
        _ => Given::ByPlace,
    }
}

/// How many places an argument takes that is given in this way.
pub(crate) fn places_of(given: Given<'_>) -> usize
    ensures { result ≡ spec.places_of (given_in given.entry) }
{
    match given {
        Given::ByPlace => 1,
        Given::ByName(_) => 0,
    }
}

/// Whether an argument of a kind stands after `*` or `**`.
fn is_unpacked(kind: &ArgumentKind) -> bool
    ensures { result ≡ spec.is_unpacked kind.now }
{
    match kind {
        ArgumentKind::Starred | ArgumentKind::DoubleStarred => true,
        _ => false,
    }
}

/// Whether some arguments stand after `*` or `**`. It takes no memory.
pub(crate) fn has_unpacked(arguments: &Arguments<'_>) -> bool
    ensures { result ≡ has_unpacked_in arguments.now }
{
    match arguments {
        Arguments::Unread(arguments) => some_unpacked(arguments),
        Arguments::Read(arguments) => some_read_unpacked(arguments),
    }
}

/// Whether some arguments that are to be read stand after `*` or `**`.
fn some_unpacked(arguments: &[Argument]) -> bool
    ensures { result ≡ list_any (λ x. spec.is_unpacked x.kind) arguments.now }
{
    for argument in arguments {
        if is_unpacked(&argument.kind) {
            return true;
        }
    }
    false
}

/// Whether some arguments that were read stand after `*` or `**`.
fn some_read_unpacked(arguments: &[ReadArgument]) -> bool
    ensures { result ≡ list_any (λ x. spec.is_unpacked x.kind) arguments.now }
{
    for argument in arguments {
        if is_unpacked(&argument.kind) {
            return true;
        }
    }
    false
}

/// Reads arguments of which nothing is expected, in turn, if they are to be read. The only error is that
/// memory runs out.
pub fn read_all<N: AskTypes, R: InferType<N>>(
    alloc: Global,
    recorder: &mut N,
    reader: &R,
    arguments: &Arguments<'_>,
) -> Result<(), AllocError>
    requires { R.ready reader.now }
    ensures { Performs (λ u. u) (spec.all_read (args_in (R.reads reader.now) arguments.now)) (N.trace recorder.old)
        result
        (N.trace recorder.new) }
{
    match arguments {
        Arguments::Unread(arguments) => read_each(alloc, recorder, reader, arguments),
        Arguments::Read(_) => Ok(()),
    }
}

/// Reads arguments of which nothing is expected, in turn.
#[tactic(auto, using(pyc_obligations::proofs::Steps::performing), unfolding(crate::specs::Arguments::all_read))]
fn read_each<N: AskTypes, R: InferType<N>>(
    alloc: Global,
    recorder: &mut N,
    reader: &R,
    arguments: &[Argument],
) -> Result<(), AllocError>
    requires { R.ready reader.now }
    ensures { Performs (λ u. u) (spec.all_read (unread_in (R.reads reader.now) arguments.now)) (N.trace recorder.old)
        result (N.trace recorder.new) }
{
    for argument in arguments {
        reader.read(alloc, recorder, &argument.value, None)?;
    }
    Ok(())
}

/// Reads arguments of which nothing is expected, in turn: each is of the type that it then has. The only
/// error is that memory runs out.
#[tactic(auto, using(pyc_obligations::proofs::Steps::performing), unfolding(crate::specs::Arguments::more_read))]
pub fn read_once<N: AskTypes, R: InferType<N>>(
    alloc: Global,
    recorder: &mut N,
    reader: &R,
    arguments: &[Argument],
) -> Result<Vec<ReadArgument>, AllocError>
    requires { R.ready reader.now }
    ensures { Performs (λ (read : Vec ReadArgument Global). map read_in read.items)
        (spec.read_once (unread_in (R.reads reader.now) arguments.now)) (N.trace recorder.old) result
        (N.trace recorder.new) }
{
    let mut read = Vec::with_capacity(alloc, arguments.len())?;
    for argument in arguments {
        let ty = reader.read(alloc, recorder, &argument.value, None)?;
        push_read(&mut read, argument.at, &argument.kind, ty)?;
    }
    Ok(read)
}

/// Adds an argument that was read. The only error is that memory runs out.
pub fn push_read(
    read: &mut Vec<ReadArgument>,
    at: Position,
    kind: &ArgumentKind,
    ty: Ty,
) -> Result<(), AllocError>
    ensures { OnOk result (map read_in read.new.items
        ≡ map read_in read.old.items ++ (spec.read_before at kind.now (ty_of ty) ∷ [])) }
{
    read.push(ReadArgument {
        at,
        kind: copy_kind(kind)?,
        ty,
    })?;
    Ok(())
}

/// A copy of `kind`.
fn copy_kind(kind: &ArgumentKind) -> Result<ArgumentKind, AllocError>
    ensures { IfOk result (λ copy. copy ≡ kind.now) }
{
    match kind {
        ArgumentKind::Positional => Ok(ArgumentKind::Positional),
        ArgumentKind::Starred => Ok(ArgumentKind::Starred),
        ArgumentKind::Keyword(name) => Ok(ArgumentKind::Keyword(name.clone()?)),
        ArgumentKind::DoubleStarred => Ok(ArgumentKind::DoubleStarred),
    }
}
