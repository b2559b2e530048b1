//! What the bases of a class are.

ghost use Rattle.std.specs.Prelude.{◌≡◌, ◌++◌, ◌∷◌, [], IfOk, OnOk, map, option_map, Some};
ghost use Rattle.pyc_annotations.specs.Bases as spec;
ghost use Rattle.pyc_annotations.specs.Views.{base_of, meaning_of};
ghost use Rattle.pyc_ast.specs.ExprView.{expr_of, argument_of};
ghost use Rattle.pyc_names.specs.InterfaceView.{interface_in};
ghost use Rattle.pyc_reading.specs.Traces.{Performs};

use crate::lookup::dotted_meaning;
use crate::meaning::{Meaning, Role};
use crate::messages::{invalid_base, names_text};
use pyc_ast::{Argument, ArgumentKind, Expr, Position, Text};
use pyc_class_ids::ClassId;
use pyc_names::Interface;
use pyc_reading::Ask;
use pyc_type_exprs::{dotted_names, innermost};
use std::alloc::{AllocError, Global};

/// What a base of a class is.
#[derive(Drop)]
pub enum Base {
    Class(ClassId),
    /// Nothing is known of it.
    Any,
    /// A thing that no base is.
    Invalid,
}

/// What is reported of a base that is no name.
const UNNAMED: &str = "expression";

/// What a name is as a base: a variable or a function of type Any is Any.
#[tactic(auto, unfolding(crate::specs::Bases::base_of_meaning))]
fn base_of_meaning<N: Ask>(
    alloc: Global,
    recorder: &mut N,
    at: Position,
    shown: &str,
    meaning: Meaning,
) -> Result<Base, AllocError>
    ensures { Performs base_of (spec.base_of_meaning at shown.now (meaning_of meaning)) (N.trace recorder.old) result
        (N.trace recorder.new) }
{
    match meaning {
        Meaning::Class(class) => Ok(Base::Class(class)),
        Meaning::Any | Meaning::Type | Meaning::Fixed(_) => Ok(Base::Any),
        Meaning::Variable(true) | Meaning::Function(true) => Ok(Base::Any),
        _ => invalid_base(alloc, recorder, at, shown),
    }
}

/// Names joined by dots as a base.
#[tactic(auto, using(crate::proofs::Steps::performing))]
fn base_of_names<N: Ask>(
    alloc: Global,
    recorder: &mut N,
    file: &Interface,
    at: Position,
    inside: Position,
    names: &[Text],
) -> Result<Base, AllocError>
    ensures { Performs base_of (spec.written_base (interface_in file.now) at inside (Some names.now))
        (N.trace recorder.old)
        result (N.trace recorder.new) }
{
    let meaning = dotted_meaning(alloc, recorder, Role::Base, file, inside, names)?;
    let shown = names_text(alloc, names)?;
    base_of_meaning(alloc, recorder, at, shown.as_str(), meaning)
}

/// A base that stands in a file: a subscript on it is ignored.
#[tactic(auto, unfolding(crate::specs::Bases::base))]
fn read_base<N: Ask>(
    alloc: Global,
    recorder: &mut N,
    file: &Interface,
    e: &Expr,
) -> Result<Base, AllocError>
    ensures { Performs base_of (spec.base (interface_in file.now) (expr_of e.now)) (N.trace recorder.old) result
        (N.trace recorder.new) }
{
    let inner = innermost(e);
    let names = dotted_names(alloc, inner)?;
    written_base(alloc, recorder, file, e.at, inner.inside, names)
}

/// Names joined by dots, or another expression, as a base.
fn written_base<N: Ask>(
    alloc: Global,
    recorder: &mut N,
    file: &Interface,
    at: Position,
    inside: Position,
    names: Option<Vec<Text>>,
) -> Result<Base, AllocError>
    ensures { Performs base_of (spec.written_base (interface_in file.now) at inside (option_map (λ v. v.items) names))
        (N.trace recorder.old) result (N.trace recorder.new) }
{
    match names {
        Some(names) => base_of_names(alloc, recorder, file, at, inside, &names),
        None => invalid_base(alloc, recorder, at, UNNAMED),
    }
}

/// What an argument of a class is as a base: one by place is a base, one after `*` is none, and one by name is not
/// asked for.
#[tactic(auto, using(crate::proofs::Steps::performing), unfolding(crate::specs::Bases::base_of_argument))]
fn argument_base<N: Ask>(
    alloc: Global,
    recorder: &mut N,
    file: &Interface,
    argument: &Argument,
) -> Result<Option<Base>, AllocError>
    ensures { Performs (option_map base_of)
        (spec.base_of_argument (interface_in file.now) (argument_of argument.now)) (N.trace recorder.old) result
        (N.trace recorder.new) }
{
    match &argument.kind {
        ArgumentKind::Positional => {
            let found = read_base(alloc, recorder, file, &argument.value)?;
            Ok(Some(found))
        }
        ArgumentKind::Starred => {
            let found = invalid_base(alloc, recorder, argument.at, UNNAMED)?;
            Ok(Some(found))
        }
        _ => Ok(None),
    }
}

/// Adds a base, where there is one.
fn push_base(base: Option<Base>, found: &mut Vec<Base>) -> Result<(), AllocError>
    ensures { OnOk result (map base_of found.new.items
        ≡ spec.with_base (map base_of found.old.items) (option_map base_of base)) }
{
    if let Some(base) = base {
        found.push(base)?;
    }
    Ok(())
}

/// The bases of a class that stands in a file and has these arguments, in turn: what is no base is reported. The only
/// error is that memory runs out.
#[tactic(auto, using(crate::proofs::Steps::performing), unfolding(crate::specs::Bases::more_bases))]
pub fn read_bases<N: Ask>(
    alloc: Global,
    recorder: &mut N,
    file: &Interface,
    arguments: &[Argument],
) -> Result<Vec<Base>, AllocError>
    ensures { Performs (λ found. map base_of found.items)
        (spec.bases (interface_in file.now) (map argument_of arguments.now)) (N.trace recorder.old) result
        (N.trace recorder.new) }
{
    let mut found = Vec::with_capacity(alloc, arguments.len())?;
    for argument in arguments {
        let base = argument_base(alloc, recorder, file, argument)?;
        push_base(base, &mut found)?;
    }
    Ok(found)
}
