//! The texts of what is reported of the arguments of calls.

ghost use Rattle.std.specs.Prelude.{◌≡◌, IfOk, option_map, string_bytes};
ghost use Rattle.std.specs.Fmt.{decimal};
ghost use Rattle.pyc_arguments.specs.Reporting as spec;
ghost use Rattle.pyc_arguments.specs.Views.{shown_in};
ghost use Rattle.pyc_matching.specs.Views.{given_in, missing_in};

use crate::reporting::CalleeName;
use pyc_ast::Text;
use pyc_matching::{Given, MissingArgument};
use pyc_messages::{
    missing_name_text, missing_place_text, named_argument_text, placed_argument_text,
};
use std::alloc::{AllocError, Global};

/// What is called, in a message.
#[tactic(auto, unfolding(crate::specs::Reporting::callee_text))]
pub(crate) fn callee_text(alloc: Global, shown: CalleeName<'_>) -> Result<String, AllocError>
    ensures { IfOk result (λ text. string_bytes text ≡ spec.callee_text (shown_in shown.entry)) }
{
    match shown {
        CalleeName::Name(name) => format!(in alloc; "\"{name}\""),
        CalleeName::Member(name, owner) => format!(in alloc; "\"{name}\" of \"{owner}\""),
        CalleeName::Nameless => String::from_str(alloc, "\"function\""),
    }
}

/// The text on an argument of another type than is wanted.
pub(crate) fn argument_text(
    alloc: Global,
    given: Given<'_>,
    number: usize,
    shown: &str,
    got: &str,
    want: &str,
) -> Result<String, AllocError>
    ensures { IfOk result (λ text. string_bytes text
        ≡ spec.argument_text (given_in given.entry) number shown.now got.now want.now) }
{
    match given {
        Given::ByPlace => placed_argument_text(alloc, number, shown, got, want),
        Given::ByName(name) => named_argument_text(alloc, name.as_str(), shown, got, want),
    }
}

/// The text on a parameter that no argument fills, where it is so named.
pub(crate) fn missing_argument_text(
    alloc: Global,
    missing: MissingArgument<'_>,
    name: &str,
    shown: &str,
) -> Result<String, AllocError>
    ensures { IfOk result (λ text. string_bytes text
        ≡ spec.missing_argument_text (missing_in missing.entry) name.now shown.now) }
{
    match missing {
        MissingArgument::Place(_, _) => missing_place_text(alloc, name, shown),
        MissingArgument::Name(_) => missing_name_text(alloc, name, shown),
    }
}

/// How a missing parameter is named in a message: by its name, else by its number.
pub(crate) fn missing_text(
    alloc: Global,
    missing: MissingArgument<'_>,
) -> Result<String, AllocError>
    ensures { IfOk result (λ text. string_bytes text ≡ spec.missing_text (missing_in missing.entry)) }
{
    match missing {
        MissingArgument::Place(name, number) => place_text(alloc, name, number),
        MissingArgument::Name(name) => Ok(String::from_str(alloc, name.as_str())?),
    }
}

/// How a missing plain parameter is named in a message.
fn place_text(alloc: Global, name: Option<&Text>, number: usize) -> Result<String, AllocError>
    ensures { IfOk result (λ text. string_bytes text
        ≡ spec.place_text (option_map (λ n. n.now) name.entry) number) }
{
    match name {
        Some(name) => Ok(String::from_str(alloc, name.as_str())?),
        None => number_text(alloc, number),
    }
}

/// A number in decimal digits.
fn number_text(alloc: Global, number: usize) -> Result<String, AllocError>
    ensures { IfOk result (λ text. string_bytes text ≡ decimal number) }
{
    format!(in alloc; "{number}")
}
