//! The texts on names that a class declares and an ancestor declares as well. The kind of the obligation has the code.

ghost use Rattle.std.specs.Prelude.{◌≡◌, IfOk, string_bytes};
ghost use Rattle.pyc_messages.specs.Overrides as spec;

use std::alloc::{AllocError, Global};

/// The text on what is no method, and of another type than the ancestor's, with the code `assignment`. The only error
/// is that memory runs out.
#[tactic(auto, unfolding(crate::specs::Overrides::variable_override_text))]
pub fn variable_override_text(
    alloc: Global,
    base: &str,
    got: &str,
    want: &str,
) -> Result<String, AllocError>
    ensures { IfOk result (λ text. string_bytes text ≡ spec.variable_override_text base.now got.now want.now) }
{
    format!(in alloc;
        "Incompatible types in assignment (expression has type \"{got}\", \
         base class \"{base}\" defined the type as \"{want}\")"
    )
}

/// The text on a method that gives another type than the ancestor's, with the code `override`. The only error is that
/// memory runs out.
#[tactic(auto, unfolding(crate::specs::Overrides::result_override_text))]
pub fn result_override_text(
    alloc: Global,
    name: &str,
    base: &str,
    got: &str,
    want: &str,
) -> Result<String, AllocError>
    ensures { IfOk result (λ text. string_bytes text ≡ spec.result_override_text name.now base.now got.now want.now) }
{
    format!(in alloc;
        "Return type \"{got}\" of \"{name}\" incompatible with return type \"{want}\" in supertype \"{base}\""
    )
}

/// The text on a parameter of which the ancestor wants another type, by its number, with the code `override`. The only
/// error is that memory runs out.
#[tactic(auto, unfolding(crate::specs::Overrides::argument_override_text))]
pub fn argument_override_text(
    alloc: Global,
    number: usize,
    name: &str,
    base: &str,
    want: &str,
) -> Result<String, AllocError>
    ensures { IfOk result (λ text. string_bytes text ≡ spec.argument_override_text number name.now base.now want.now) }
{
    format!(in alloc;
        "Argument {number} of \"{name}\" is incompatible with supertype \"{base}\"; \
         supertype defines the argument type as \"{want}\""
    )
}

/// The text on a method whose signature is another in any other way, or that stands against something else, with the
/// code `override`. The only error is that memory runs out.
#[tactic(auto, unfolding(crate::specs::Overrides::signature_override_text))]
pub fn signature_override_text(alloc: Global, name: &str, base: &str) -> Result<String, AllocError>
    ensures { IfOk result (λ text. string_bytes text ≡ spec.signature_override_text name.now base.now) }
{
    format!(in alloc; "Signature of \"{name}\" incompatible with supertype \"{base}\"")
}
