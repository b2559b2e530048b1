//! The texts on defaults, on the ends of functions, and on what a `return` gives. The kind of the obligation has the
//! code.

ghost use Rattle.std.specs.Prelude.{◌≡◌, IfOk, string_bytes};
ghost use Rattle.pyc_messages.specs.Functions as spec;

use std::alloc::{AllocError, Global};

/// The text on a default of another type than its parameter has, with the code `assignment`. The only error is that
/// memory runs out.
#[tactic(auto, unfolding(crate::specs::Functions::default_text))]
pub fn default_text(alloc: Global, name: &str, got: &str, want: &str) -> Result<String, AllocError>
    ensures { IfOk result (λ text. string_bytes text ≡ spec.default_text name.now got.now want.now) }
{
    format!(in alloc;
        "Incompatible default for argument \"{name}\" (default has type \"{got}\", argument has type \"{want}\")"
    )
}

/// The text on the end of a function that has to give a value, with the code `return`. The only error is that memory
/// runs out.
#[tactic(auto, unfolding(crate::specs::Functions::missing_return_text))]
pub fn missing_return_text(alloc: Global) -> Result<String, AllocError>
    ensures { IfOk result (λ text. string_bytes text ≡ spec.missing_return_text) }
{
    String::from_str(alloc, "Missing return statement")
}

/// The text on a value of another type than its function gives, with the code `return-value`. The only error is that
/// memory runs out.
#[tactic(auto, unfolding(crate::specs::Functions::wrong_return_text))]
pub fn wrong_return_text(alloc: Global, got: &str, want: &str) -> Result<String, AllocError>
    ensures { IfOk result (λ text. string_bytes text ≡ spec.wrong_return_text got.now want.now) }
{
    format!(in alloc; "Incompatible return value type (got \"{got}\", expected \"{want}\")")
}

/// The text on a value of a function that gives None, with the code `return-value`. The only error is that memory runs
/// out.
#[tactic(auto, unfolding(crate::specs::Functions::no_return_value_text))]
pub fn no_return_value_text(alloc: Global) -> Result<String, AllocError>
    ensures { IfOk result (λ text. string_bytes text ≡ spec.no_return_value_text) }
{
    String::from_str(alloc, "No return value expected")
}

/// The text on a bare `return` of a function that has to give a value, with the code `return-value`. The only error is
/// that memory runs out.
#[tactic(auto, unfolding(crate::specs::Functions::return_value_text))]
pub fn return_value_text(alloc: Global) -> Result<String, AllocError>
    ensures { IfOk result (λ text. string_bytes text ≡ spec.return_value_text) }
{
    String::from_str(alloc, "Return value expected")
}
