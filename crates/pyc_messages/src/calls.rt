//! The texts on calls. What is called is shown as `"f"`, `"m" of "C"` or `"function"`.

ghost use Rattle.std.specs.Prelude.{◌≡◌, IfOk, string_bytes};
ghost use Rattle.pyc_messages.specs.Calls as spec;

use std::alloc::{AllocError, Global};

/// The text on a value of a type that cannot be called, with the code `operator`. The only error is that memory runs
/// out.
#[tactic(auto, unfolding(crate::specs::Calls::not_callable_text))]
pub fn not_callable_text(alloc: Global, got: &str) -> Result<String, AllocError>
    ensures { IfOk result (λ text. string_bytes text ≡ spec.not_callable_text got.now) }
{
    format!(in alloc; "\"{got}\" not callable")
}

/// The text on arguments for whose places no parameter is left, with the code `call-arg`. The only error is that memory
/// runs out.
#[tactic(auto, unfolding(crate::specs::Calls::too_many_arguments_text))]
pub fn too_many_arguments_text(alloc: Global, shown: &str) -> Result<String, AllocError>
    ensures { IfOk result (λ text. string_bytes text ≡ spec.too_many_arguments_text shown.now) }
{
    format!(in alloc; "Too many arguments for {shown}")
}

/// The text on an argument by the name of a parameter that is filled already, with the code `call-arg`. The only error
/// is that memory runs out.
#[tactic(auto, unfolding(crate::specs::Calls::repeated_argument_text))]
pub fn repeated_argument_text(alloc: Global, name: &str, shown: &str) -> Result<String, AllocError>
    ensures { IfOk result (λ text. string_bytes text ≡ spec.repeated_argument_text name.now shown.now) }
{
    format!(in alloc; "{shown} gets multiple values for keyword argument \"{name}\"")
}

/// The text on an argument by the name of no parameter, with the code `call-arg`. The only error is that memory runs
/// out.
#[tactic(auto, unfolding(crate::specs::Calls::unexpected_argument_text))]
pub fn unexpected_argument_text(
    alloc: Global,
    name: &str,
    shown: &str,
) -> Result<String, AllocError>
    ensures { IfOk result (λ text. string_bytes text ≡ spec.unexpected_argument_text name.now shown.now) }
{
    format!(in alloc; "Unexpected keyword argument \"{name}\" for {shown}")
}

/// The text on a plain parameter that no argument fills, with the code `call-arg`. The only error is that memory runs
/// out.
#[tactic(auto, unfolding(crate::specs::Calls::missing_place_text))]
pub fn missing_place_text(alloc: Global, name: &str, shown: &str) -> Result<String, AllocError>
    ensures { IfOk result (λ text. string_bytes text ≡ spec.missing_place_text name.now shown.now) }
{
    format!(in alloc; "Missing positional argument \"{name}\" in call to {shown}")
}

/// The text on a keyword-only parameter that no argument fills, with the code `call-arg`. The only error is that memory
/// runs out.
#[tactic(auto, unfolding(crate::specs::Calls::missing_name_text))]
pub fn missing_name_text(alloc: Global, name: &str, shown: &str) -> Result<String, AllocError>
    ensures { IfOk result (λ text. string_bytes text ≡ spec.missing_name_text name.now shown.now) }
{
    format!(in alloc; "Missing named argument \"{name}\" for {shown}")
}

/// The text on an argument by place, by its number, with the code `arg-type`. The only error is that memory runs out.
#[tactic(auto, unfolding(crate::specs::Calls::placed_argument_text))]
pub fn placed_argument_text(
    alloc: Global,
    number: usize,
    shown: &str,
    got: &str,
    want: &str,
) -> Result<String, AllocError>
    ensures { IfOk result (λ text. string_bytes text ≡ spec.placed_argument_text number shown.now got.now want.now) }
{
    format!(in alloc;
        "Argument {number} to {shown} has incompatible type \"{got}\"; expected \"{want}\""
    )
}

/// The text on an argument by name, with the code `arg-type`. The only error is that memory runs out.
#[tactic(auto, unfolding(crate::specs::Calls::named_argument_text))]
pub fn named_argument_text(
    alloc: Global,
    name: &str,
    shown: &str,
    got: &str,
    want: &str,
) -> Result<String, AllocError>
    ensures { IfOk result (λ text. string_bytes text ≡ spec.named_argument_text name.now shown.now got.now want.now) }
{
    format!(in alloc;
        "Argument \"{name}\" to {shown} has incompatible type \"{got}\"; expected \"{want}\""
    )
}

/// The text on a type that is revealed, which is a note. The only error is that memory runs out.
#[tactic(auto, unfolding(crate::specs::Calls::revealed_type_text))]
pub fn revealed_type_text(alloc: Global, shown: &str) -> Result<String, AllocError>
    ensures { IfOk result (λ text. string_bytes text ≡ spec.revealed_type_text shown.now) }
{
    format!(in alloc; "Revealed type is \"{shown}\"")
}
