//! The texts on assignments.

ghost use Rattle.std.specs.Prelude.{◌≡◌, IfOk, string_bytes};
ghost use Rattle.pyc_messages.specs.Assignments as spec;

use std::alloc::{AllocError, Global};

/// The text on a value of another type than its variable takes, with the code `assignment`. The only error is that
/// memory runs out.
#[tactic(auto, unfolding(crate::specs::Assignments::variable_assignment_text))]
pub fn variable_assignment_text(alloc: Global, got: &str, want: &str) -> Result<String, AllocError>
    ensures { IfOk result (λ text. string_bytes text ≡ spec.variable_assignment_text got.now want.now) }
{
    format!(in alloc;
        "Incompatible types in assignment (expression has type \"{got}\", variable has type \"{want}\")"
    )
}

/// The text on a value of another type than an item of a subscript takes, with the code `assignment`. The only error is
/// that memory runs out.
#[tactic(auto, unfolding(crate::specs::Assignments::item_assignment_text))]
pub fn item_assignment_text(alloc: Global, got: &str, want: &str) -> Result<String, AllocError>
    ensures { IfOk result (λ text. string_bytes text ≡ spec.item_assignment_text got.now want.now) }
{
    format!(in alloc;
        "Incompatible types in assignment (expression has type \"{got}\", target has type \"{want}\")"
    )
}

/// The text on a value whose items cannot be assigned to, with the code `index`. The only error is that memory runs
/// out.
#[tactic(auto, unfolding(crate::specs::Assignments::unsupported_target_text))]
pub fn unsupported_target_text(alloc: Global, shown: &str) -> Result<String, AllocError>
    ensures { IfOk result (λ text. string_bytes text ≡ spec.unsupported_target_text shown.now) }
{
    format!(in alloc; "Unsupported target for indexed assignment (\"{shown}\")")
}

/// The text on a property of a class that cannot be set, with the code `misc`. The only error is that memory runs out.
#[tactic(auto, unfolding(crate::specs::Assignments::read_only_text))]
pub fn read_only_text(alloc: Global, name: &str, shown: &str) -> Result<String, AllocError>
    ensures { IfOk result (λ text. string_bytes text ≡ spec.read_only_text name.now shown.now) }
{
    format!(in alloc; "Property \"{name}\" defined in \"{shown}\" is read-only")
}

/// How many values, in words.
fn values_word(count: usize) -> &'static str
    ensures { result.now ≡ spec.values_word count }
{
    if count == 1 { "value" } else { "values" }
}

/// The text on a tuple with fewer places than there are targets, with the code `misc`. The only error is that memory
/// runs out.
#[tactic(auto, unfolding(crate::specs::Assignments::too_few_values_text))]
pub fn too_few_values_text(
    alloc: Global,
    provided: usize,
    expected: usize,
) -> Result<String, AllocError>
    ensures { IfOk result (λ text. string_bytes text ≡ spec.too_few_values_text provided expected) }
{
    let word = values_word(provided);
    format!(in alloc; "Need more than {provided} {word} to unpack ({expected} expected)")
}

/// The text on a tuple with more places than there are targets, with the code `misc`. The only error is that memory
/// runs out.
#[tactic(auto, unfolding(crate::specs::Assignments::too_many_values_text))]
pub fn too_many_values_text(
    alloc: Global,
    provided: usize,
    expected: usize,
) -> Result<String, AllocError>
    ensures { IfOk result (λ text. string_bytes text ≡ spec.too_many_values_text provided expected) }
{
    format!(in alloc; "Too many values to unpack ({expected} expected, {provided} provided)")
}
