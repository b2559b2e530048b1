//! The texts on annotations and on the bases of classes.

ghost use Rattle.std.specs.Prelude.{◌≡◌, IfOk, string_bytes};
ghost use Rattle.pyc_messages.specs.Annotations as spec;

use std::alloc::{AllocError, Global};

/// The text on a variable, a function or a module, which is no type, with the code `valid-type`. The only error is that
/// memory runs out.
#[tactic(auto, unfolding(crate::specs::Annotations::not_a_type_text))]
pub fn not_a_type_text(alloc: Global, names: &str) -> Result<String, AllocError>
    ensures { IfOk result (λ text. string_bytes text ≡ spec.not_a_type_text names.now) }
{
    format!(in alloc; "\"{names}\" is not valid as a type")
}

/// The text on a form with another number of arguments than it takes, with the code `valid-type`. The only error is
/// that memory runs out.
#[tactic(auto, unfolding(crate::specs::Annotations::wrong_count_text))]
pub fn wrong_count_text(alloc: Global, form: &str) -> Result<String, AllocError>
    ensures { IfOk result (λ text. string_bytes text ≡ spec.wrong_count_text form.now) }
{
    format!(in alloc; "Wrong number of type arguments for \"{form}\"")
}

/// The text on any other wrong annotation, with the code `valid-type`. The only error is that memory runs out.
#[tactic(auto, unfolding(crate::specs::Annotations::invalid_annotation_text))]
pub fn invalid_annotation_text(alloc: Global) -> Result<String, AllocError>
    ensures { IfOk result (λ text. string_bytes text ≡ spec.invalid_annotation_text) }
{
    String::from_str(alloc, "Invalid type comment or annotation")
}

/// The text on a base that is no class, with the code `misc`. The only error is that memory runs out.
#[tactic(auto, unfolding(crate::specs::Annotations::invalid_base_text))]
pub fn invalid_base_text(alloc: Global, shown: &str) -> Result<String, AllocError>
    ensures { IfOk result (λ text. string_bytes text ≡ spec.invalid_base_text shown.now) }
{
    format!(in alloc; "Invalid base class \"{shown}\"")
}

/// The text on a class that is its own ancestor, with the code `misc`. The only error is that memory runs out.
#[tactic(auto, unfolding(crate::specs::Annotations::base_cycle_text))]
pub fn base_cycle_text(alloc: Global, name: &str) -> Result<String, AllocError>
    ensures { IfOk result (λ text. string_bytes text ≡ spec.base_cycle_text name.now) }
{
    format!(in alloc; "Cycle in the bases of \"{name}\"")
}

/// The text on a class whose bases have orders, and which has none, with the code `misc`. The only error is that memory
/// runs out.
#[tactic(auto, unfolding(crate::specs::Annotations::no_order_text))]
pub fn no_order_text(alloc: Global, name: &str) -> Result<String, AllocError>
    ensures { IfOk result (λ text. string_bytes text ≡ spec.no_order_text name.now) }
{
    format!(in alloc; "Cannot determine consistent method resolution order (MRO) for \"{name}\"")
}
