//! The parts of a scope, and its bindings.
#![tactic(auto)]

mod binding;
mod bindings;
mod decorators;
mod defined_again;
mod first_bindings;
mod place;
mod scope;

pub use binding::{Binding, BindingForm};
pub use bindings::scope_bindings;
pub use decorators::{Decorator, decorator_of, has_other, has_setter};
pub use defined_again::{Redefinition, declaration, is_decorated, redefinitions, redefinitions_at};
pub use first_bindings::{declaration_at, declaration_before, first_places};
pub use place::BindingSite;
pub use scope::{Part, PartForm, scope_parts};
