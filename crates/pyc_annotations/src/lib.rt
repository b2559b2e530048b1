//! The types that annotations mean, and what the bases of a class are.
#![tactic(auto)]

mod class_bases;
mod form_types;
mod lookup;
mod meaning;
mod messages;
mod reading;
mod subscripted;
mod type_form;

pub use class_bases::{Base, read_bases};
pub use meaning::{Meaning, Role};
pub use reading::{Annotation, read_annotation};
pub use type_form::TypeForm;
