//! What a class statement binds: in its body, and through the first parameter of its methods.
#![tactic(auto)]

mod attribute;
mod attribute_places;
mod attributes;
mod class_body;
mod declared_class;
mod method;

pub use attribute::{AttributeForm, SelfAttribute};
pub use attributes::self_attributes;
pub use class_body::{ClassBody, OwnMember};
pub use declared_class::{DeclaredClass, declared_classes};
pub use method::{Method, MethodKind, method_kind, methods, self_name};
