//! The names that a class binds.

ghost use Rattle.std.specs.Prelude.{◌≡◌, IfOk, OnOk, map};
ghost use Rattle.pyc_bindings.specs.BindingView.{binding_of};
ghost use Rattle.pyc_members.specs.AttributeView.{attribute_of};
ghost use Rattle.pyc_members.specs.ClassBodyView.{class_body_of};
ghost use Rattle.pyc_overrides.specs.Names as spec;

use indexmap::IndexSet;
use pyc_ast::Text;
use pyc_bindings::Binding;
use pyc_members::{ClassBody, SelfAttribute};
use std::alloc::{AllocError, Global};

/// Whether a class may declare a name as it likes, whatever its ancestors declare.
pub(crate) fn is_exempt(name: &str) -> bool
    ensures { result ≡ spec.is_exempt name.now }
{
    is_maker(name) || is_private(name)
}

/// Whether a method of this name makes instances or classes.
fn is_maker(name: &str) -> bool
    ensures { result ≡ spec.is_maker name.now }
{
    match name {
        "__init__" => true,
        "__new__" => true,
        "__init_subclass__" => true,
        "__post_init__" => true,
        _ => false,
    }
}

/// Whether a name is private to its class.
fn is_private(name: &str) -> bool
    ensures { result ≡ spec.is_private name.now }
{
    let bytes = name.as_bytes();
    bytes.starts_with(b"__") && !bytes.ends_with(b"__")
}

/// The names that the body of a class binds, and then those that its methods bind through the instance, each once.
#[tactic(auto, unfolding(crate::specs::Names::bound_names))]
pub(crate) fn bound_names(alloc: Global, body: &ClassBody) -> Result<IndexSet<Text>, AllocError>
    ensures { IfOk result (λ names. names.keys ≡ spec.bound_names (class_body_of body.now)) }
{
    let mut names = IndexSet::new(alloc);
    add_bindings(&mut names, &body.bindings)?;
    add_attributes(&mut names, &body.attributes)?;
    Ok(names)
}

/// Adds the names of bindings.
fn add_bindings(names: &mut IndexSet<Text>, bindings: &[Binding]) -> Result<(), AllocError>
    ensures { OnOk result (names.new.keys
        ≡ spec.with_names names.old.keys (map (λ b. b.name) (map binding_of bindings.now))) }
{
    for binding in bindings {
        names.insert(binding.name.clone()?)?;
    }
    Ok(())
}

/// Adds the names of attributes.
fn add_attributes(
    names: &mut IndexSet<Text>,
    attributes: &[SelfAttribute],
) -> Result<(), AllocError>
    ensures { OnOk result (names.new.keys
        ≡ spec.with_names names.old.keys (map (λ a. a.name) (map attribute_of attributes.now))) }
{
    for attribute in attributes {
        names.insert(attribute.name.clone()?)?;
    }
    Ok(())
}
