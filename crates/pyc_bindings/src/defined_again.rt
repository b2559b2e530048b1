//! The declaration of a name, and the bindings that define it again.

ghost use Rattle.std.specs.Prelude.{◌≡◌, ◌++◌, ℕ, List, bytes_eq, map, IfOk, OnOk, option_map};
ghost use Rattle.indexmap.specs.IndexMap.{get_by};
ghost use Rattle.pyc_bindings.specs.BindingView.{binding_of, binding_form_of};
ghost use Rattle.pyc_bindings.specs.FirstBindings.{declaration_place};
ghost use Rattle.pyc_bindings.specs.Redefinitions as spec;
ghost use Rattle.pyc_bindings.specs.RedefinitionView.{redefinition_of};

use crate::binding::{Binding, BindingForm};
use crate::decorators::{has_other, has_setter};
use crate::first_bindings::{declaration_before, first_places};
use indexmap::IndexMap;
use pyc_ast::{Position, Text};
use std::alloc::{AllocError, Global};

/// A name that is defined again: where, its name, and the line of its declaration.
#[derive(Debug, Drop)]
pub struct Redefinition {
    pub at: Position,
    pub name: Text,
    pub line: u32,
}

/// The declaration of a name among bindings: the first of them. It takes no memory.
pub fn declaration<'a>(bindings: &'a [Binding], name: &Text) -> Option<&'a Binding>
    ensures { option_map (λ found. binding_of found.now) result
        ≡ spec.declaration (map binding_of bindings.now) name.now }
{
    for binding in bindings {
        if binding.name == *name {
            return Some(binding);
        }
    }
    None
}

/// The names that the bindings of a scope define again, in text order. The only error is that memory runs out.
pub fn redefinitions(alloc: Global, bindings: &[Binding]) -> Result<Vec<Redefinition>, AllocError>
    ensures { IfOk result (λ found. map redefinition_of found.items
        ≡ spec.redefinitions (map binding_of bindings.now)) }
{
    let places = first_places(alloc, bindings)?;
    redefinitions_at(alloc, &places, bindings)
}

/// The names that the bindings of a scope define again, whose first places these are, in text order. The only error is
/// that memory runs out.
#[tactic(auto, unfolding(crate::specs::Redefinitions::redefinitions))]
pub fn redefinitions_at(
    alloc: Global,
    places: &IndexMap<Text, usize>,
    bindings: &[Binding],
) -> Result<Vec<Redefinition>, AllocError>
    requires { (n : List ℕ) → get_by (bytes_eq n) places.now ≡ declaration_place (map binding_of bindings.now) n }
    ensures { IfOk result (λ found. map redefinition_of found.items
        ≡ spec.redefinitions (map binding_of bindings.now)) }
{
    let mut found = Vec::new(alloc);
    for (i, binding) in bindings.iter().enumerate() {
        let earlier = declaration_before(places, bindings, i, &binding.name);
        push_redefinition(earlier, binding, &mut found)?;
    }
    Ok(found)
}

/// Adds a binding, where it defines its name again after this earlier declaration.
fn push_redefinition(
    earlier: Option<&Binding>,
    binding: &Binding,
    found: &mut Vec<Redefinition>,
) -> Result<(), AllocError>
    ensures { OnOk result (map redefinition_of found.new.items
        ≡ map redefinition_of found.old.items
        ++ spec.redefinition (option_map (λ first. binding_of first.now) earlier.entry) (binding_of binding.now)) }
{
    if let Some(first) = earlier {
        if is_redefinition(first, binding) {
            found.push(Redefinition {
                at: binding.place.at,
                name: binding.name.clone()?,
                line: first.place.at.line,
            })?;
        }
    }
    Ok(())
}

/// Whether a binding defines its name again, whose declaration is this one.
fn is_redefinition(first: &Binding, binding: &Binding) -> bool
    ensures { result ≡ spec.is_redefinition (binding_of first.now) (binding_of binding.now) }
{
    defines(&binding.form) && !binding.place.is_guarded && !is_decorated(&first.form)
}

/// Whether a binding of this form defines its name.
fn defines(form: &BindingForm) -> bool
    ensures { result ≡ spec.defines (binding_form_of form.now) }
{
    match form {
        BindingForm::Function(head) => {
            !has_setter(&head.decorators) && !has_other(&head.decorators)
        }
        BindingForm::Class(head) => !has_other(&head.decorators),
        BindingForm::Annotated(_) => true,
        _ => false,
    }
}

/// Whether a binding of this form stands under a decorator of which nothing is known.
pub fn is_decorated(form: &BindingForm) -> bool
    ensures { result ≡ spec.is_decorated (binding_form_of form.now) }
{
    match form {
        BindingForm::Function(head) => has_other(&head.decorators),
        BindingForm::Class(head) => has_other(&head.decorators),
        _ => false,
    }
}
