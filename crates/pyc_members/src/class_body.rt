//! What a class statement binds, and what decides of a name in it.

ghost use Rattle.std.specs.Prelude.{◌≡◌, ℕ, List, bytes_eq, map, true, false, IfOk, option_map};
ghost use Rattle.indexmap.specs.IndexMap.{get_by};
ghost use Rattle.indexmap.specs.IndexSet.{contains_by};
ghost use Rattle.pyc_ast.specs.Statements.{stmts};
ghost use Rattle.pyc_ast.specs.StatementView.{stmt_of};
ghost use Rattle.pyc_bindings.specs.BindingView.{binding_of, binding_form_of};
ghost use Rattle.pyc_bindings.specs.FirstBindings.{declaration_place};
ghost use Rattle.pyc_members.specs.AttributeView.{attribute_of, attribute_form_of};
ghost use Rattle.pyc_members.specs.AttributePlaces.{attribute_place};
ghost use Rattle.pyc_members.specs.ClassBodies as spec;

use crate::attribute::SelfAttribute;
use crate::attribute_places::{attribute_at, attribute_places};
use crate::attributes::self_attributes;
use indexmap::{IndexMap, IndexSet};
use pyc_ast::{Stmt, Text};
use pyc_bindings::{
    Binding, BindingForm, declaration_at, first_places, has_setter, scope_bindings,
};
use std::alloc::{AllocError, Global};

/// What a class statement binds: the bindings of its body, and the attributes that its methods give its instances, both
/// in text order. To look a name up takes a step, however many names there are.
#[derive(Drop)]
pub struct ClassBody {
    pub bindings: Vec<Binding>,
    pub attributes: Vec<SelfAttribute>,
    /// The place of the first binding of each name.
    bound: IndexMap<Text, usize>,
    /// The place of the first attribute of each name that is annotated.
    annotated: IndexMap<Text, usize>,
    /// The place of the first attribute of each name that is not.
    assigned: IndexMap<Text, usize>,
    /// The names of the properties that have a setter.
    settable: IndexSet<Text>,
    ghost bound_are: { (n : List ℕ) → get_by (bytes_eq n) bound
        ≡ declaration_place (map binding_of bindings.items) n },
    ghost annotated_are: { (n : List ℕ) → get_by (bytes_eq n) annotated
        ≡ attribute_place true (map attribute_of attributes.items) n },
    ghost assigned_are: { (n : List ℕ) → get_by (bytes_eq n) assigned
        ≡ attribute_place false (map attribute_of attributes.items) n },
    ghost settable_are: { (n : List ℕ) → contains_by (bytes_eq n) settable
        ≡ spec.has_setter_of (map binding_of bindings.items) n },
}

/// What decides of a name in one class.
#[derive(Clone, Copy, Drop)]
pub enum OwnMember<'a> {
    /// The declaration of the name in the body.
    Bound(&'a Binding),
    /// The first annotation of the name through the instance.
    Annotated(&'a SelfAttribute),
    /// The first that assigns the name through the instance.
    Assigned(&'a SelfAttribute),
}

impl ClassBody {
    ghost use Rattle.pyc_members.specs.ClassBodyView.{class_body_of, own_member_of};

    /// What a class statement with this body binds. The only error is that memory runs out.
    #[tactic(auto, unfolding(crate::specs::ClassBodies::class_body))]
    pub fn read(alloc: Global, body: &[Stmt]) -> Result<ClassBody, AllocError>
        ensures { IfOk result (λ found. class_body_of found ≡ spec.class_body (stmts (map stmt_of body.now))) }
    {
        let bindings = scope_bindings(alloc, body)?;
        let attributes = self_attributes(alloc, body)?;
        ClassBody::of_parts(alloc, bindings, attributes)
    }

    /// The class that binds this. The only error is that memory runs out.
    fn of_parts(
        alloc: Global,
        bindings: Vec<Binding>,
        attributes: Vec<SelfAttribute>,
    ) -> Result<ClassBody, AllocError>
        ensures bindings { IfOk result (λ found. found.bindings.items ≡ bindings.items) }
        ensures attributes { IfOk result (λ found. found.attributes.items ≡ attributes.items) }
    {
        let bound = first_places(alloc, &bindings)?;
        let annotated = attribute_places(alloc, &attributes, true)?;
        let assigned = attribute_places(alloc, &attributes, false)?;
        let settable = setters(alloc, &bindings)?;
        Ok(ClassBody {
            bindings,
            attributes,
            bound,
            annotated,
            assigned,
            settable,
        })
    }

    /// What decides of a name in this class: its declaration in the body, else the first annotation through the
    /// instance, else the first that assigns through it. It takes no memory.
    pub fn own_member(&self, name: &Text) -> Option<OwnMember<'_>>
        ensures { option_map own_member_of result ≡ spec.own_member (class_body_of self.now) name.now }
    {
        match self.in_body_or_annotated(name) {
            Some(found) => Some(found),
            None => self.assigned_through_self(name),
        }
    }

    /// What decides of a name in this class before the classes that assign it through the instance: its declaration in
    /// the body, else the first annotation through the instance. It takes no memory.
    pub fn in_body_or_annotated(&self, name: &Text) -> Option<OwnMember<'_>>
        ensures { option_map own_member_of result ≡ spec.in_body_or_annotated (class_body_of self.now) name.now }
    {
        match declaration_at(&self.bound, &self.bindings, name) {
            Some(found) => Some(OwnMember::Bound(found)),
            None => self.annotated_through_self(name),
        }
    }

    /// The first annotation of a name through the instance.
    fn annotated_through_self(&self, name: &Text) -> Option<OwnMember<'_>>
        ensures { option_map own_member_of result ≡ spec.annotated_through_self (class_body_of self.now) name.now }
    {
        match attribute_at(&self.annotated, &self.attributes, true, name) {
            Some(found) => Some(OwnMember::Annotated(found)),
            None => None,
        }
    }

    /// The first that assigns a name through the instance. It takes no memory.
    pub fn assigned_through_self(&self, name: &Text) -> Option<OwnMember<'_>>
        ensures { option_map own_member_of result ≡ spec.assigned_through_self (class_body_of self.now) name.now }
    {
        match attribute_at(&self.assigned, &self.attributes, false, name) {
            Some(found) => Some(OwnMember::Assigned(found)),
            None => None,
        }
    }

    /// Whether a property of this name is settable: the body binds a function under `@NAME.setter` to it. It takes no
    /// memory.
    pub fn is_settable(&self, name: &Text) -> bool
        ensures { result ≡ spec.is_settable (class_body_of self.now) name.now }
    {
        self.settable.contains(name)
    }
}

/// The names of the properties that have a setter among these bindings.
fn setters(alloc: Global, bindings: &[Binding]) -> Result<IndexSet<Text>, AllocError>
    ensures { IfOk result (λ names. (n : List ℕ) → contains_by (bytes_eq n) names
        ≡ spec.has_setter_of (map binding_of bindings.now) n) }
{
    let mut names = IndexSet::new(alloc);
    for binding in bindings {
        if is_setter(&binding.form) {
            names.insert(binding.name.clone()?)?;
        }
    }
    Ok(names)
}

/// Whether a binding of this form is the setter of a property.
fn is_setter(form: &BindingForm) -> bool
    ensures { result ≡ spec.is_setter (binding_form_of form.now) }
{
    match form {
        BindingForm::Function(head) => has_setter(&head.decorators),
        _ => false,
    }
}
