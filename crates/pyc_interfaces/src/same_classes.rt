//! When two declared classes are one without their positions.

ghost use Rattle.std.specs.Prelude.{◌≡◌, map};
ghost use Rattle.std.specs.Cmp.Lexicographic.{pointwise};
ghost use Rattle.pyc_interfaces.specs.SameInterfaces as spec;
ghost use Rattle.pyc_members.specs.AttributeView.{attribute_form_of, attribute_of};
ghost use Rattle.pyc_members.specs.ClassBodyView.{class_body_of};
ghost use Rattle.pyc_members.specs.DeclaredClassView.{declared_class_in, declared_class_of};

use crate::same_bindings::same_bindings;
use crate::same_expressions::{same_expr, same_value};
use crate::same_heads::{same_class, same_function};
use pyc_members::{AttributeForm, ClassBody, DeclaredClass, SelfAttribute};
use std::rc::Rc;

/// Whether two attributes get their types from one.
fn same_form(a: &AttributeForm, b: &AttributeForm) -> bool
    ensures { result ≡ spec.same_attribute_form (attribute_form_of a.now) (attribute_form_of b.now) }
{
    match a {
        AttributeForm::Annotated(found) => matches!(b, AttributeForm::Annotated(other)
            if same_expr(&found.annotation, &other.annotation)),
        AttributeForm::Assigned(value) => {
            matches!(b, AttributeForm::Assigned(other) if same_value(value, other))
        }
        AttributeForm::Other => matches!(b, AttributeForm::Other),
    }
}

/// Whether two attributes are one.
pub(crate) fn same_attribute(a: &SelfAttribute, b: &SelfAttribute) -> bool
    ensures { result ≡ spec.same_attribute (attribute_of a.now) (attribute_of b.now) }
{
    a.name == b.name && same_form(&a.form, &b.form) && same_function(&a.method, &b.method)
}

/// Whether two rows of attributes are one.
fn same_attributes(xs: &[SelfAttribute], ys: &[SelfAttribute]) -> bool
    ensures { result ≡ pointwise spec.same_attribute (map attribute_of xs.now) (map attribute_of ys.now) }
{
    if xs.len() != ys.len() {
        return false;
    }
    for i in 0..xs.len() {
        if !same_attribute(&xs[i], &ys[i]) {
            return false;
        }
    }
    true
}

/// Whether two class statements bind the same.
fn same_body(a: &ClassBody, b: &ClassBody) -> bool
    ensures { result ≡ spec.same_body (class_body_of a.now) (class_body_of b.now) }
{
    same_bindings(&a.bindings, &b.bindings) && same_attributes(&a.attributes, &b.attributes)
}

/// Whether two declared classes are one.
fn same_declared(a: &DeclaredClass, b: &DeclaredClass) -> bool
    ensures { result ≡ spec.same_declared (declared_class_of a.now) (declared_class_of b.now) }
{
    a.name == b.name && same_class(&a.head, &b.head) && same_body(&a.body, &b.body)
}

/// Whether two rows of declared classes are one.
pub(crate) fn same_classes(xs: &[Rc<DeclaredClass>], ys: &[Rc<DeclaredClass>]) -> bool
    ensures { result ≡ pointwise spec.same_declared (map declared_class_in xs.now) (map declared_class_in ys.now) }
{
    if xs.len() != ys.len() {
        return false;
    }
    for i in 0..xs.len() {
        if !same_declared(&xs[i], &ys[i]) {
            return false;
        }
    }
    true
}
