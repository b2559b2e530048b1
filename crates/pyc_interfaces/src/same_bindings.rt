//! When two bindings are one without their positions.

ghost use Rattle.std.specs.Prelude.{◌≡◌, map};
ghost use Rattle.std.specs.Cmp.Lexicographic.{pointwise};
ghost use Rattle.pyc_bindings.specs.Bindings.{import};
ghost use Rattle.pyc_bindings.specs.BindingView.{binding_form_of, binding_of};
ghost use Rattle.pyc_interfaces.specs.SameInterfaces as spec;

use crate::same_expressions::{same_expr, same_value};
use crate::same_heads::{same_class, same_function};
use pyc_ast::Text;
use pyc_bindings::{Binding, BindingForm};
use std::slice;

/// Whether a binding of this form imports the module with these parts.
fn imports(form: &BindingForm, path: &[Text]) -> bool
    ensures { result ≡ spec.same_form (import path.now) (binding_form_of form.now) }
{
    match form {
        BindingForm::Import(imported) => imported.path.as_slice() == path,
        BindingForm::ImportFirst(first) => slice::from_ref(first) == path,
        _ => false,
    }
}

/// Whether two bindings bind their names to one.
fn same_form(a: &BindingForm, b: &BindingForm) -> bool
    ensures { result ≡ spec.same_form (binding_form_of a.now) (binding_form_of b.now) }
{
    match a {
        BindingForm::Import(imported) => imports(b, &imported.path),
        BindingForm::ImportFirst(first) => imports(b, slice::from_ref(first)),
        BindingForm::ImportFrom(from, name) => matches!(b, BindingForm::ImportFrom(other, own)
            if from.dots == other.dots && from.path.as_slice() == other.path.as_slice() && name == own),
        BindingForm::Function(head) => {
            matches!(b, BindingForm::Function(other) if same_function(head, other))
        }
        BindingForm::Class(head) => {
            matches!(b, BindingForm::Class(other) if same_class(head, other))
        }
        BindingForm::Annotated(found) => matches!(b, BindingForm::Annotated(other)
            if same_expr(&found.annotation, &other.annotation)),
        BindingForm::Assigned(value) => {
            matches!(b, BindingForm::Assigned(other) if same_value(value, other))
        }
        BindingForm::Other => matches!(b, BindingForm::Other),
    }
}

/// Whether two bindings are one.
pub(crate) fn same_binding(a: &Binding, b: &Binding) -> bool
    ensures { result ≡ spec.same_binding (binding_of a.now) (binding_of b.now) }
{
    a.name == b.name && a.is_passed_on == b.is_passed_on && same_form(&a.form, &b.form)
}

/// Whether two rows of bindings are one.
pub(crate) fn same_bindings(xs: &[Binding], ys: &[Binding]) -> bool
    ensures { result ≡ pointwise spec.same_binding (map binding_of xs.now) (map binding_of ys.now) }
{
    if xs.len() != ys.len() {
        return false;
    }
    for i in 0..xs.len() {
        if !same_binding(&xs[i], &ys[i]) {
            return false;
        }
    }
    true
}
