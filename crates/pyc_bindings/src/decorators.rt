//! What the decorators of a function or a class are.

ghost use Rattle.std.specs.Prelude.{◌≡◌, map};
ghost use Rattle.pyc_ast.specs.ExprView.{expr_of};
ghost use Rattle.pyc_bindings.specs.Decorators as spec;

use pyc_ast::{Expr, Form};

/// A decorator, reported by its spelling.
#[derive(Clone, Copy, Debug, PartialEq, Eq)]
pub enum Decorator {
    /// `@property`
    Property,
    /// `@NAME.setter`
    Setter,
    /// `@staticmethod`
    StaticMethod,
    /// `@classmethod`
    ClassMethod,
    /// `@abstractmethod` or `@abc.abstractmethod`: it changes nothing.
    AbstractMethod,
    /// Any other: of what stands under it nothing is known.
    Other,
}

/// The decorator that an expression is.
#[tactic(auto, unfolding(crate::specs::Decorators::decorator_of))]
pub fn decorator_of(found: &Expr) -> Decorator
    ensures { result ≡ spec.decorator_of (expr_of found.now) }
{
    match &found.form {
        Form::Name(name) => named_decorator(name.as_str()),
        Form::Attribute { value, name } => attribute_decorator(value, name.as_str()),
        _ => Decorator::Other,
    }
}

/// The decorator that a name by itself is.
fn named_decorator(name: &str) -> Decorator
    ensures { result ≡ spec.named_decorator name.now }
{
    match name {
        "property" => Decorator::Property,
        "staticmethod" => Decorator::StaticMethod,
        "classmethod" => Decorator::ClassMethod,
        "abstractmethod" => Decorator::AbstractMethod,
        _ => Decorator::Other,
    }
}

/// The decorator that an attribute is.
fn attribute_decorator(value: &Expr, name: &str) -> Decorator
    ensures { result ≡ spec.attribute_decorator (expr_of value.now) name.now }
{
    match &value.form {
        Form::Name(before) => dotted_decorator(before.as_str(), name),
        _ => Decorator::Other,
    }
}

/// The decorator that a name behind another is.
fn dotted_decorator(before: &str, name: &str) -> Decorator
    ensures { result ≡ spec.dotted_decorator before.now name.now }
{
    if name == "setter" {
        Decorator::Setter
    } else if before == "abc" && name == "abstractmethod" {
        Decorator::AbstractMethod
    } else {
        Decorator::Other
    }
}

/// Whether one of these decorators has no meaning here, so that nothing is known of what stands under it.
pub fn has_other(decorators: &[Expr]) -> bool
    ensures { result ≡ spec.has_other (map expr_of decorators.now) }
{
    for found in decorators {
        if is_other(decorator_of(found)) {
            return true;
        }
    }
    false
}

fn is_other(decorator: Decorator) -> bool
    ensures { result ≡ spec.is_other decorator }
{
    matches!(decorator, Decorator::Other)
}

/// Whether one of these decorators makes the setter of a property.
pub fn has_setter(decorators: &[Expr]) -> bool
    ensures { result ≡ spec.has_setter (map expr_of decorators.now) }
{
    for found in decorators {
        if is_setter(decorator_of(found)) {
            return true;
        }
    }
    false
}

fn is_setter(decorator: Decorator) -> bool
    ensures { result ≡ spec.is_setter decorator }
{
    matches!(decorator, Decorator::Setter)
}
