//! When two heads of functions or classes are one without their positions.

ghost use Rattle.std.specs.Prelude.{◌≡◌, map};
ghost use Rattle.std.specs.Cmp.Lexicographic.{pointwise};
ghost use Rattle.pyc_ast.specs.ExprView.{argument_of, expr_of};
ghost use Rattle.pyc_ast.specs.StatementView.{boxed_expr_of, class_of, function_of, parameter_of};
ghost use Rattle.pyc_interfaces.specs.SameExpressions.{same_argument, same_expr, same_optional};
ghost use Rattle.pyc_interfaces.specs.SameInterfaces as spec;

use crate::same_expressions::{same_argument, same_expr, same_optional};
use pyc_ast::{Argument, ClassDefinition, Expr, FunctionDefinition, Parameter, ParameterKind};

/// Whether two rows of expressions are one.
fn same_exprs(xs: &[Expr], ys: &[Expr]) -> bool
    ensures { result ≡ pointwise same_expr (map expr_of xs.now) (map expr_of ys.now) }
{
    if xs.len() != ys.len() {
        return false;
    }
    for i in 0..xs.len() {
        if !same_expr(&xs[i], &ys[i]) {
            return false;
        }
    }
    true
}

/// Whether both are there and one, or neither is there.
fn same_boxed(a: &Option<Box<Expr>>, b: &Option<Box<Expr>>) -> bool
    ensures { result ≡ same_optional (boxed_expr_of a.now) (boxed_expr_of b.now) }
{
    match a {
        Some(x) => matches!(b, Some(y) if same_expr(x, y)),
        None => matches!(b, None),
    }
}

/// Whether two parameters are filled alike.
fn same_kind(a: ParameterKind, b: ParameterKind) -> bool
    ensures { result ≡ spec.same_kind a b }
{
    match a {
        ParameterKind::Plain => matches!(b, ParameterKind::Plain),
        ParameterKind::Star => matches!(b, ParameterKind::Star),
        ParameterKind::KeywordOnly => matches!(b, ParameterKind::KeywordOnly),
        ParameterKind::DoubleStar => matches!(b, ParameterKind::DoubleStar),
    }
}

/// Whether two parameters are one; of defaults it counts whether they are there.
fn same_parameter(p: &Parameter, q: &Parameter) -> bool
    ensures { result ≡ spec.same_parameter (parameter_of p.now) (parameter_of q.now) }
{
    same_kind(p.kind, q.kind)
        && p.name == q.name
        && same_boxed(&p.annotation, &q.annotation)
        && p.default.is_some() == q.default.is_some()
}

/// Whether two rows of parameters are one.
fn same_parameters(xs: &[Parameter], ys: &[Parameter]) -> bool
    ensures { result ≡ pointwise spec.same_parameter (map parameter_of xs.now) (map parameter_of ys.now) }
{
    if xs.len() != ys.len() {
        return false;
    }
    for i in 0..xs.len() {
        if !same_parameter(&xs[i], &ys[i]) {
            return false;
        }
    }
    true
}

/// Whether two heads of functions are one.
pub(crate) fn same_function(f: &FunctionDefinition, g: &FunctionDefinition) -> bool
    ensures { result ≡ spec.same_function (function_of f.now) (function_of g.now) }
{
    same_exprs(&f.decorators, &g.decorators)
        && f.is_async == g.is_async
        && f.name == g.name
        && same_parameters(&f.parameters, &g.parameters)
        && same_optional(f.returns.as_ref(), g.returns.as_ref())
}

/// Whether two rows of arguments are one.
pub(crate) fn same_arguments(xs: &[Argument], ys: &[Argument]) -> bool
    ensures { result ≡ pointwise same_argument (map argument_of xs.now) (map argument_of ys.now) }
{
    if xs.len() != ys.len() {
        return false;
    }
    for i in 0..xs.len() {
        if !same_argument(&xs[i], &ys[i]) {
            return false;
        }
    }
    true
}

/// Whether two heads of classes are one.
pub(crate) fn same_class(c: &ClassDefinition, d: &ClassDefinition) -> bool
    ensures { result ≡ spec.same_class (class_of c.now) (class_of d.now) }
{
    same_exprs(&c.decorators, &d.decorators)
        && c.name == d.name
        && same_arguments(&c.arguments, &d.arguments)
}
