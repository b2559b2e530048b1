//! When two expressions of interfaces are one without their positions.

ghost use Rattle.std.specs.Prelude.{◌≡◌, map, option_map};
ghost use Rattle.pyc_ast.specs.Exprs.{elements, indices_of};
ghost use Rattle.pyc_ast.specs.ExprView.{argument_of, element_of, expr_of, form_of, index_of};
ghost use Rattle.pyc_interfaces.specs.SameExpressions as spec;
ghost use Rattle.pyc_type_exprs.specs.TypeExprs.{is_bit_or};

use pyc_ast::{Argument, ArgumentKind, Constant, Element, Expr, Form, Index, IndexForm, Operator};

/// Whether two expressions are one without their positions. Of those that mean nothing, as calls, all are one. It says
/// no to operators other than `|`.
#[cycle(same)]
pub(crate) fn same_expr(a: &Expr, b: &Expr) -> bool
    ensures { result ≡ spec.same_expr (expr_of a.now) (expr_of b.now) }
{
    match &a.form {
        Form::Name(x) => matches!(&b.form, Form::Name(y) if x == y),
        Form::Constant(c) => matches!(&b.form, Form::Constant(d) if same_constant(*c, *d)),
        Form::StringAnnotation(x) =>
            matches!(&b.form, Form::StringAnnotation(y) if same_expr(x, y)),
        Form::Tuple(xs) => matches!(&b.form, Form::Tuple(ys) if same_elements(xs, ys)),
        Form::List(xs) => matches!(&b.form, Form::List(ys) if same_elements(xs, ys)),
        Form::Attribute { value: x, name: m } => {
            matches!(&b.form, Form::Attribute { value: y, name: n } if same_expr(x, y) && m == n)
        }
        Form::Subscript { value: x, index: i } => {
            matches!(&b.form, Form::Subscript { value: y, index: j } if same_expr(x, y) && same_index(i, j))
        }
        Form::Binary {
            operator: o,
            left: x,
            right: y,
        } => matches!(&b.form, Form::Binary { operator: p, left: z, right: w }
            if is_bit_or(*o) && is_bit_or(*p) && same_expr(x, z) && same_expr(y, w)),
        _ => !is_read(&b.form),
    }
}

/// Whether expressions of this form may mean something as an annotation, a base or a decorator.
fn is_read(form: &Form) -> bool
    ensures { result ≡ spec.is_read (form_of form.now) }
{
    matches!(
        form,
        Form::Name(_)
            | Form::Constant(_)
            | Form::StringAnnotation(_)
            | Form::Tuple(_)
            | Form::List(_)
            | Form::Attribute { .. }
            | Form::Subscript { .. }
            | Form::Binary { .. }
    )
}

/// Whether two items of a list or a tuple are one.
#[cycle(same)]
fn same_element(a: &Element, b: &Element) -> bool
    ensures { result ≡ spec.same_element (element_of a.now) (element_of b.now) }
{
    a.is_starred == b.is_starred && same_expr(&a.value, &b.value)
}

/// Whether the items of two lists or tuples are one.
#[cycle(same)]
fn same_elements(xs: &[Element], ys: &[Element]) -> bool
    ensures { result ≡ spec.same_elements (elements (map element_of xs.now)) (elements (map element_of ys.now)) }
{
    if xs.len() != ys.len() {
        return false;
    }
    for i in 0..xs.len() {
        if !same_element(&xs[i], &ys[i]) {
            return false;
        }
    }
    true
}

/// Whether what stands in two pairs of brackets is one.
#[cycle(same)]
fn same_index(a: &Index, b: &Index) -> bool
    ensures { result ≡ spec.same_index (index_of a.now) (index_of b.now) }
{
    match &a.form {
        IndexForm::Item(x) => matches!(&b.form, IndexForm::Item(y) if same_expr(x, y)),
        IndexForm::Indices(xs) => {
            matches!(&b.form, IndexForm::Indices(ys) if same_indices(xs, ys))
        }
        IndexForm::Slice { .. } => matches!(&b.form, IndexForm::Slice { .. }),
    }
}

/// Whether two rows of indices are one.
#[cycle(same)]
fn same_indices(xs: &[Index], ys: &[Index]) -> bool
    ensures { result ≡ spec.same_indices (indices_of (map index_of xs.now)) (indices_of (map index_of ys.now)) }
{
    if xs.len() != ys.len() {
        return false;
    }
    for i in 0..xs.len() {
        if !same_index(&xs[i], &ys[i]) {
            return false;
        }
    }
    true
}

/// Whether two literals are of one kind.
fn same_constant(c: Constant, d: Constant) -> bool
    ensures { result ≡ spec.same_constant c d }
{
    constant_number(c) == constant_number(d)
}

/// A literal by number.
fn constant_number(c: Constant) -> u8
    ensures { result ≡ spec.constant_number c }
{
    match c {
        Constant::None => 0,
        Constant::True => 1,
        Constant::False => 2,
        Constant::Ellipsis => 3,
        Constant::Integer(_) => 4,
        Constant::Float => 5,
        Constant::Imaginary => 6,
        Constant::Str => 7,
        Constant::FormattedStr => 8,
        Constant::Bytes => 9,
    }
}

/// Whether an operator is `|`.
fn is_bit_or(operator: Operator) -> bool
    ensures { result ≡ is_bit_or operator }
{
    matches!(operator, Operator::BitOr)
}

/// Whether both are there and one, or neither is there.
pub(crate) fn same_optional(a: Option<&Expr>, b: Option<&Expr>) -> bool
    ensures { result ≡ spec.same_optional (option_map (λ x. expr_of x.now) a.entry)
        (option_map (λ x. expr_of x.now) b.entry) }
{
    match (a, b) {
        (Some(x), Some(y)) => same_expr(x, y),
        (None, None) => true,
        _ => false,
    }
}

/// Whether two arguments of classes are one.
pub(crate) fn same_argument(a: &Argument, b: &Argument) -> bool
    ensures { result ≡ spec.same_argument (argument_of a.now) (argument_of b.now) }
{
    same_kind(&a.kind, &b.kind) && same_expr(&a.value, &b.value)
}

/// Whether two arguments are given alike.
fn same_kind(a: &ArgumentKind, b: &ArgumentKind) -> bool
    ensures { result ≡ spec.same_kind a.now b.now }
{
    match a {
        ArgumentKind::Positional => matches!(b, ArgumentKind::Positional),
        ArgumentKind::Starred => matches!(b, ArgumentKind::Starred),
        ArgumentKind::Keyword(m) => matches!(b, ArgumentKind::Keyword(n) if m == n),
        ArgumentKind::DoubleStarred => matches!(b, ArgumentKind::DoubleStarred),
    }
}

/// Whether two initial values are one: of what is no literal and no name, all are.
pub(crate) fn same_value(a: &Expr, b: &Expr) -> bool
    ensures { result ≡ spec.same_value (expr_of a.now) (expr_of b.now) }
{
    match &a.form {
        Form::Name(x) => matches!(&b.form, Form::Name(y) if x == y),
        Form::Constant(c) => matches!(&b.form, Form::Constant(d) if same_constant(*c, *d)),
        Form::StringAnnotation(_) => matches!(&b.form, Form::StringAnnotation(_)),
        _ => !counts(&b.form),
    }
}

/// Whether a value is a literal or a name.
fn counts(form: &Form) -> bool
    ensures { result ≡ spec.counts (form_of form.now) }
{
    matches!(
        form,
        Form::Name(_) | Form::Constant(_) | Form::StringAnnotation(_)
    )
}
