//! Which place of a tuple an index chooses.

ghost use Rattle.std.specs.Prelude.{◌≡◌, option_map};
ghost use Rattle.pyc_ast.specs.Exprs.{form_in};
ghost use Rattle.pyc_ast.specs.ExprView.{expr_of, index_form_of, index_of};
ghost use Rattle.pyc_subscripts.specs.Chosen as spec;
ghost use Rattle.pyc_type_forms.specs.TypeView.{row, ty_of};

use pyc_ast::{Constant, Expr, Form, Index, IndexForm, UnaryOperator};
use pyc_type_forms::Ty;

/// A place of a tuple.
#[derive(Clone, Copy, Debug, PartialEq, Eq)]
pub(crate) enum Chosen {
    /// This one, from 0.
    Place(u8),
    Last,
}

/// Whether an index is a slice. It takes no memory.
pub(crate) fn is_slice(index: &Index) -> bool
    ensures { result ≡ spec.is_slice (index_of index.now) }
{
    is_slice_form(&index.form)
}

/// Whether what stands between brackets is a slice.
fn is_slice_form(form: &IndexForm) -> bool
    ensures { result ≡ spec.is_slice_form (index_form_of form.now) }
{
    match form {
        IndexForm::Item(_) => false,
        IndexForm::Slice { .. } => true,
        IndexForm::Indices(_) => false,
    }
}

/// The place that an index chooses. It takes no memory.
pub(crate) fn chosen_by(index: &Index) -> Option<Chosen>
    ensures { result ≡ spec.chosen_by (index_of index.now) }
{
    by_index(&index.form)
}

/// The place that what stands between brackets chooses.
fn by_index(form: &IndexForm) -> Option<Chosen>
    ensures { result ≡ spec.by_index (index_form_of form.now) }
{
    match form {
        IndexForm::Item(e) => by_expr(e),
        IndexForm::Slice { .. } => None,
        IndexForm::Indices(_) => None,
    }
}

/// The place that an expression chooses.
fn by_expr(e: &Expr) -> Option<Chosen>
    ensures { result ≡ spec.by_form (form_in (expr_of e.now)) }
{
    match &e.form {
        Form::Constant(found) => by_literal(*found),
        Form::Unary { operator, operand } => by_unary(*operator, operand),
        _ => None,
    }
}

/// The place of a literal.
fn by_literal(found: Constant) -> Option<Chosen>
    ensures { result ≡ spec.by_literal found }
{
    match found {
        Constant::Integer(digit) => by_digit(digit),
        _ => None,
    }
}

/// The place of a digit.
fn by_digit(digit: Option<u8>) -> Option<Chosen>
    ensures { result ≡ spec.by_digit digit }
{
    match digit {
        Some(digit) => Some(Chosen::Place(digit)),
        None => None,
    }
}

/// The place of an operand behind an operator.
fn by_unary(operator: UnaryOperator, operand: &Expr) -> Option<Chosen>
    ensures { result ≡ spec.by_unary operator (expr_of operand.now) }
{
    match operator {
        UnaryOperator::USub => by_negated(operand),
        _ => None,
    }
}

/// The place of an operand behind a minus.
fn by_negated(operand: &Expr) -> Option<Chosen>
    ensures { result ≡ spec.by_negated (form_in (expr_of operand.now)) }
{
    match &operand.form {
        Form::Constant(found) => by_negated_literal(*found),
        _ => None,
    }
}

/// The place of a literal behind a minus.
fn by_negated_literal(found: Constant) -> Option<Chosen>
    ensures { result ≡ spec.by_negated_literal found }
{
    match found {
        Constant::Integer(digit) => by_negated_digit(digit),
        _ => None,
    }
}

/// The place of a digit behind a minus.
fn by_negated_digit(digit: Option<u8>) -> Option<Chosen>
    ensures { result ≡ spec.by_negated_digit digit }
{
    match digit {
        Some(digit) => { if digit == 1 { Some(Chosen::Last) } else { None } }
        None => None,
    }
}

/// The type at a place that is chosen.
#[tactic(auto, using(crate::proofs::RowLemmas::row_length_row))]
pub(crate) fn chosen_type(place: Chosen, items: &[Ty]) -> Option<&Ty>
    ensures { option_map (λ ty. ty_of ty.now) result ≡ spec.chosen_type place (row items.now) }
{
    match place {
        Chosen::Place(digit) => ty_at(items, digit as usize),
        Chosen::Last => ty_at(items, items.len().saturating_sub(1)),
    }
}

/// The type at a place.
fn ty_at(items: &[Ty], place: usize) -> Option<&Ty>
    ensures { option_map (λ ty. ty_of ty.now) result ≡ spec.ty_at (row items.now) place }
{
    items.get(place)
}
