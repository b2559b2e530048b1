//! Laws of `and` and `or`, proved for all of them.

ghost use Rattle.pyc_expr_forms.specs.Laws.{ChainsGoOn};

/// A chain of `and`, or of `or`, goes on in the state that all of it leaves, taken as one condition.
pub fn chains_go_on()
    ensures { ChainsGoOn }
{}
