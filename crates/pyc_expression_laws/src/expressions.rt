//! What whole expressions ask: files alone, whatever is answered.

ghost use Rattle.pyc_expression_laws.specs.ExpressionKeys.{ConditionAsksFiles, ExpressionAsksFiles};

/// An expression and a condition ask files alone, whatever is answered, where the names and the annotations in them do.
pub fn expressions_ask_files()
    ensures value { ExpressionAsksFiles }
    ensures condition { ConditionAsksFiles }
{}
