//! What bodies ask: files alone, whatever is answered.

ghost use Rattle.pyc_unit_laws.specs.UnitKeys.{BlockAsksFiles, BodyExpressionAsksFiles, SimpleStatementAsksFiles};

/// The expressions of a body, its simple statements and its blocks ask files alone, whatever is answered. The class
/// around a body is of a source, as each is that a class statement declares.
pub fn statements_ask_files()
    ensures expression { BodyExpressionAsksFiles }
    ensures simple { SimpleStatementAsksFiles }
    ensures block { BlockAsksFiles }
{}
