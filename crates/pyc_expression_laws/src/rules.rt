//! What the rules of expressions ask: files alone, whatever is answered.

ghost use Rattle.pyc_expression_laws.specs.RuleKeys.{AttributeAsksFiles, BinaryAsksFiles, CallAsksFiles};
ghost use Rattle.pyc_expression_laws.specs.RuleKeys.{ComparisonAsksFiles, IterationAsksFiles, JudgementAsksFiles};
ghost use Rattle.pyc_expression_laws.specs.RuleKeys.{NameAsksFiles, ObligationAsksFiles, SplitAsksFiles};
ghost use Rattle.pyc_expression_laws.specs.RuleKeys.{SubscriptAsksFiles, UnaryAsksFiles};

/// Obligations, tests of assignability, names, attributes, subscripts and iterations ask files alone, whatever is
/// answered.
pub fn rules_ask_files()
    ensures obligation { ObligationAsksFiles }
    ensures judgement { JudgementAsksFiles }
    ensures name { NameAsksFiles }
    ensures attribute { AttributeAsksFiles }
    ensures subscript { SubscriptAsksFiles }
    ensures iteration { IterationAsksFiles }
{}

/// Operators ask files alone, with the methods that they call.
pub fn operators_ask_files()
    ensures binary { BinaryAsksFiles }
    ensures comparison { ComparisonAsksFiles }
    ensures unary { UnaryAsksFiles }
{}

/// A call asks files alone where its arguments do, and what a condition says of places where its parts do.
pub fn calls_ask_files()
    ensures call { CallAsksFiles }
    ensures condition { SplitAsksFiles }
{}
