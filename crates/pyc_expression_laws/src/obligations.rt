//! What an obligation asks, and what is required.

ghost use Rattle.pyc_expression_laws.specs.ObligationRows.{
  ArgumentIsRequired,
  AssignmentIsRequired,
  EntryIsRequired,
  IndexIsRequired,
};
ghost use Rattle.pyc_expression_laws.specs.ObligationRows.{
  ItemIsRequired,
  JudgementReads,
  ObligationReads,
  OverrideIsRequired,
};

/// Whether a type is assignable to another asks the classes of sources that are written in both, in the order in which
/// they are written, and nothing else. An obligation asks the same, and then as much for each of its details.
pub fn obligation_asks()
    ensures judgement { JudgementReads }
    ensures obligation { ObligationReads }
{}

/// Each argument that a parameter takes has to be assignable to its type, each index to the type that is taken, each
/// item and each part of an entry of a display to the type that is expected of it, each value to the type of its
/// target, and each member to that of each ancestor that declares it, whether that holds or not.
pub fn is_required()
    ensures argument { ArgumentIsRequired }
    ensures index { IndexIsRequired }
    ensures item { ItemIsRequired }
    ensures entry { EntryIsRequired }
    ensures assignment { AssignmentIsRequired }
    ensures member { OverrideIsRequired }
{}
