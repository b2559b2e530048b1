//! Laws of what expressions are, proved for all of them.

ghost use Rattle.pyc_expr.specs.Laws.{IsDeepEnough, IsIndex, IsInferred, IsOfItsParts, IsSplit};

/// An expression is what it is by its parts, each of which is what it is: no depth is named.
pub fn is_of_its_parts()
    ensures { IsOfItsParts }
{}

/// An expression that is read at least as deep as its parts lie is what it is.
pub fn is_deep_enough()
    ensures { IsDeepEnough }
{}

/// An expression that is at most 1,000 high is what it is.
pub fn is_inferred()
    ensures { IsInferred }
{}

/// What a condition that is at most 1,000 high says goes by what expressions are.
pub fn is_split()
    ensures { IsSplit }
{}

/// The type of an index that is at most 1,000 high goes by what expressions are.
pub fn is_index()
    ensures { IsIndex }
{}
