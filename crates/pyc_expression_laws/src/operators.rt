//! What an operation asks.

ghost use Rattle.pyc_expression_laws.specs.OperatorRows.{BinaryReads, ComparisonReads, UnaryReads};

/// A binary operation asks for each pair of items of its operands, unless one of both is Any, the class of the left
/// one; where its order is known the class of the right one; where that is known too the method of the left one.
/// Classes and methods are those of instances of classes of sources.
pub fn binary_asks()
    ensures { BinaryReads }
{}

/// A comparison in order asks the same, and other comparisons ask nothing.
pub fn comparison_asks()
    ensures { ComparisonReads }
{}

/// A unary operation asks for each item of its operand that is an instance of a class of a source the class, and where
/// its order is known the method. `not` asks nothing.
pub fn unary_asks()
    ensures { UnaryReads }
{}
