//! What a class statement asks.

ghost use Rattle.pyc_unit_laws.specs.ClassRows.{ClassReads, ClassStatementReads, SubclassReads, OverrideReads};

/// The head of a class statement asks the names of its bases. Where the statement declares the class of its name, it
/// then asks the order of each base that is a class of a source, in turn, and the order of the class.
pub fn class_asks()
    ensures { ClassReads }
{}

/// A member that a class declares asks each ancestor that is a class of a source what it has under the name, in turn,
/// and then what is required of those that declare it.
pub fn override_asks()
    ensures { OverrideReads }
{}

/// A declared class asks for each name that it binds, in turn, but for those that go their own way, what the class has
/// under it; where the class itself declares that, what overriding its ancestors asks.
pub fn subclass_asks()
    ensures { SubclassReads }
{}

/// A class statement asks what its head asks, then what its body asks, and then what its members ask.
pub fn class_statement_asks()
    ensures { ClassStatementReads }
{}
