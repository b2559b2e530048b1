//! What a call asks before its arguments.

ghost use Rattle.pyc_expression_laws.specs.CallRows.{ClassCallReads, ConstructorReads, InstanceCallReads};

/// What a class of a source takes that is called asks its order; where that is known `__new__`; where that is absent
/// `__init__`. Of a builtin class nothing is asked.
pub fn constructor_asks()
    ensures { ConstructorReads }
{}

/// A call of a class asks what the class takes, and then what matching the arguments with it asks.
pub fn class_call_asks()
    ensures { ClassCallReads }
{}

/// A call of an instance of a class of a source asks `__call__`, and then what a call of that asks; where it is absent
/// the order of the class, and then what reading the arguments asks.
pub fn instance_call_asks()
    ensures { InstanceCallReads }
{}
