//! What a subscript and an iteration ask.

ghost use Rattle.pyc_expression_laws.specs.ItemRows.{IterationReads, SubscriptOwnerReads, SubscriptReads};

/// What a subscript of an item of a type goes by asks the order of the class, where the item is an instance of a class
/// of a source, and where that is known `__getitem__`. Of any other item it asks nothing.
pub fn subscript_owner_asks()
    ensures { SubscriptOwnerReads }
{}

/// A subscript asks for each item of the type in turn what that goes by, and then what is required of the index:
/// nothing but where the item is, or counts as, a str, bytes or list whose index is no slice, or a dictionary.
pub fn subscript_asks()
    ensures { SubscriptReads }
{}

/// An iteration asks for each item of the type in turn, where that is an instance of a class of a source, the order of
/// the class; where that is known `__iter__`; where that is absent `__getitem__`.
pub fn iteration_asks()
    ensures { IterationReads }
{}
