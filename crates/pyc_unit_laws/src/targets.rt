//! What targets ask, and names where they stand in a body.

ghost use Rattle.pyc_unit_laws.specs.TargetRows.{AttributeTargetReads, BodyNameReads, BodyTargetReads};
ghost use Rattle.pyc_unit_laws.specs.TargetRows.{NameTargetReads, SubscriptTargetReads};

/// A subscript that is assigned to asks for each item of the type in turn, where that is an instance of a class of a
/// source, the order of the class, and where that is known `__setitem__`; of a list or a dictionary what is required of
/// the index; of any other item nothing.
pub fn subscript_target_asks()
    ensures { SubscriptTargetReads }
{}

/// An attribute that is assigned to asks what it asks where it is read, for each item of the type in turn.
pub fn attribute_target_asks()
    ensures { AttributeTargetReads }
{}

/// A name of a module that is assigned to asks what it stands for; nothing where an import, a function or a class
/// declares it, nor in a file that is named as a fixed module.
pub fn name_target_asks()
    ensures { NameTargetReads }
{}

/// A local asks nothing. A name that the body of a class binds asks what the class has under it; without a declared
/// class nothing. Every other name asks as at the top level.
pub fn body_name_asks()
    ensures { BodyNameReads }
{}

/// A name that is assigned to in a body asks in the same way; nothing where an import, a function or a class declares
/// it.
pub fn body_target_asks()
    ensures { BodyTargetReads }
{}
