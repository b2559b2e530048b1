//! What an attribute asks.

ghost use Rattle.pyc_expression_laws.specs.AttributeRows.{ClassObjectAttributeReads, InstanceAttributeReads};
ghost use Rattle.pyc_expression_laws.specs.AttributeRows.{ModuleAttributeReads, SingleAttributeReads};
ghost use Rattle.pyc_expression_laws.specs.AttributeRows.{UnionAttributeReads, ValueAttributeReads};

/// An attribute of a module asks just what the name stands for there, and where that may be hidden whether the module
/// passes the name on; nothing of a fixed module, nor where the name has two underscores at both ends.
pub fn module_attribute_asks()
    ensures { ModuleAttributeReads }
{}

/// An attribute of an instance of a class of a source asks the member of that name. Where it is absent, and the name
/// has not two underscores at both ends, it asks the order of the class, and where that is known `__getattr__`.
pub fn instance_attribute_asks()
    ensures { InstanceAttributeReads }
{}

/// An attribute of a class object of a class of a source asks the member of that name. Where it is absent, and the name
/// has not two underscores at both ends, it asks the order of the class.
pub fn class_object_attribute_asks()
    ensures { ClassObjectAttributeReads }
{}

/// An attribute of anything else that is no union asks nothing.
pub fn single_attribute_asks()
    ensures { SingleAttributeReads }
{}

/// An attribute of a union asks what those of its items ask, in turn.
pub fn union_attribute_asks()
    ensures { UnionAttributeReads }
{}

/// An attribute of a value asks what its type says.
pub fn value_attribute_asks()
    ensures { ValueAttributeReads }
{}
