//! What imports ask.

ghost use Rattle.pyc_unit_laws.specs.ImportRows.{ClassImportReads, HeaderReads, ImportReads};
ghost use Rattle.pyc_unit_laws.specs.ImportRows.{LocalImportReads};

/// An import at the top level of a module asks whether each of its modules, or each of its names, is there, and of a
/// name that is there whether its module passes it on. It asks nothing of a fixed module, nor above the root.
pub fn import_asks()
    ensures { ImportReads }
{}

/// An import in the body of a class asks what one at the top level asks.
pub fn class_import_asks()
    ensures { ClassImportReads }
{}

/// An import in the body of a function asks what one at the top level asks, and of each name of a module then what it
/// stands for.
pub fn local_import_asks()
    ensures { LocalImportReads }
{}

/// The header of a file asks what its imports ask, and then of each name that a from-import declares, in text order,
/// whether the file has it: a name on a ring has it not.
pub fn header_asks()
    ensures { HeaderReads }
{}
