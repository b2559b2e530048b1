//! What whole units ask.

ghost use Rattle.pyc_unit_laws.specs.UnitKeys.{ClimbingImportAsksNothing, ClimbingImportNamesNone, UnitAsksFiles};

/// Each unit of a file asks files alone, whatever is answered: no key of a builtin class, of a member of one, of a
/// fixed module or of a name of one.
pub fn unit_asks_files()
    ensures { UnitAsksFiles }
{}

/// An import that climbs above the root, and no other, names no module, and it asks nothing, wherever it stands. A key
/// names its module by its parts from the root on, so none is of a module above the root.
pub fn climbing_import_asks_nothing()
    ensures module_path { ClimbingImportNamesNone }
    ensures keys { ClimbingImportAsksNothing }
{}
