//! The law that no expression of a source is higher than expressions are read deep, proved for all sources.

ghost use Rattle.pyc_height_laws.specs.Laws.{ModulesAreLow};

/// In a source that is a module no expression is higher than expressions are read deep, wherever it stands.
pub fn modules_are_low()
    ensures { ModulesAreLow }
{}
