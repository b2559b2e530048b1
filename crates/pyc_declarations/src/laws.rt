//! Laws of what is declared, proved for all files.

ghost use Rattle.pyc_declarations.specs.CarryLaws.{DeclaredCarriesOver, EntriesCarryOver};

/// What is declared under names, and the classes that files declare, are the same among other files that are alike at
/// all that is looked at.
pub fn carry_over()
    ensures declared { DeclaredCarriesOver }
    ensures entries { EntriesCarryOver }
{}
