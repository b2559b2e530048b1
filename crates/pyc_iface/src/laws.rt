//! Laws of the answers, proved for all files.

ghost use Rattle.pyc_iface.specs.CarryLaws.{AnswersCarryOver, MrosCarryOver};
ghost use Rattle.pyc_iface.specs.ComparedLaws.{ComparedAreAlike, KeptFilesAreCompared};
ghost use Rattle.pyc_iface.specs.WorldLaws.{InterfacesAnswer, MrosAreOrderly};

/// The orders of the classes that files declare meet what the laws of assignability ask of orders: each known one holds
/// its class, and the order of each class in it; and those of the builtin classes are theirs.
pub fn orders_are_orderly()
    ensures { MrosAreOrderly }
{}

/// What files answer depends on their interfaces, and on nothing else: where other files have the same interfaces, they
/// give the same answer to each key.
pub fn interfaces_answer()
    ensures { InterfacesAnswer }
{}

/// An answer is the same among other files that are alike at all that is looked at for it, and the same is looked at;
/// so are all orders, where the heads of classes are the same too. Files are alike where what each of them binds,
/// declares and is was compared.
pub fn carry_over()
    ensures answers { AnswersCarryOver }
    ensures orders { MrosCarryOver }
    ensures compared { ComparedAreAlike }
    ensures kept { KeptFilesAreCompared }
{}
