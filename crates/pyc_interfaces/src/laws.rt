//! Laws of interfaces, proved for all files.

ghost use Rattle.pyc_interfaces.specs.CarryLaws.{ChangedLooksAreAll, FilesCarryOver, PositionsChangeNoEntry};
ghost use Rattle.pyc_interfaces.specs.CarryLaws.{PositionsChangeNoLook, SharedClassesCarryOver};
ghost use Rattle.pyc_interfaces.specs.InterfaceLaws.{AlikeFilesAnswerAlike, PositionsChangeNoAnswer};

/// Interfaces answer each key as they do without positions, and without what else no answer looks at.
pub fn positions_change_no_answer()
    ensures { PositionsChangeNoAnswer }
{}

/// Files whose interfaces are the same but for these give the same answers.
pub fn alike_files_answer_alike()
    ensures { AlikeFilesAnswerAlike }
{}

/// Positions change nothing that is looked at. So an answer is the same among other files that are alike without their
/// positions at all that is looked at for it, and the same is looked at.
pub fn carry_over()
    ensures looks { PositionsChangeNoLook }
    ensures entries { PositionsChangeNoEntry }
    ensures files { FilesCarryOver }
{}

/// An answer is the same among later files, and the same is looked at, where nothing is looked at for it of what is
/// listed between the files and the later ones. All orders are the same where nothing is looked at for the classes of
/// what is listed of modules, and the heads of the classes count alike.
pub fn changed_looks_are_all()
    ensures all { ChangedLooksAreAll }
    ensures shared { SharedClassesCarryOver }
{}
