//! Laws of what is found in a file, proved for all files.

ghost use Rattle.pyc_body.specs.FoundLaws.{AlikeAnswersFindAlike, AlikeInterfacesFindAlike, FoundIsListed};
ghost use Rattle.pyc_body.specs.FoundLaws.{FoundWhereListed, OneListAlone, MrosAreTheFiles, ReadsAreTheList};
ghost use Rattle.pyc_body.specs.FoundLaws.{UnitsHaveTheirReads};

/// What is found in a unit depends on its file, the options and the answers to its reads, and on nothing else: where
/// the files of another world give the same answers to them, the same is found, and the same is read.
pub fn units_have_their_reads()
    ensures { UnitsHaveTheirReads }
{}

/// The reads of a unit are the one list of keys in which each is the one that is lacking over the answers to those
/// before it, and over the answers to all of which the reading of the unit comes to what it reports.
pub fn reads_are_the_list()
    ensures is { ReadsAreTheList }
    ensures only { OneListAlone }
{}

/// Where the files of another world give the same answer to each key, as they do where they have the same interfaces,
/// what is found in each unit of a file is the same, and so are its reads.
pub fn alike_worlds_find_alike()
    ensures answers { AlikeAnswersFindAlike }
    ensures interfaces { AlikeInterfacesFindAlike }
{}

/// What is found in a unit is, in order, its diagnostics, and of each row of obligations that it requires the first
/// whose type is not assignable by the written rules, over the orders of the classes of the files. A line, code and
/// text is found where one is reported so, and nowhere else.
pub fn found_is_listed()
    ensures listed { FoundIsListed }
    ensures just { FoundWhereListed }
    ensures orders { MrosAreTheFiles }
{}
