//! Laws of the orders of classes by the bases that are written, proved for all declared classes.

ghost use Rattle.pyc_class_laws.specs.ClassLaws.{HoldsAncestors, KeepsWrittenBases, KnowsWrittenBases};
ghost use Rattle.pyc_class_laws.specs.ClassLaws.{SingleBasesMakeALine};
ghost use Rattle.pyc_class_laws.specs.KnownMros.{HoldsC3Merge, KnowsWhereBasesMerge};

/// In a known order the written bases of the class, or `object` where none is written, stand in the sequence in which
/// they are written. Each of them is a class whose instances have the plain form, and whose order is known too.
pub fn written_bases_kept()
    ensures sequence { KeepsWrittenBases }
    ensures known { KnowsWrittenBases }
{}

/// A known order holds exactly its class and the ancestors of it: what going from a class to its written bases, one or
/// more times, comes to.
pub fn ancestors_held()
    ensures { HoldsAncestors }
{}

/// In a known order in which each class is written with at most one base, of each two classes one stands in the order
/// of the other.
pub fn single_bases_in_line()
    ensures { SingleBasesMakeALine }
{}

/// The order of a class is known exactly where the class has a merge. The class is then declared or builtin, and no
/// ancestor of itself. Each of its written bases is a class of known order, whose instances have the plain form. The
/// orders of the bases have a merge with the bases as they are written: a row of just their classes, each once, that
/// keeps each of them in its own sequence.
pub fn known_where_merged()
    ensures { KnowsWhereBasesMerge }
{}

/// A known order is its class before the merge of C3, whose rows are the orders of the written bases, and last these
/// bases. The first head that stands in no tail comes next, and is removed from every row, until all rows are empty.
pub fn c3_merge_held()
    ensures { HoldsC3Merge }
{}
