//! What the names in bases and annotations ask.

ghost use Rattle.pyc_unit_laws.specs.AnnotationRows.{AnnotationReads, BaseReads};

/// The bases of a class ask, in turn, what their names stand for: the first name in the module of the file, each
/// attribute of a module in that module.
pub fn base_asks()
    ensures { BaseReads }
{}

/// An annotation asks what its names stand for, from left to right. The arguments of a class of a source, of Any and of
/// what is no form are not asked, nor are those of a form that takes another number of them.
pub fn annotation_asks()
    ensures { AnnotationReads }
{}
