//! What the parts of units ask: files alone, whatever is answered.

ghost use Rattle.pyc_unit_laws.specs.FileKeys.{AnnotationAsksFiles, AttributeTargetAsksFiles, BodyNameAsksFiles};
ghost use Rattle.pyc_unit_laws.specs.FileKeys.{BodyTargetAsksFiles, ClassAsksFiles, ClassImportAsksFiles};
ghost use Rattle.pyc_unit_laws.specs.FileKeys.{HeadAsksFiles, HeaderAsksFiles, SubclassAsksFiles, ImportAsksFiles};
ghost use Rattle.pyc_unit_laws.specs.FileKeys.{LocalImportAsksFiles, NameTargetAsksFiles};
ghost use Rattle.pyc_unit_laws.specs.FileKeys.{SubscriptTargetAsksFiles};

/// The header of a file, the head of a class statement, its members, annotations and the head of a function ask files
/// alone, whatever is answered.
pub fn heads_ask_files()
    ensures header { HeaderAsksFiles }
    ensures class { ClassAsksFiles }
    ensures members { SubclassAsksFiles }
    ensures annotation { AnnotationAsksFiles }
    ensures function { HeadAsksFiles }
{}

/// Subscripts, attributes and names of modules that are assigned to ask files alone, whatever is answered.
pub fn targets_ask_files()
    ensures subscript { SubscriptTargetAsksFiles }
    ensures attribute { AttributeTargetAsksFiles }
    ensures name { NameTargetAsksFiles }
{}

/// Imports ask files alone, wherever they stand. So do names in bodies, where they are read and where they are assigned
/// to.
pub fn bodies_ask_files()
    ensures import { ImportAsksFiles }
    ensures class_import { ClassImportAsksFiles }
    ensures local_import { LocalImportAsksFiles }
    ensures name { BodyNameAsksFiles }
    ensures target { BodyTargetAsksFiles }
{}
