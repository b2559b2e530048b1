//! Classes as they are declared.

use pyc_class_ids::ClassId;

/// A class as it is declared: its written bases, and whether it has a member `__call__` of its own, bound in its body
/// or through an instance.
#[derive(Debug, Drop)]
pub struct ClassEntry {
    pub id: ClassId,
    pub bases: Vec<WrittenBase>,
    pub has_call: bool,
}

/// A base as it is written.
#[derive(Debug, Drop)]
pub enum WrittenBase {
    Class(ClassId),
    /// Any, or no class.
    Unknown,
}
