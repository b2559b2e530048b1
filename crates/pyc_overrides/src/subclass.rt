//! The class whose names are read.

use pyc_bindings::Part;
use pyc_class_ids::ClassId;
use pyc_members::ClassBody;

/// A class: itself, what its body binds, the parts of the body, and its ancestors.
#[derive(Clone, Copy, Drop)]
pub(crate) struct Subclass<'a> {
    pub(crate) class: &'a ClassId,
    pub(crate) body: &'a ClassBody,
    pub(crate) parts: &'a [Part<'a>],
    pub(crate) ancestors: &'a [ClassId],
}
