//! The order of each class.

ghost use Rattle.std.specs.Prelude.{◌≡◌};
ghost use Rattle.std.specs.List.{list_any};
ghost use Rattle.pyc_class_ids.specs.Class.{Id, builtin, same_class};
ghost use Rattle.pyc_class_ids.specs.Mro.{Mro, order_of, order_contains, is_unknown};

use crate::{BuiltinClass, ClassId};

/// The order of a class: itself first, then its ancestors in method resolution order; why the order is not known, if it
/// is not; and whether an instance of the class can be called.
#[derive(Clone, Copy, Debug)]
pub struct Lin<'a> {
    pub classes: &'a [ClassId],
    pub unknown: Option<UnknownMro>,
    pub has_call: bool,
}

/// Why the order of a class is not known.
#[derive(Clone, Copy, Debug, PartialEq, Eq)]
pub enum UnknownMro {
    /// A base is not a class of known order.
    Base,
    /// The class is its own ancestor.
    Cycle,
    /// The orders of the bases have no merge.
    Merge,
}

impl Lin<'_> {
    /// Whether the order is not known.
    pub fn is_unknown(&self) -> bool
        ensures { result ≡ is_unknown (order_of self.now) }
    {
        self.unknown.is_some()
    }

    /// Whether the class stands in this order. Takes no memory.
    pub fn contains(&self, class: &ClassId) -> bool
        ensures { result ≡ order_contains (order_of self.now) class.now }
    {
        self.classes.iter().any(|other| other == class)
    }

    /// Whether that builtin class stands in this order. Takes no memory.
    pub fn contains_builtin(&self, class: BuiltinClass) -> bool
        ensures { result ≡ order_contains (order_of self.now) (builtin class) }
    {
        self.classes.iter().any(|other| other.is_builtin(class))
    }
}

/// What knows the order of each class.
pub trait Lins {
    ghost orders: { Self → Id → Mro };

    /// The order of a class: the same one each time.
    fn lin(&self, class: &ClassId) -> Lin<'_>
        ensures { order_of result ≡ orders self.now class.now };
}
