//! Orders as they are kept.

ghost use Rattle.std.specs.Prelude.{◌≡◌, IfOk, List, ℕ, ◌∷◌};
ghost use Rattle.pyc_mro.specs.MroTable.{unknown_of, known};
ghost use Rattle.pyc_mro.specs.MroView.{order_in, stored_in};

use crate::orders::Mro;
use pyc_class_ids::UnknownMro;
use std::alloc::{AllocError, Global};

/// The order of a class, as it is kept.
#[derive(Debug, Drop)]
pub(crate) struct StoredMro {
    pub(crate) classes: Vec<usize>,
    pub(crate) unknown: Option<UnknownMro>,
}

impl StoredMro {
    /// The order of a class that is not known. The only error is that memory runs out.
    pub(crate) fn unknown_of(
        alloc: Global,
        class: usize,
        why: UnknownMro,
    ) -> Result<StoredMro, AllocError>
        ensures { IfOk result (λ order. stored_in order ≡ unknown_of class why) }
    {
        let mut classes = Vec::with_capacity(alloc, 1)?;
        classes.push(class)?;
        Ok(StoredMro {
            classes,
            unknown: Some(why),
        })
    }

    /// The known order of a class and what follows it. The only error is that memory runs out.
    pub(crate) fn known(class: usize, mut others: Vec<usize>) -> Result<StoredMro, AllocError>
        ensures { IfOk result (λ order. stored_in order ≡ known (class ∷ others.items)) }
    {
        others.insert(0, class)?;
        Ok(StoredMro {
            classes: others,
            unknown: None,
        })
    }

    /// This order. Takes no memory.
    pub(crate) fn as_order(&self) -> Mro<'_>
        ensures { order_in result ≡ stored_in self.now }
    {
        Mro {
            classes: self.classes.as_slice(),
            unknown: self.unknown,
        }
    }
}
