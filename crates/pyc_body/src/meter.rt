//! Which units were checked.

ghost use Rattle.std.specs.Prelude.{◌≡◌, [], length};

use pyc_names::SourceFile;
use std::alloc::Global;
use std::marker::Model;
use std::rc::Rc;

/// The units that were checked, in turn. Contracts see what names them: the path of the file of each, and its number.
#[derive(Drop)]
pub struct Meter {
    pub(crate) units: Vec<MeteredUnit>,
}

/// A unit that was checked.
#[derive(Drop)]
pub(crate) struct MeteredUnit {
    pub(crate) file: Rc<SourceFile>,
    pub(crate) index: usize,
}

impl Model for Meter {
    ghost use Rattle.std.specs.Prelude.{List, map};
    ghost use Rattle.pyc_body.specs.FileUnits.{UnitId};
    ghost use Rattle.pyc_body.specs.FileUnitView.{metered_in};

    ghost Value = { List UnitId };

    ghost view = { λ meter. map metered_in meter.units.items };
}

impl Meter {
    /// A meter of no unit. It takes no memory.
    pub fn new(alloc: Global) -> Meter
        ensures { result ≡ [] }
    {
        Meter {
            units: Vec::new(alloc),
        }
    }

    /// How many units were checked.
    pub fn len(&self) -> usize
        ensures { result ≡ length self.now }
    {
        self.units.len()
    }
}
