//! Why lines make no blocks.

ghost use Rattle.std.specs.Prelude.{◌≡◌};
ghost use Rattle.pyc_parse.specs.declared.block_fault.BlockFault.TheVariants.{Memory};

use std::alloc::{AllocError, AllocFailed};

/// Why lines make no blocks.
#[derive(Clone, Copy, Debug, PartialEq, Eq)]
pub enum BlockFault {
    /// A line stands where it may not; this is the number of the first, counted from 1 in physical lines.
    Block(usize),
    /// A growth was refused; this says nothing of the lines.
    Memory,
}

impl From<AllocError> for BlockFault {
    ghost from_gives = { λ _ error. error ≡ Memory };

    fn from(_error: AllocError) -> BlockFault {
        BlockFault::Memory
    }
}

impl<T: Drop> From<AllocFailed<T>> for BlockFault {
    ghost from_gives = { λ _ error. error ≡ Memory };

    fn from(_refused: AllocFailed<T>) -> BlockFault {
        BlockFault::Memory
    }
}
