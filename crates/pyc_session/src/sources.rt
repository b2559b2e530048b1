//! Where `update` gets the bytes of a path.

ghost use Rattle.std.specs.Prelude.{◌≡◌, ◌≢◌, ◌≤◌, ◌+◌, ◌-◌, ◌^◌, ℕ, List, Some, IfOk, IsErrOf, min, vec_len};
ghost use Rattle.pyc_session.specs.declared.sources.FetchFault.TheVariants.{Memory};
ghost use Rattle.pyc_session.specs.Entry.{Entry, unreadable, entry_of, fetch_fault_text};

use std::alloc::{AllocError, Global};
use std::error::Error;
use std::fmt;

/// Why a source hands over no bytes.
#[derive(Clone, Copy, Debug, PartialEq, Eq)]
pub enum FetchFault {
    /// 1: the path names no file that can be read.
    Unreadable,
    /// 2: memory was refused.
    Memory,
}

impl fmt::Display for FetchFault {
    ghost output = { λ fault. Some (fetch_fault_text fault) };

    fn fmt<W: fmt::Write>(&self, f: &mut fmt::Formatter<W>) -> fmt::Result {
        f.write_str(match self {
            Self::Unreadable => "unreadable",
            Self::Memory => "out of memory",
        })
    }
}

impl Error for FetchFault {}

impl From<AllocError> for FetchFault {
    ghost from_gives = { λ _ fault. fault ≡ Memory };

    fn from(_error: AllocError) -> FetchFault {
        FetchFault::Memory
    }
}

/// How many bytes a fetch hands over at most: one more than a file may have, so that a file that is too large shows.
pub const MOST_FETCHED: usize = 1_048_577;

/// Where `update` gets the bytes of a path.
pub trait Sources {
    // How many fetches the source could not serve. The count stays at its last value, 2^64 - 1.
    ghost failures: { Self → ℕ };

    // What one fetch does: from a source, at a path, with what is handed over, to a source.
    ghost step: { Self → List ℕ → Entry → Self → Type 0 };

    /// How many fetches were answered `Unreadable`. The number stays at its last value, 2^64 - 1.
    fn failures(&self) -> u64
        ensures { result ≡ failures self.now };

    /// The first bytes of the file at `path`, `MOST_FETCHED` of them at most.
    fn fetch(&mut self, alloc: Global, path: &str) -> Result<Vec<u8>, FetchFault>
        ensures step { step self.old path.now (entry_of result) self.new }
        ensures most { IfOk result (λ bytes. vec_len bytes ≤ MOST_FETCHED) }
        ensures unreadable { IsErrOf result FetchFault.Unreadable → failures self.new
            ≡ min (failures self.old + 1) (2 ^ 64 - 1) }
        // No other answer is counted.
        ensures others { entry_of result ≢ unreadable → failures self.new ≡ failures self.old };
}
