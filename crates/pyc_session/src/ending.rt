//! How a session ends, or what stops it.

ghost use Rattle.std.specs.Prelude.{◌≡◌, Some};
ghost use Rattle.pyc_session.specs.Ending.{run_fault_text};

use std::error::Error;
use std::fmt;

/// How a session ends.
#[derive(Clone, Copy, Debug, PartialEq, Eq)]
pub enum End {
    /// `stop` was answered.
    Stopped,
    /// The input ended after a whole command.
    EndOfInput,
    /// The input ended inside the bytes of a file, or announced more bytes than any file may have.
    Broken,
}

/// Why a session stopped in the middle.
#[derive(Clone, Copy, Debug, PartialEq, Eq)]
pub enum RunFault {
    /// The reader answered a fault.
    Read,
    /// The writer answered a fault, or took no byte.
    Write,
    /// The reader was called as often as the options allow, and did not end.
    TooManyTurns,
    /// The buffers could not be made. Nothing was read or written.
    Memory,
}

impl RunFault {
    /// The text that reports it.
    pub fn text(self) -> &'static str
        ensures { result.now ≡ run_fault_text self }
    {
        match self {
            RunFault::Read => "the input cannot be read",
            RunFault::Write => "the output cannot be written",
            RunFault::TooManyTurns => "the input does not end",
            RunFault::Memory => "out of memory",
        }
    }
}

impl fmt::Display for RunFault {
    ghost output = { λ fault. Some (run_fault_text fault) };

    fn fmt<W: fmt::Write>(&self, f: &mut fmt::Formatter<W>) -> fmt::Result {
        f.write_str(self.text())
    }
}

impl Error for RunFault {}
