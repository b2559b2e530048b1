//! Why a source has no logical lines.

ghost use Rattle.std.specs.Prelude.{◌≡◌, Some};
ghost use Rattle.pyc_lex.specs.declared.fault.LexFault.TheVariants.{Memory};
ghost use Rattle.pyc_lex.specs.Fault.{fault_text};

use std::alloc::AllocError;
use std::error::Error;
use std::fmt;

/// The first lexical fault of a source, with its physical line from 1, or the want of memory.
#[derive(Clone, Copy, Debug, PartialEq, Eq)]
pub enum LexFault {
    /// The source is not UTF-8.
    NotUtf8,
    /// A character that begins no token.
    BadCharacter(usize),
    /// A string that the source ends in, or its line where it has one quote, or an f-string with an open field; at its
    /// first line.
    OpenString(usize),
    /// A closing bracket that matches nothing, or the innermost of those that are left open.
    Bracket(usize),
    /// A line whose indent is none of those around it.
    Dedent(usize),
    /// A line whose indent compares otherwise with those around it where a tab is one column wide.
    Tabs(usize),
    /// More than 64 indents above the first, or more than 64 open brackets.
    Deep(usize),
    /// A growth was refused; this says nothing of the source.
    Memory,
}

impl fmt::Display for LexFault {
    ghost output = { λ fault. Some (fault_text fault) };

    fn fmt<W: fmt::Write>(&self, f: &mut fmt::Formatter<W>) -> fmt::Result {
        match self {
            LexFault::NotUtf8 => write!(f, "source is not UTF-8"),
            LexFault::BadCharacter(line) => write!(f, "invalid character on line {line}"),
            LexFault::OpenString(line) => write!(f, "unterminated string literal on line {line}"),
            LexFault::Bracket(line) => write!(f, "unmatched bracket on line {line}"),
            LexFault::Dedent(line) => write!(
                f,
                "unindent does not match any outer indentation level on line {line}"
            ),
            LexFault::Tabs(line) => write!(
                f,
                "inconsistent use of tabs and spaces in indentation on line {line}"
            ),
            LexFault::Deep(line) => write!(f, "too deeply nested on line {line}"),
            LexFault::Memory => write!(f, "out of memory"),
        }
    }
}

impl Error for LexFault {}

impl From<AllocError> for LexFault {
    ghost from_gives = { λ _ fault. fault ≡ Memory };

    fn from(_error: AllocError) -> LexFault {
        LexFault::Memory
    }
}
