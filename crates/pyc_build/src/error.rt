//! Why tokens have no tree.

ghost use Rattle.std.specs.Prelude.{◌≡◌};
ghost use Rattle.pyc_build.specs.declared.error.ParseError.TheVariants.{Memory};

use std::alloc::{AllocError, AllocFailed};

/// Why a rule of the grammar gives no tree.
#[derive(Clone, Copy)]
pub enum ParseError {
    /// The tokens are none of the rule, or their tree is too high.
    Refused,
    /// A growth was refused; this says nothing of the tokens.
    Memory,
}

impl From<AllocError> for ParseError {
    ghost from_gives = { λ _ error. error ≡ Memory };

    fn from(_error: AllocError) -> ParseError {
        ParseError::Memory
    }
}

impl<T: Drop> From<AllocFailed<T>> for ParseError {
    ghost from_gives = { λ _ error. error ≡ Memory };

    fn from(_refused: AllocFailed<T>) -> ParseError {
        ParseError::Memory
    }
}
