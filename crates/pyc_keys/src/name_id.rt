//! Numbers of names.

ghost use Rattle.std.specs.Prelude.{◌≡◌};

use std::marker::Model;

/// The number of a name. Contracts see the number itself. It is for users of the library: the program has none.
#[derive(Clone, Copy, Debug, PartialEq, Eq, Hash)]
pub struct NameId {
    number: usize,
}

impl Model for NameId {
    ghost use Rattle.std.specs.Prelude.{ℕ};

    ghost Value = { ℕ };

    ghost view = { λ id. id.number };

    ghost inverse = { λ n. record { number = n } };
}

impl NameId {
    /// The name number `number`.
    pub(crate) fn new(number: usize) -> NameId
        ensures { result ≡ number }
    {
        NameId { number }
    }

    /// The number itself, as an index.
    pub fn number(self) -> usize
        ensures { result ≡ self }
    {
        self.number
    }
}
