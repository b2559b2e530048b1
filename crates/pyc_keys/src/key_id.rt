//! Numbers of keys.

ghost use Rattle.std.specs.Prelude.{◌≡◌};

use std::marker::Model;

/// The number of a key. Contracts see the number itself.
#[derive(Clone, Copy, Debug, PartialEq, Eq, Hash)]
pub struct KeyId {
    number: usize,
}

impl Model for KeyId {
    ghost use Rattle.std.specs.Prelude.{ℕ};

    ghost Value = { ℕ };

    ghost view = { λ id. id.number };

    ghost inverse = { λ n. record { number = n } };
}

impl KeyId {
    /// The key number `number`.
    pub(crate) fn new(number: usize) -> KeyId
        ensures { result ≡ number }
    {
        KeyId { number }
    }

    /// The number itself, as an index.
    pub fn number(self) -> usize
        ensures { result ≡ self }
    {
        self.number
    }
}
