//! Which keys were compared.

ghost use Rattle.std.specs.Prelude.{◌≡◌, [], length};

use pyc_keys::KeyId;
use std::alloc::Global;
use std::marker::Model;

/// The numbers of the keys that were compared, in turn. Contracts see the numbers.
#[derive(Drop)]
pub struct Compared {
    pub(crate) numbers: Vec<KeyId>,
}

impl Model for Compared {
    ghost use Rattle.std.specs.Prelude.{ℕ, List};

    ghost Value = { List ℕ };

    ghost view = { λ compared. compared.numbers.items };
}

impl Compared {
    /// No key was compared. It takes no memory.
    pub fn new(alloc: Global) -> Compared
        ensures { result ≡ [] }
    {
        Compared {
            numbers: Vec::new(alloc),
        }
    }

    /// How many keys were compared. The call is for users of the library: the program does not make it.
    pub fn len(&self) -> usize
        ensures { result ≡ length self.now }
    {
        self.numbers.len()
    }
}
