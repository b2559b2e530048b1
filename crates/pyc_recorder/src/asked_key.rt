//! Keys that were asked.

ghost use Rattle.std.specs.Prelude.{◌≡◌};
ghost use Rattle.pyc_reading.specs.KeyView.{key_of};

use pyc_reading::Key;
use std::hash::{Hash, Hasher};
use std::marker::Model;

/// A key that was asked, as one of a map. Contracts see the key.
#[derive(Debug, Drop)]
pub(crate) struct AskedKey {
    key: Key,
}

impl Model for AskedKey {
    ghost use Rattle.pyc_reading.specs.Keys.{Key};
    ghost use Rattle.pyc_reading.specs.KeyView.{key_of};

    ghost Value = { Key };

    ghost view = { λ asked. key_of asked.key };
}

impl AskedKey {
    /// A key that was asked.
    pub(crate) fn new(key: Key) -> AskedKey
        ensures { result ≡ key_of key }
    {
        AskedKey { key }
    }

    /// The key, by itself.
    pub(crate) fn into_key(self) -> Key
        ensures { key_of result ≡ self }
    {
        self.key
    }

    /// The key.
    pub(crate) fn key(&self) -> &Key
        ensures { key_of result.now ≡ self.now }
    {
        &self.key
    }
}

impl PartialEq for AskedKey {
    ghost use Rattle.std.specs.Cmp.{partial_equiv_from_equiv};
    ghost use Rattle.pyc_keys.specs.KeyEquality.{is_asked, is_asked_equiv};

    ghost eq = { is_asked };

    ghost laws = { partial_equiv_from_equiv is_asked_equiv };

    /// Whether both are one key. Takes no memory.
    fn eq(&self, other: &AskedKey) -> bool {
        match (&other.key, &self.key) {
            (Key::HasModule(a), Key::HasModule(b)) => a == b,
            (Key::HasName(a), Key::HasName(b)) => a.is_same(b),
            (Key::Name(a), Key::Name(b)) => a.is_same(b),
            (Key::Class(a), Key::Class(b)) => a == b,
            (Key::Member(a), Key::Member(b)) => a.is_same(b),
            (Key::Export(a), Key::Export(b)) => a.is_same(b),
            _ => false,
        }
    }
}

impl Eq for AskedKey {
    ghost use Rattle.pyc_keys.specs.KeyEquality.{is_asked_equiv};

    ghost laws = { is_asked_equiv };
}

impl Hash for AskedKey {
    ghost use Rattle.pyc_keys.specs.KeyHash.{key_input, same_key_fed};

    ghost hash_input = { key_input };

    ghost respects_eq = { same_key_fed };

    fn hash<H: Hasher>(&self, state: &mut H) {
        match &self.key {
            Key::HasModule(module_path) => module_path.parts().hash(state),
            Key::HasName(name) | Key::Name(name) | Key::Export(name) => {
                name.module_path.parts().hash(state);
                name.name.hash(state);
            }
            Key::Class(class) => class.hash(state),
            Key::Member(member) => {
                member.class.hash(state);
                member.name.hash(state);
            }
        }
    }
}
