//! Keys that are held, and keys that are sought.

ghost use Rattle.std.specs.Prelude.{◌≡◌};
ghost use Rattle.pyc_reading.specs.KeyView.{key_of};

use pyc_reading::Key;
use std::hash::{Hash, Hasher};
use std::marker::Model;
use std::rc::Rc;

/// A key that is held or sought, as one of a map. Contracts see the key.
#[derive(Debug, Drop)]
pub(crate) struct KnownKey<'a> {
    place: KeySource<'a>,
}

/// Where a key stands.
#[derive(Debug, Drop)]
pub(crate) enum KeySource<'a> {
    /// It is held, and shared by those that hold it.
    Held(Rc<Key>),
    /// It is sought.
    Sought(&'a Key),
}

impl<'a> Model for KnownKey<'a> {
    ghost use Rattle.pyc_reading.specs.Keys.{Key};
    ghost use Rattle.pyc_keys.specs.KnownKeyView.{key_at_place};

    ghost Value = { Key };

    ghost view = { λ known. key_at_place known.place };
}

impl<'a> KnownKey<'a> {
    /// A key that is sought.
    pub(crate) fn sought(key: &'a Key) -> KnownKey<'a>
        ensures { result ≡ key_of key.now }
    {
        KnownKey {
            place: KeySource::Sought(key),
        }
    }

    /// A key that is held.
    pub(crate) fn held(key: Rc<Key>) -> KnownKey<'a>
        ensures { result ≡ key_of key.value }
    {
        KnownKey {
            place: KeySource::Held(key),
        }
    }

    /// The key.
    pub(crate) fn key(&self) -> &Key
        ensures { key_of result.now ≡ self.now }
    {
        match &self.place {
            KeySource::Held(key) => key,
            KeySource::Sought(key) => key,
        }
    }
}

impl PartialEq for KnownKey<'_> {
    ghost use Rattle.std.specs.Cmp.{partial_equiv_from_equiv};
    ghost use Rattle.pyc_keys.specs.KeyEquality.{is_asked, is_asked_equiv};

    ghost eq = { is_asked };

    ghost laws = { partial_equiv_from_equiv is_asked_equiv };

    /// Whether both are one key. Takes no memory.
    fn eq(&self, other: &KnownKey<'_>) -> bool {
        match (other.key(), self.key()) {
            (Key::HasModule(a), Key::HasModule(b)) => a == b,
            (Key::HasName(a), Key::HasName(b)) => a.is_same(b),
            (Key::Name(a), Key::Name(b)) => a.is_same(b),
            (Key::Class(a), Key::Class(b)) => a == b,
            (Key::Member(a), Key::Member(b)) => a.is_same(b),
            (Key::Export(a), Key::Export(b)) => a.is_same(b),
            _ => false,
        }
    }
}

impl Eq for KnownKey<'_> {
    ghost use Rattle.pyc_keys.specs.KeyEquality.{is_asked_equiv};

    ghost laws = { is_asked_equiv };
}

impl Hash for KnownKey<'_> {
    ghost use Rattle.pyc_keys.specs.KeyHash.{key_input, same_key_fed};

    ghost hash_input = { key_input };

    ghost respects_eq = { same_key_fed };

    fn hash<H: Hasher>(&self, state: &mut H) {
        match self.key() {
            Key::HasModule(module_path) => module_path.parts().hash(state),
            Key::HasName(name) | Key::Name(name) | Key::Export(name) => {
                name.module_path.parts().hash(state);
                name.name.hash(state);
            }
            Key::Class(class) => class.hash(state),
            Key::Member(member) => {
                member.class.hash(state);
                member.name.hash(state);
            }
        }
    }
}
