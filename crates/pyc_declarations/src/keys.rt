//! The keys that were asked.

ghost use Rattle.std.specs.Prelude.{◌≡◌, map, OnOk};
ghost use Rattle.std.specs.List.{list_any};
ghost use Rattle.pyc_declarations.specs.RecorderView.{HasMore};
ghost use Rattle.pyc_declarations.specs.SameKeys.{is_same};
ghost use Rattle.pyc_reading.specs.Traces.{with_key};
ghost use Rattle.pyc_reading.specs.KeyView.{key_of};

use pyc_reading::Key;
use std::alloc::AllocError;

/// Adds a key, unless it is among these; where memory runs out, those that were there stay.
#[tactic(auto, unfolding(crate::specs::SameKeys::is_same))]
pub(crate) fn note(keys: &mut Vec<Key>, key: Key) -> Result<(), AllocError>
    ensures noted { OnOk result (map key_of keys.new.items ≡ with_key (map key_of keys.old.items) (key_of key)) }
    ensures more { HasMore (map key_of keys.old.items) (map key_of keys.new.items) }
{
    if !is_among(keys, &key) {
        keys.push(key)?;
    }
    Ok(())
}

/// Whether a key is among these.
fn is_among(keys: &[Key], key: &Key) -> bool
    ensures { result ≡ list_any (λ other. is_same other (key_of key.now)) (map key_of keys.now) }
{
    for other in keys {
        if is_same(other, key) {
            return true;
        }
    }
    false
}

/// Whether two keys are one.
#[tactic(auto, unfolding(crate::specs::SameKeys::is_same))]
fn is_same(key: &Key, other: &Key) -> bool
    ensures { result ≡ is_same (key_of key.now) (key_of other.now) }
{
    match (key, other) {
        (Key::HasModule(a), Key::HasModule(b)) => a == b,
        (Key::HasName(a), Key::HasName(b)) => a.is_same(b),
        (Key::Name(a), Key::Name(b)) => a.is_same(b),
        (Key::Class(a), Key::Class(b)) => a == b,
        (Key::Member(a), Key::Member(b)) => a.is_same(b),
        (Key::Export(a), Key::Export(b)) => a.is_same(b),
        _ => false,
    }
}
