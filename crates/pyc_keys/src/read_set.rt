//! Read sets.

ghost use Rattle.std.specs.Prelude.{◌≡◌, ℕ, List};

use crate::key_id::KeyId;
use std::rc::Rc;

/// What has read keys, which it keeps by their numbers.
pub trait ReadSet {
    ghost numbers: { Self → List ℕ };

    /// The numbers of the keys.
    fn reads(&self) -> &[KeyId]
        ensures { result.now ≡ numbers self.now };
}

impl ReadSet for Vec<KeyId> {
    ghost numbers = { λ ids. ids.items };

    fn reads(&self) -> &[KeyId] {
        self.as_slice()
    }
}

impl<R: ReadSet> ReadSet for Rc<R> {
    ghost numbers = { λ shared. R.numbers shared.value };

    fn reads(&self) -> &[KeyId] {
        (**self).reads()
    }
}
