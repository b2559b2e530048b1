//! Keys once more.

ghost use Rattle.std.specs.Prelude.{◌≡◌, IfOk};
ghost use Rattle.pyc_reading.specs.KeyView.{key_of};

use pyc_reading::{Key, MemberName};
use std::alloc::AllocError;

/// A key once more, whose texts are shared. The only error is that memory runs out.
pub(crate) fn copy_of(key: &Key) -> Result<Key, AllocError>
    ensures { IfOk result (λ copy. key_of copy ≡ key_of key.now) }
{
    Ok(match key {
        Key::HasModule(module_path) => Key::HasModule(module_path.clone()?),
        Key::HasName(name) => Key::HasName(name.clone()?),
        Key::Name(name) => Key::Name(name.clone()?),
        Key::Class(class) => Key::Class(class.clone()?),
        Key::Member(member) => Key::Member(MemberName {
            class: member.class.clone()?,
            name: member.name.clone()?,
        }),
        Key::Export(name) => Key::Export(name.clone()?),
    })
}
