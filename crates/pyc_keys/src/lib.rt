//! Keys and names by number: numbers are equal exactly where keys, or texts, are.
#![tactic(auto)]

mod copies;
mod key_id;
mod key_table;
mod keys;
mod known_key;
mod marks;
mod name_id;
mod names;
mod read_set;

pub use key_id::KeyId;
pub use keys::{InternedKeys, Keys};
pub use name_id::NameId;
pub use names::Names;
pub use read_set::ReadSet;
