//! What the names of files declare: the kinds of things, their types, and the classes, read by kinds alone.
#![tactic(auto)]

mod alias;
mod answers;
mod class_entries;
mod declaration_recorder;
mod declarations;
mod declared_types;
mod exports;
mod keys;
mod kinds;
pub mod laws;
mod looking;
mod presence;

pub use answers::Answers;
pub use class_entries::note_fixed;
pub use declaration_recorder::DeclarationRecorder;
pub use declarations::Declarations;
pub use declared_types::{initialiser_type, literal_type};
pub use kinds::own_class;
