//! What is reported of imports: modules that are not there, and names that a module does not have; and to which types
//! the imports in bodies bind names.
#![tactic(auto)]

mod asking;
mod binding;
mod imports;
pub mod laws;
mod local_imports;
mod texts;

pub use asking::ask_presence;
pub use binding::bind_module_import;
pub use imports::ImportReader;
pub use local_imports::LocalImportReader;
