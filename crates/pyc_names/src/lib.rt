//! The names of modules, and which modules are there.
#![tactic(auto)]

mod fixed;
mod hidden;
mod imports;
mod interface;
pub mod laws;
mod looks;
mod module_name;
mod outer_modules;
mod qualified_name;
mod source_file;
mod table;

pub use fixed::{FixedModule, FixedName, fixed_module, fixed_name};
pub use imports::{module_of_parts, named_module};
pub use interface::Interface;
pub use looks::Looks;
pub use module_name::{ModuleName, beside, is_stub_path};
pub use qualified_name::{QualifiedName, Referent};
pub use source_file::SourceFile;
pub use table::Table;
