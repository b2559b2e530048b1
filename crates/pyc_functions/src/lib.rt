//! Functions, the bodies of classes and modules, and names that are defined again.
#![tactic(auto)]

mod bodies;
mod ends;
mod function_names;
mod function_reader;
mod functions;
mod parameters;
mod redefined;

pub use bodies::{read_class_body, read_module_body};
pub use function_reader::FunctionReader;
pub use redefined::report_redefinitions;
