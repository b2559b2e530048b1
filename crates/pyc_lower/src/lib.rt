//! From the bytes of a source to its abstract tree.
#![tactic(auto)]

mod content;
mod expression_input;
mod ignores;
mod only_line;
mod parts;
mod read_strings;
mod reading;
mod strings;

pub use reading::read;
