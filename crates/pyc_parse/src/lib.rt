//! The trees of the lines of a Python source, and its blocks.
#![tactic(auto)]

mod block_fault;
mod blocks;
mod file_outcome;
mod file_parser;
pub mod laws;
mod module_tree;

pub use file_outcome::{Fault, Outcome};
pub use file_parser::{lexical_fault, outcome, parse_fault};
pub use module_tree::{Module, parse};
pub use pyc_line::{ParseFault, What, parse_line};
pub use pyc_tree::{
    Alias, Assigned, CompoundClause, Comprehension, Decorator, DisplayKind, Dotted, DottedPart,
    Expr, Header, ImportFrom, ImportedModule, ImportedName, Item, Line, Link, ListContext, Piece,
    Pieces, Placed, Separated, SimpleStatement, Source, Stmt, Suite, Tail,
};
