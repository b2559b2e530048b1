//! The trees of Python source as plain values and as values of the code, and what the grammar says of them.
#![tactic(auto)]

mod block;
mod display_kind;
mod line;
mod list_context;
mod statement;
mod tree;

pub use block::{After, CompoundClause, Decorator, Form, Next, Placed, Stmt, Suite};
pub use display_kind::DisplayKind;
pub use line::{Header, Line};
pub use list_context::ListContext;
pub use statement::{
    Alias, Assigned, Dotted, DottedPart, ImportFrom, ImportedModule, ImportedName, Item, Separated,
    SimpleStatement, Source,
};
pub use tree::{Comprehension, Expr, Link, Piece, Pieces, Tail};
