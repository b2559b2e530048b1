//! The trees of blocks, and where their lines stand.

use crate::line::{Header, Line};
use crate::statement::{Separated, SimpleStatement};
use crate::tree::Expr;
use pyc_token::Token;

/// A logical line, how many levels above the first it stands, and the number of the physical line where it begins.
#[derive(Drop)]
pub struct Placed {
    pub indent: usize,
    pub number: usize,
    pub line: Line,
}

/// `@` and an expression.
#[derive(Drop)]
pub struct Decorator {
    pub mark: Token,
    pub value: Box<Expr>,
}

/// A statement of a block.
#[cycle(block)]
pub enum Stmt {
    /// Simple statements on one line.
    Simple(Separated<SimpleStatement>),
    /// Decorators, the first clause, and those after it.
    Compound(Vec<Decorator>, Box<CompoundClause>, Vec<CompoundClause>),
}

/// Written out: the crates above call it, where what `derive` writes would be made and proved in each of them.
impl Drop for Stmt {
    #[cycle(block)]
    fn drop(self) {
        match self {
            Stmt::Simple(part) => drop(part),
            Stmt::Compound(part0, part1, part2) => {
                drop(part0);
                drop(part1);
                drop(part2);
            }
        }
    }
}

/// A header, its colon, and what it heads.
#[cycle(block)]
pub struct CompoundClause {
    pub header: Box<Header>,
    pub colon: Token,
    pub suite: Suite,
}

/// Written out: the crates above call it, where what `derive` writes would be made and proved in each of them.
impl Drop for CompoundClause {
    #[cycle(block)]
    fn drop(self) {
        let CompoundClause {
            header,
            colon: _,
            suite,
        } = self;
        drop(header);
        drop(suite);
    }
}

/// What a header heads.
#[cycle(block)]
pub enum Suite {
    /// Simple statements on the header's line.
    Inline(Separated<SimpleStatement>),
    /// The statements of a deeper block.
    Block(Vec<Stmt>),
}

/// Written out: the crates above call it, where what `derive` writes would be made and proved in each of them.
impl Drop for Suite {
    #[cycle(block)]
    fn drop(self) {
        match self {
            Suite::Inline(part) => drop(part),
            Suite::Block(part) => drop(part),
        }
    }
}

/// Which clause a header begins.
#[derive(Clone, Copy)]
pub enum Form {
    If,
    Elif,
    Else,
    While,
    For,
    Try,
    Except,
    Finally,
    With,
    /// `def` or `class`, which may be decorated.
    Definition,
}

/// After which clause of a statement a line stands.
#[derive(Clone, Copy)]
pub enum After {
    /// One that ends its statement.
    Nothing,
    /// `if` or `elif`.
    Branch,
    /// `while` or `for`.
    Loop,
    Try,
    Except,
    /// The `else` of a `try`.
    TryElse,
}

/// What the next line of a block is.
#[derive(Clone, Copy)]
pub enum Next {
    /// None: the block ends.
    End,
    /// One with a fault, at this physical line.
    Fault(usize),
    Simple,
    Decorator,
    Definition,
    /// The header of another statement, and what its first clause is to those after it.
    Header(After),
}
