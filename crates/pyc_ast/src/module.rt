//! Modules, and what a source is.

use crate::stmt::Stmt;
use crate::text::Text;

/// A module: its statements, whether a `yield` or `await` stands in them outside functions, classes and lambdas, its
/// ignore comments, and whether one of them suppresses the whole file.
pub struct Module {
    pub statements: Vec<Stmt>,
    pub suspends: bool,
    pub ignores: Vec<Ignore>,
    pub whole_file: bool,
}

/// Written out: the crates above call it, where what `derive` writes would be made and proved in each of them.
impl Drop for Module {
    fn drop(self) {
        let Module {
            statements,
            suspends: _,
            ignores,
            whole_file: _,
        } = self;
        drop(statements);
        drop(ignores);
    }
}

/// An ignore comment with its physical line, counted from 1.
#[derive(Debug, Drop)]
pub struct Ignore {
    pub line: usize,
    pub codes: Codes,
}

/// Which errors an ignore comment suppresses.
#[derive(Debug, Drop)]
pub enum Codes {
    /// All of them.
    All,
    /// Those of these codes.
    Listed(Vec<Text>),
}

/// What is wrong with a source: the physical line on which it is reported, and what is reported.
#[derive(Clone, Copy, Debug, PartialEq, Eq)]
pub struct Fault {
    pub line: usize,
    pub text: &'static str,
}

/// What a source is: its module, or its first fault.
#[derive(Drop)]
pub enum Outcome {
    Tree(Module),
    Fault(Fault),
}
