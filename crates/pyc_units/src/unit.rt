//! Units of a file.

use pyc_ast::Stmt;

/// A part of a file that is examined by itself: the path of the file, and which of its units it is, counted from 0.
/// Unit 0 is the header, unit 1 the body of the module; its classes, functions and methods follow in text order.
#[derive(Clone, Copy, Debug, PartialEq, Eq)]
pub struct UnitId<'a> {
    pub path: &'a str,
    pub index: usize,
}

/// What a unit of a file is.
#[derive(Clone, Copy, Drop)]
pub enum Unit<'a> {
    /// The imports at module level, and the names that are defined again.
    Header,
    ModuleBody,
    /// A function or a class of the top level.
    Definition(&'a Stmt),
    /// The class statement in whose body a method stands, and the method.
    Method(&'a Stmt, &'a Stmt),
}
