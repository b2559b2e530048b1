//! Statements and blocks.

use crate::expr::{Argument, Expr};
use crate::operator::Operator;
use crate::parameter::Parameter;
use crate::position::Position;
use crate::target::Target;
use crate::text::Text;
use std::rc::Rc;

/// A statement and where it begins; a function or class under decorators begins at its own first word.
#[cycle(stmt)]
pub struct Stmt {
    pub at: Position,
    pub form: StmtForm,
}

/// Written out: the crates above call it, where what `derive` writes would be made and proved in each of them.
impl Drop for Stmt {
    #[cycle(stmt)]
    fn drop(self) {
        let Stmt { at: _, form } = self;
        drop(form);
    }
}

/// What a statement is. Whatever a binding speaks of is shared, so that it may be kept apart from its tree.
#[cycle(stmt)]
pub enum StmtForm {
    Expression(Expr),
    /// The targets from left to right, and the value.
    Assign {
        targets: Vec<Target>,
        value: Rc<Expr>,
    },
    Annotate(Rc<AnnotatedAssignment>),
    Augment(Box<AugmentedAssignment>),
    Return(Option<Box<Expr>>),
    Raise {
        exception: Option<Box<Expr>>,
        cause: Option<Box<Expr>>,
    },
    Assert {
        test: Box<Expr>,
        message: Option<Box<Expr>>,
    },
    Delete(Box<Target>),
    Pass,
    Break,
    Continue,
    Global(Vec<Text>),
    Nonlocal(Vec<Text>),
    Import(Vec<Rc<ImportedModule>>),
    ImportFrom(Rc<ImportFrom>),
    /// `if` and each `elif`; what stands after `else` is empty where there is none.
    If {
        branches: Vec<Branch>,
        orelse: Block,
    },
    While {
        test: Box<Expr>,
        body: Block,
        orelse: Block,
    },
    For {
        head: Box<For>,
        body: Block,
        orelse: Block,
    },
    /// What stands after `else` and `finally` is empty where there is none.
    Try {
        body: Block,
        handlers: Vec<Handler>,
        orelse: Block,
        finally: Block,
    },
    With {
        is_async: bool,
        items: Vec<WithItem>,
        body: Block,
    },
    Function {
        head: Rc<FunctionDefinition>,
        body: Block,
    },
    Class {
        head: Rc<ClassDefinition>,
        body: Block,
    },
}

/// Written out: the crates above call it, where what `derive` writes would be made and proved in each of them.
impl Drop for StmtForm {
    #[cycle(stmt)]
    fn drop(self) {
        match self {
            StmtForm::Expression(part) => drop(part),
            StmtForm::Assign { targets, value } => drop((targets, value)),
            StmtForm::Annotate(part) => drop(part),
            StmtForm::Augment(part) => drop(part),
            StmtForm::Return(part) => drop(part),
            StmtForm::Raise { exception, cause } => drop((exception, cause)),
            StmtForm::Assert { test, message } => drop((test, message)),
            StmtForm::Delete(part) => drop(part),
            StmtForm::Global(part) => drop(part),
            StmtForm::Nonlocal(part) => drop(part),
            StmtForm::Import(part) => drop(part),
            StmtForm::ImportFrom(part) => drop(part),
            StmtForm::If { branches, orelse } => {
                drop(branches);
                drop(orelse);
            }
            StmtForm::While { test, body, orelse } => {
                drop(test);
                drop(body);
                drop(orelse);
            }
            StmtForm::For { head, body, orelse } => {
                drop(head);
                drop(body);
                drop(orelse);
            }
            StmtForm::Try {
                body,
                handlers,
                orelse,
                finally,
            } => {
                drop(body);
                drop(handlers);
                drop(orelse);
                drop(finally);
            }
            StmtForm::With {
                is_async: _,
                items,
                body,
            } => {
                drop(items);
                drop(body);
            }
            StmtForm::Function { head, body } => {
                drop(head);
                drop(body);
            }
            StmtForm::Class { head, body } => {
                drop(head);
                drop(body);
            }
            StmtForm::Pass | StmtForm::Break | StmtForm::Continue => {}
        }
    }
}

/// Statements one after another.
#[cycle(stmt)]
pub enum Block {
    Of(Vec<Stmt>),
}

/// Written out: the crates above call it, where what `derive` writes would be made and proved in each of them.
impl Drop for Block {
    #[cycle(stmt)]
    fn drop(self) {
        match self {
            Block::Of(part) => drop(part),
        }
    }
}

/// `if` or `elif`, its test and its block.
#[cycle(stmt)]
#[derive(Drop)]
pub struct Branch {
    pub at: Position,
    pub test: Expr,
    pub body: Block,
}

/// `except`, what it catches, the name that is bound, and its block.
#[cycle(stmt)]
#[derive(Drop)]
pub struct Handler {
    pub at: Position,
    pub caught: Option<Expr>,
    pub name: Option<Text>,
    pub body: Block,
}

/// `target: annotation`, perhaps with `= value`.
pub struct AnnotatedAssignment {
    pub target: Target,
    pub annotation: Expr,
    pub value: Option<Expr>,
}

/// Written out: the crates above call it, where what `derive` writes would be made and proved in each of them.
impl Drop for AnnotatedAssignment {
    fn drop(self) {
        let AnnotatedAssignment {
            target,
            annotation,
            value,
        } = self;
        drop(target);
        drop(annotation);
        drop(value);
    }
}

/// `target += value` and its like.
#[derive(Drop)]
pub struct AugmentedAssignment {
    pub target: Target,
    pub operator: Operator,
    pub value: Expr,
}

/// A module that is imported: the parts of its name, and the name that is bound in place of the first.
#[derive(Debug)]
pub struct ImportedModule {
    pub path: Vec<Text>,
    pub alias: Option<Text>,
}

/// Written out: the crates above call it, where what `derive` writes would be made and proved in each of them.
impl Drop for ImportedModule {
    fn drop(self) {
        let ImportedModule { path, alias } = self;
        drop(path);
        drop(alias);
    }
}

/// A name that is imported, and the name that is bound in its place.
#[derive(Debug, Drop)]
pub struct Alias {
    pub name: Text,
    pub alias: Option<Text>,
}

/// Names imported from a module: how many dots stand before its name, the parts of its name, and what is imported.
#[derive(Debug)]
pub struct ImportFrom {
    pub dots: usize,
    pub path: Vec<Text>,
    pub names: Vec<Alias>,
}

/// Written out: the crates above call it, where what `derive` writes would be made and proved in each of them.
impl Drop for ImportFrom {
    fn drop(self) {
        let ImportFrom {
            dots: _,
            path,
            names,
        } = self;
        drop(path);
        drop(names);
    }
}

/// The head of a `for`: what is assigned at each turn, and what is iterated.
#[derive(Drop)]
pub struct For {
    pub is_async: bool,
    pub target: Target,
    pub iterable: Expr,
}

/// A context manager, and what it is assigned to.
#[derive(Drop)]
pub struct WithItem {
    pub context: Expr,
    pub target: Option<Target>,
}

/// The head of a function. It suspends if a `yield` or `await` stands in its body, outside nested functions, classes
/// and lambdas.
pub struct FunctionDefinition {
    pub decorators: Vec<Expr>,
    pub is_async: bool,
    pub name: Text,
    pub parameters: Vec<Parameter>,
    pub returns: Option<Expr>,
    pub suspends: bool,
}

/// Written out: the crates above call it, where what `derive` writes would be made and proved in each of them.
impl Drop for FunctionDefinition {
    fn drop(self) {
        let FunctionDefinition {
            decorators,
            is_async: _,
            name,
            parameters,
            returns,
            suspends: _,
        } = self;
        drop(decorators);
        drop(name);
        drop(parameters);
        drop(returns);
    }
}

/// The head of a class: its bases and keywords as they are written. It suspends as a function does.
pub struct ClassDefinition {
    pub decorators: Vec<Expr>,
    pub name: Text,
    pub arguments: Vec<Argument>,
    pub suspends: bool,
}

/// Written out: the crates above call it, where what `derive` writes would be made and proved in each of them.
impl Drop for ClassDefinition {
    fn drop(self) {
        let ClassDefinition {
            decorators,
            name,
            arguments,
            suspends: _,
        } = self;
        drop(decorators);
        drop(name);
        drop(arguments);
    }
}
