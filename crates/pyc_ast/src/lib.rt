//! The abstract syntax of a Python source, on which all rules are written: what the grammar read, without its tokens
//! and parentheses, in the names of CPython's own `ast` where it has one.
#![tactic(auto)]

mod constant;
mod expr;
mod module;
mod operator;
mod parameter;
mod position;
mod stmt;
mod target;
mod text;

pub use constant::{Constant, Unchecked};
pub use expr::{
    Argument, ArgumentKind, Comparison, DictItem, Element, Expr, Form, Index, IndexForm,
    OptionalExpr,
};
pub use module::{Codes, Fault, Ignore, Module, Outcome};
pub use operator::{BooleanOperator, ComparisonOperator, Operator, UnaryOperator};
pub use parameter::{Parameter, ParameterKind};
pub use position::Position;
pub use stmt::{
    Alias, AnnotatedAssignment, AugmentedAssignment, Block, Branch, ClassDefinition, For,
    FunctionDefinition, Handler, ImportFrom, ImportedModule, Stmt, StmtForm, WithItem,
};
pub use target::{Target, TargetElement, TargetForm};
pub use text::Text;
