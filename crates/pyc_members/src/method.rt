//! The methods of a class.

ghost use Rattle.std.specs.Prelude.{◌≡◌, ◌++◌, [], ◌∷◌, map, IfOk, OnOk, option_map};
ghost use Rattle.pyc_ast.specs.ExprView.{expr_of};
ghost use Rattle.pyc_ast.specs.Statements.{stmts};
ghost use Rattle.pyc_ast.specs.StatementView.{block_of, function_of, parameter_of, stmt_of};
ghost use Rattle.pyc_bindings.specs.ScopeView.{part_of};
ghost use Rattle.pyc_members.specs.Methods as spec;
ghost use Rattle.pyc_members.specs.MethodView.{method_of};

use pyc_ast::{
    Block, Expr, FunctionDefinition, Parameter, ParameterKind, Position, Stmt, StmtForm, Text,
};
use pyc_bindings::{Decorator, Part, PartForm, decorator_of, scope_parts};
use std::alloc::{AllocError, Global};
use std::rc::Rc;

/// The kind of a method, reported by the spelling of its decorators.
#[derive(Clone, Copy, Debug, PartialEq, Eq)]
pub enum MethodKind {
    /// Under `@property` or `@NAME.setter`.
    Property,
    /// Under `@staticmethod`: it is given no instance.
    Static,
    /// Under `@classmethod`: it is given the class.
    Class,
    /// Any other.
    Plain,
}

/// A method of a class: where its definition begins, its head, and the statements of its body.
#[derive(Clone, Copy, Drop)]
pub struct Method<'a> {
    pub at: Position,
    pub head: &'a Rc<FunctionDefinition>,
    pub body: &'a [Stmt],
}

/// The kind of a method under these decorators: property decides before static, and static before class.
#[tactic(auto, unfolding(crate::specs::Methods::method_kind))]
pub fn method_kind(decorators: &[Expr]) -> MethodKind
    ensures { result ≡ spec.method_kind (map expr_of decorators.now) }
{
    if has_property(decorators) {
        MethodKind::Property
    } else if has_static(decorators) {
        MethodKind::Static
    } else if has_class(decorators) {
        MethodKind::Class
    } else {
        MethodKind::Plain
    }
}

/// Whether one of these decorators makes a property or its setter.
fn has_property(decorators: &[Expr]) -> bool
    ensures { result ≡ spec.has_property (map expr_of decorators.now) }
{
    for found in decorators {
        if is_property(decorator_of(found)) {
            return true;
        }
    }
    false
}

fn is_property(decorator: Decorator) -> bool
    ensures { result ≡ spec.is_property decorator }
{
    matches!(decorator, Decorator::Property | Decorator::Setter)
}

/// Whether one of these decorators makes a static method.
fn has_static(decorators: &[Expr]) -> bool
    ensures { result ≡ spec.has_static (map expr_of decorators.now) }
{
    for found in decorators {
        if is_static(decorator_of(found)) {
            return true;
        }
    }
    false
}

fn is_static(decorator: Decorator) -> bool
    ensures { result ≡ spec.is_static decorator }
{
    matches!(decorator, Decorator::StaticMethod)
}

/// Whether one of these decorators makes a class method.
fn has_class(decorators: &[Expr]) -> bool
    ensures { result ≡ spec.has_class (map expr_of decorators.now) }
{
    for found in decorators {
        if is_class(decorator_of(found)) {
            return true;
        }
    }
    false
}

fn is_class(decorator: Decorator) -> bool
    ensures { result ≡ spec.is_class decorator }
{
    matches!(decorator, Decorator::ClassMethod)
}

/// The name by which a method has its instance: that of its first parameter, where an argument at its place fills it. A
/// static method and a class method have none. It takes no memory.
#[tactic(auto, unfolding(crate::specs::Methods::self_name))]
pub fn self_name(head: &FunctionDefinition) -> Option<&Text>
    ensures { option_map (λ name. name.now) result ≡ spec.self_name (function_of head.now) }
{
    if has_self(method_kind(&head.decorators)) {
        first_name(&head.parameters)
    } else {
        None
    }
}

/// Whether a method of this kind is given an instance.
fn has_self(kind: MethodKind) -> bool
    ensures { result ≡ spec.has_self kind }
{
    match kind {
        MethodKind::Property | MethodKind::Plain => true,
        MethodKind::Static | MethodKind::Class => false,
    }
}

/// The name of the first of these parameters, where an argument at its place fills it.
fn first_name(parameters: &[Parameter]) -> Option<&Text>
    ensures { option_map (λ name. name.now) result ≡ spec.first_name (map parameter_of parameters.now) }
{
    match parameters.first() {
        Some(first) => plain_name(first),
        None => None,
    }
}

/// The name of a parameter, where an argument at its place fills it.
fn plain_name(parameter: &Parameter) -> Option<&Text>
    ensures { option_map (λ name. name.now) result ≡ spec.plain_name (parameter_of parameter.now) }
{
    match parameter.kind {
        ParameterKind::Plain => Some(&parameter.name),
        _ => None,
    }
}

/// The methods of a class with this body, in text order: its functions, with the blocks of `if`, `for`, `while`, `try`
/// and `with` opened. The only error is that memory runs out.
#[tactic(auto, unfolding(crate::specs::Methods::methods_of))]
pub fn methods<'a>(alloc: Global, body: &'a [Stmt]) -> Result<Vec<Method<'a>>, AllocError>
    ensures { IfOk result (λ found. map method_of found.items ≡ spec.methods_of (stmts (map stmt_of body.now))) }
{
    let parts = scope_parts(alloc, body)?;
    let mut found = Vec::new(alloc);
    for part in &parts {
        push_part(part, &mut found)?;
    }
    Ok(found)
}

/// Adds the method that a part of a class's body is.
fn push_part<'a>(part: &Part<'a>, found: &mut Vec<Method<'a>>) -> Result<(), AllocError>
    ensures { OnOk result (map method_of found.new.items
        ≡ map method_of found.old.items ++ spec.methods_of_part (part_of part.now)) }
{
    match part.form {
        PartForm::Statement(statement) => push_statement(statement, found),
        _ => Ok(()),
    }
}

/// Adds the method that a statement defines.
fn push_statement<'a>(statement: &'a Stmt, found: &mut Vec<Method<'a>>) -> Result<(), AllocError>
    ensures { OnOk result (map method_of found.new.items
        ≡ map method_of found.old.items ++ spec.statement_methods (stmt_of statement.now)) }
{
    match &statement.form {
        StmtForm::Function { head, body } => push_method(statement.at, head, body, found),
        _ => Ok(()),
    }
}

/// Adds a method.
fn push_method<'a>(
    at: Position,
    head: &'a Rc<FunctionDefinition>,
    body: &'a Block,
    found: &mut Vec<Method<'a>>,
) -> Result<(), AllocError>
    ensures { OnOk result (map method_of found.new.items
        ≡ map method_of found.old.items
        ++ (spec.method at (function_of head.now.value) (block_of body.now) ∷ [])) }
{
    let Block::Of(body) = body;
    found.push(Method { at, head, body })?;
    Ok(())
}
