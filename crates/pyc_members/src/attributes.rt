//! The attributes that a class's methods give its instances, in text order.

ghost use Rattle.std.specs.Prelude.{◌≡◌, ◌++◌, flat_map, map, IfOk, OnOk};
ghost use Rattle.pyc_ast.specs.ExprView.{expr_of};
ghost use Rattle.pyc_ast.specs.Statements.{stmts};
ghost use Rattle.pyc_ast.specs.StatementView.{stmt_of, stmt_form_of};
ghost use Rattle.pyc_ast.specs.TargetView.{target_of, target_element_of};
ghost use Rattle.pyc_ast.specs.Targets.{target_elements};
ghost use Rattle.pyc_bindings.specs.ScopeView.{part_of};
ghost use Rattle.pyc_members.specs.Attributes as spec;
ghost use Rattle.pyc_members.specs.AttributeView.{attribute_of, attribute_form_of, receiver_of};
ghost use Rattle.pyc_members.specs.MethodView.{method_of};

use crate::attribute::{AttributeForm, SelfAttribute};
use crate::method::{Method, methods, self_name};
use pyc_ast::{
    Expr, Form, FunctionDefinition, Position, Stmt, StmtForm, Target, TargetElement, TargetForm,
    Text,
};
use pyc_bindings::{Part, PartForm, scope_parts};
use std::alloc::{AllocError, Global};
use std::rc::Rc;

/// A method, and the name by which it has its instance.
#[derive(Clone, Copy, Drop)]
struct Receiver<'a> {
    method: &'a Rc<FunctionDefinition>,
    name: &'a Text,
}

/// The attributes that the methods of a class with this body give its instances, in text order: each target `self.x` of
/// an assignment, with or without annotation, of a `for` or of a `with`. The only error is that memory runs out.
#[tactic(auto, unfolding(crate::specs::Attributes::attributes_of))]
pub fn self_attributes(alloc: Global, body: &[Stmt]) -> Result<Vec<SelfAttribute>, AllocError>
    ensures { IfOk result (λ found. map attribute_of found.items
        ≡ spec.attributes_of (stmts (map stmt_of body.now))) }
{
    let methods = methods(alloc, body)?;
    let mut found = Vec::new(alloc);
    for method in &methods {
        push_method(alloc, method, &mut found)?;
    }
    Ok(found)
}

/// Adds the attributes that a method gives its instance, where it is given one.
#[tactic(auto, unfolding(crate::specs::Attributes::method_attributes))]
fn push_method(
    alloc: Global,
    method: &Method<'_>,
    found: &mut Vec<SelfAttribute>,
) -> Result<(), AllocError>
    ensures { OnOk result (map attribute_of found.new.items
        ≡ map attribute_of found.old.items ++ spec.method_attributes (method_of method.now)) }
{
    match self_name(method.head) {
        Some(name) => push_scope(
            alloc,
            Receiver {
                method: method.head,
                name,
            },
            method.body,
            found,
        ),
        None => Ok(()),
    }
}

/// Adds the attributes that a method with these statements gives its instance.
fn push_scope(
    alloc: Global,
    receiver: Receiver<'_>,
    statements: &[Stmt],
    found: &mut Vec<SelfAttribute>,
) -> Result<(), AllocError>
    ensures { OnOk result (map attribute_of found.new.items
        ≡ map attribute_of found.old.items
        ++ spec.scope_attributes (receiver_of receiver.entry) (stmts (map stmt_of statements.now))) }
{
    let parts = scope_parts(alloc, statements)?;
    for part in &parts {
        push_part(receiver, part, found)?;
    }
    Ok(())
}

/// Adds the attributes that a part of a method's body gives.
fn push_part(
    receiver: Receiver<'_>,
    part: &Part<'_>,
    found: &mut Vec<SelfAttribute>,
) -> Result<(), AllocError>
    ensures { OnOk result (map attribute_of found.new.items
        ≡ map attribute_of found.old.items ++ spec.attributes_of_part (receiver_of receiver.entry) (part_of part.now)) }
{
    match part.form {
        PartForm::Statement(statement) => push_statement(receiver, &statement.form, found),
        PartForm::Target(target) => push_target(target, receiver, found),
        PartForm::Caught(_) => Ok(()),
    }
}

/// Adds the attributes that a simple statement or a definition gives.
fn push_statement(
    receiver: Receiver<'_>,
    form: &StmtForm,
    found: &mut Vec<SelfAttribute>,
) -> Result<(), AllocError>
    ensures { OnOk result (map attribute_of found.new.items
        ≡ map attribute_of found.old.items
        ++ spec.statement_attributes (receiver_of receiver.entry) (stmt_form_of form.now)) }
{
    match form {
        StmtForm::Assign { targets, value } => push_assigned(receiver, targets, value, found),
        StmtForm::Annotate(annotated) => {
            let form = AttributeForm::Annotated(annotated.clone()?);
            push_single(receiver, &annotated.target, form, found)
        }
        _ => Ok(()),
    }
}

/// Adds the attributes among the targets of an assignment.
fn push_assigned(
    receiver: Receiver<'_>,
    targets: &[Target],
    value: &Rc<Expr>,
    found: &mut Vec<SelfAttribute>,
) -> Result<(), AllocError>
    ensures { OnOk result (map attribute_of found.new.items
        ≡ map attribute_of found.old.items
        ++ flat_map (spec.single_attributes (receiver_of receiver.entry) (spec.assigned (expr_of value.now.value)))
        (map target_of targets.now)) }
{
    for target in targets {
        push_single(
            receiver,
            target,
            AttributeForm::Assigned(value.clone()?),
            found,
        )?;
    }
    Ok(())
}

/// Adds the attributes in a target, by the form that an attribute by itself has.
fn push_single(
    receiver: Receiver<'_>,
    target: &Target,
    form: AttributeForm,
    found: &mut Vec<SelfAttribute>,
) -> Result<(), AllocError>
    ensures { OnOk result (map attribute_of found.new.items
        ≡ map attribute_of found.old.items
        ++ spec.single_attributes (receiver_of receiver.entry) (attribute_form_of form) (target_of target.now)) }
{
    match &target.form {
        TargetForm::Attribute { value, name } => {
            push_attribute(receiver, target.at, value, name, form, found)
        }
        _ => push_target(target, receiver, found),
    }
}

/// Adds the attributes in a target.
#[cycle(targets)]
fn push_target(
    target: &Target,
    receiver: Receiver<'_>,
    found: &mut Vec<SelfAttribute>,
) -> Result<(), AllocError>
    ensures { OnOk result (map attribute_of found.new.items
        ≡ map attribute_of found.old.items
        ++ spec.target_attributes (target_of target.now) (receiver_of receiver.entry)) }
{
    match &target.form {
        TargetForm::Attribute { value, name } => {
            let form = AttributeForm::Other;
            push_attribute(receiver, target.at, value, name, form, found)
        }
        TargetForm::Unpacking(elements) => push_elements(elements, receiver, found),
        _ => Ok(()),
    }
}

/// Adds the attributes in the targets of a tuple or a list.
#[cycle(targets)]
fn push_elements(
    elements: &[TargetElement],
    receiver: Receiver<'_>,
    found: &mut Vec<SelfAttribute>,
) -> Result<(), AllocError>
    ensures { OnOk result (map attribute_of found.new.items
        ≡ map attribute_of found.old.items
        ++ spec.elements_attributes (target_elements (map target_element_of elements.now))
        (receiver_of receiver.entry)) }
{
    for element in elements {
        push_target(&element.target, receiver, found)?;
    }
    Ok(())
}

/// Adds an attribute, where what stands before its dot is the instance.
fn push_attribute(
    receiver: Receiver<'_>,
    at: Position,
    value: &Expr,
    name: &Text,
    form: AttributeForm,
    found: &mut Vec<SelfAttribute>,
) -> Result<(), AllocError>
    ensures { OnOk result (map attribute_of found.new.items
        ≡ map attribute_of found.old.items
        ++ spec.self_attribute (receiver_of receiver.entry) at (expr_of value.now) name.now (attribute_form_of form)) }
{
    if is_name(value, receiver.name) {
        found.push(SelfAttribute {
            name: name.clone()?,
            at,
            form,
            method: receiver.method.clone()?,
        })?;
    }
    Ok(())
}

/// Whether an expression is this name.
fn is_name(found: &Expr, name: &Text) -> bool
    ensures { result ≡ spec.is_name name.now (expr_of found.now) }
{
    match &found.form {
        Form::Name(written) => *written == *name,
        _ => false,
    }
}
