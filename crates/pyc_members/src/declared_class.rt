//! The classes that a file declares.

ghost use Rattle.std.specs.Prelude.{◌≡◌, ◌++◌, map, IfOk, OnOk};
ghost use Rattle.pyc_ast.specs.Statements.{stmts};
ghost use Rattle.pyc_ast.specs.StatementView.{block_of, class_of, stmt_of, stmt_form_of};
ghost use Rattle.pyc_bindings.specs.BindingView.{binding_of};
ghost use Rattle.pyc_bindings.specs.ScopeView.{part_of};
ghost use Rattle.pyc_members.specs.DeclaredClasses as spec;
ghost use Rattle.pyc_members.specs.DeclaredClassView.{declared_class_in, declared_class_of, places_in};

use crate::class_body::ClassBody;
use pyc_ast::{Block, ClassDefinition, Position, Stmt, StmtForm, Text};
use pyc_bindings::{Binding, Part, PartForm, scope_parts};
use std::alloc::{AllocError, Global};
use std::collections::HashMap;
use std::rc::Rc;

/// The position at which each name is bound first.
type FirstPlaces = HashMap<Text, Position>;

/// A class that is the declaration of its name: the name, where the statement begins, its head, and what it binds.
pub struct DeclaredClass {
    pub name: Text,
    pub at: Position,
    pub head: Rc<ClassDefinition>,
    pub body: ClassBody,
}

/// Written out: the crates above call it, where what `derive` writes would be made and proved in each of them.
impl Drop for DeclaredClass {
    fn drop(self) {
        let DeclaredClass {
            name,
            at: _,
            head,
            body,
        } = self;
        drop(name);
        drop(head);
        drop(body);
    }
}

/// The classes among these statements that are the declarations of their names among these bindings, in text order,
/// with the blocks of `if`, `for`, `while`, `try` and `with` opened. The only error is that memory runs out.
#[tactic(auto, unfolding(crate::specs::DeclaredClasses::declared_classes))]
pub fn declared_classes(
    alloc: Global,
    statements: &[Stmt],
    bindings: &[Binding],
) -> Result<Vec<Rc<DeclaredClass>>, AllocError>
    ensures { IfOk result (λ found. map declared_class_in found.items
        ≡ spec.declared_classes (map binding_of bindings.now) (stmts (map stmt_of statements.now))) }
{
    let parts = scope_parts(alloc, statements)?;
    let places = first_places(alloc, bindings)?;
    let mut found = Vec::new(alloc);
    for part in &parts {
        push_part(alloc, &places, part, &mut found)?;
    }
    Ok(found)
}

/// The position at which each name is bound first among these bindings.
fn first_places(alloc: Global, bindings: &[Binding]) -> Result<FirstPlaces, AllocError>
    ensures { IfOk result (λ places. places_in places ≡ spec.first_place (map binding_of bindings.now)) }
{
    let mut places = HashMap::new(alloc);
    let mut left = bindings.len();
    while left > 0 {
        left -= 1;
        let binding = &bindings[left];
        places.insert(binding.name.clone()?, binding.place.at)?;
    }
    Ok(places)
}

/// Adds the class that a part of a scope declares.
fn push_part(
    alloc: Global,
    places: &FirstPlaces,
    part: &Part<'_>,
    found: &mut Vec<Rc<DeclaredClass>>,
) -> Result<(), AllocError>
    ensures { OnOk result (map declared_class_in found.new.items
        ≡ map declared_class_in found.old.items ++ spec.classes_of_part (places_in places.now) (part_of part.now)) }
{
    match part.form {
        PartForm::Statement(statement) => {
            push_statement(alloc, places, part.place.at, &statement.form, found)
        }
        _ => Ok(()),
    }
}

/// Adds the class that a statement declares.
fn push_statement(
    alloc: Global,
    places: &FirstPlaces,
    at: Position,
    form: &StmtForm,
    found: &mut Vec<Rc<DeclaredClass>>,
) -> Result<(), AllocError>
    ensures { OnOk result (map declared_class_in found.new.items
        ≡ map declared_class_in found.old.items
        ++ spec.statement_classes (places_in places.now) at (stmt_form_of form.now)) }
{
    match form {
        StmtForm::Class { head, body } => {
            if stands_at(first_place(places, &head.name), at) {
                found.push(Rc::new(alloc, declared_class(alloc, at, head, body)?)?)?;
            }
            Ok(())
        }
        _ => Ok(()),
    }
}

/// The position at which a name is bound first.
fn first_place(places: &FirstPlaces, name: &Text) -> Option<Position>
    ensures { result ≡ places_in places.now name.now }
{
    places.get(name).copied()
}

/// Whether a position is there, and is this one.
fn stands_at(place: Option<Position>, at: Position) -> bool
    ensures { result ≡ spec.stands_at place at }
{
    match place {
        Some(place) => place == at,
        None => false,
    }
}

/// The class of a class statement at a position.
#[tactic(auto, unfolding(crate::specs::DeclaredClasses::declared_class))]
fn declared_class(
    alloc: Global,
    at: Position,
    head: &Rc<ClassDefinition>,
    body: &Block,
) -> Result<DeclaredClass, AllocError>
    ensures { IfOk result (λ found. declared_class_of found
        ≡ spec.declared_class at (class_of head.now.value) (block_of body.now)) }
{
    let Block::Of(statements) = body;
    Ok(DeclaredClass {
        name: head.name.clone()?,
        at,
        head: head.clone()?,
        body: ClassBody::read(alloc, statements)?,
    })
}
