//! The bindings of a scope, in text order.

ghost use Rattle.std.specs.Prelude.{◌≡◌, ◌++◌, [], ◌∷◌, flat_map, map, IfOk, OnOk};
ghost use Rattle.pyc_ast.specs.ExprView.{expr_of};
ghost use Rattle.pyc_ast.specs.Statements.{stmts};
ghost use Rattle.pyc_ast.specs.StatementView.{stmt_of, stmt_form_of, imported_of, import_from_of};
ghost use Rattle.pyc_ast.specs.TargetView.{target_of, target_element_of};
ghost use Rattle.pyc_ast.specs.Targets.{target_elements};
ghost use Rattle.pyc_bindings.specs.Bindings as spec;
ghost use Rattle.pyc_bindings.specs.Bindings.{bindings_of};
ghost use Rattle.pyc_bindings.specs.BindingView.{binding_of, binding_form_of};
ghost use Rattle.pyc_bindings.specs.ScopeView.{part_of};

use crate::binding::{Binding, BindingForm};
use crate::place::BindingSite;
use crate::scope::{Part, PartForm, scope_parts};
use pyc_ast::{
    Alias, Expr, ImportFrom, ImportedModule, Stmt, StmtForm, Target, TargetElement, TargetForm,
    Text,
};
use std::alloc::{AllocError, Global};
use std::rc::Rc;
use std::slice;

/// The bindings of a scope that has these statements, in text order. The only error is that memory runs out.
#[tactic(auto, unfolding(crate::specs::Bindings::bindings_of))]
pub fn scope_bindings(alloc: Global, statements: &[Stmt]) -> Result<Vec<Binding>, AllocError>
    ensures { IfOk result (λ found. map binding_of found.items ≡ bindings_of (stmts (map stmt_of statements.now))) }
{
    let parts = scope_parts(alloc, statements)?;
    let mut found = Vec::new(alloc);
    for part in &parts {
        push_part(part, &mut found)?;
    }
    Ok(found)
}

/// Adds the bindings of a part.
fn push_part(part: &Part<'_>, found: &mut Vec<Binding>) -> Result<(), AllocError>
    ensures { OnOk result (map binding_of found.new.items
        ≡ map binding_of found.old.items ++ spec.bindings_of_part (part_of part.now)) }
{
    match part.form {
        PartForm::Statement(statement) => push_statement(part.place, &statement.form, found),
        PartForm::Target(target) => push_target(target, part.place, found),
        PartForm::Caught(name) => push_bound(part.place, name, BindingForm::Other, found),
    }
}

/// Adds a binding.
fn push_bound(
    place: BindingSite,
    name: &Text,
    form: BindingForm,
    found: &mut Vec<Binding>,
) -> Result<(), AllocError>
    ensures { OnOk result (map binding_of found.new.items
        ≡ map binding_of found.old.items ++ (spec.bound place name.now (binding_form_of form) ∷ [])) }
{
    let name = name.clone()?;
    found.push(Binding {
        name,
        place,
        is_passed_on: false,
        form,
    })?;
    Ok(())
}

/// Adds the binding of an import, by whether it has one name on both sides of its `as`.
fn push_import(
    place: BindingSite,
    name: &Text,
    is_passed_on: bool,
    form: BindingForm,
    found: &mut Vec<Binding>,
) -> Result<(), AllocError>
    ensures { OnOk result (map binding_of found.new.items
        ≡ map binding_of found.old.items
        ++ (spec.imported place name.now is_passed_on (binding_form_of form) ∷ [])) }
{
    let name = name.clone()?;
    found.push(Binding {
        name,
        place,
        is_passed_on,
        form,
    })?;
    Ok(())
}

/// Adds the bindings of a simple statement or a definition.
fn push_statement(
    place: BindingSite,
    form: &StmtForm,
    found: &mut Vec<Binding>,
) -> Result<(), AllocError>
    ensures { OnOk result (map binding_of found.new.items
        ≡ map binding_of found.old.items ++ spec.statement_bindings place (stmt_form_of form.now)) }
{
    match form {
        StmtForm::Assign { targets, value } => push_assigned(place, targets, value, found),
        StmtForm::Annotate(annotated) => {
            let form = BindingForm::Annotated(annotated.clone()?);
            push_single(place, &annotated.target, form, found)
        }
        StmtForm::Augment(augmented) => push_target(&augmented.target, place, found),
        StmtForm::Delete(target) => push_target(target, place, found),
        StmtForm::Import(modules) => push_modules(place, modules, found),
        StmtForm::ImportFrom(from) => push_imported(place, from, found),
        StmtForm::Function { head, .. } => {
            push_bound(
                place,
                &head.name,
                BindingForm::Function(head.clone()?),
                found,
            )
        }
        StmtForm::Class { head, .. } => {
            push_bound(place, &head.name, BindingForm::Class(head.clone()?), found)
        }
        _ => Ok(()),
    }
}

/// Adds the bindings of the targets of an assignment.
fn push_assigned(
    place: BindingSite,
    targets: &[Target],
    value: &Rc<Expr>,
    found: &mut Vec<Binding>,
) -> Result<(), AllocError>
    ensures { OnOk result (map binding_of found.new.items
        ≡ map binding_of found.old.items
        ++ flat_map (spec.single_bindings place (spec.assigned (expr_of value.now.value)))
        (map target_of targets.now)) }
{
    for target in targets {
        push_single(place, target, BindingForm::Assigned(value.clone()?), found)?;
    }
    Ok(())
}

/// Adds the bindings of a target, by the form that a name by itself is bound to.
fn push_single(
    place: BindingSite,
    target: &Target,
    form: BindingForm,
    found: &mut Vec<Binding>,
) -> Result<(), AllocError>
    ensures { OnOk result (map binding_of found.new.items
        ≡ map binding_of found.old.items ++ spec.single_bindings place (binding_form_of form) (target_of target.now)) }
{
    match &target.form {
        TargetForm::Name(name) => push_bound(place, name, form, found),
        _ => push_target(target, place, found),
    }
}

/// Adds the bindings of a target, each of a name in it.
#[cycle(targets)]
fn push_target(
    target: &Target,
    place: BindingSite,
    found: &mut Vec<Binding>,
) -> Result<(), AllocError>
    ensures { OnOk result (map binding_of found.new.items
        ≡ map binding_of found.old.items ++ spec.target_bindings (target_of target.now) place) }
{
    match &target.form {
        TargetForm::Name(name) => push_bound(place, name, BindingForm::Other, found),
        TargetForm::Unpacking(elements) => push_elements(elements, place, found),
        _ => Ok(()),
    }
}

/// Adds the bindings of the targets of a tuple or a list.
#[cycle(targets)]
fn push_elements(
    elements: &[TargetElement],
    place: BindingSite,
    found: &mut Vec<Binding>,
) -> Result<(), AllocError>
    ensures { OnOk result (map binding_of found.new.items
        ≡ map binding_of found.old.items
        ++ spec.elements_bindings (target_elements (map target_element_of elements.now)) place) }
{
    for element in elements {
        push_target(&element.target, place, found)?;
    }
    Ok(())
}

/// Adds the bindings of an `import`.
fn push_modules(
    place: BindingSite,
    modules: &[Rc<ImportedModule>],
    found: &mut Vec<Binding>,
) -> Result<(), AllocError>
    ensures { OnOk result (map binding_of found.new.items
        ≡ map binding_of found.old.items ++ flat_map (spec.module_bindings place) (map imported_of modules.now)) }
{
    for module_found in modules {
        push_module(place, module_found, found)?;
    }
    Ok(())
}

/// Adds the binding of a module.
fn push_module(
    place: BindingSite,
    imported: &Rc<ImportedModule>,
    found: &mut Vec<Binding>,
) -> Result<(), AllocError>
    ensures { OnOk result (map binding_of found.new.items
        ≡ map binding_of found.old.items ++ spec.module_bindings place (imported_of imported.now)) }
{
    if let Some(alias) = &imported.alias {
        let is_passed_on = imported.path.as_slice() == slice::from_ref(alias);
        let form = BindingForm::Import(imported.clone()?);
        return push_import(place, alias, is_passed_on, form, found);
    }
    match imported.path.first() {
        Some(first) => push_bound(
            place,
            first,
            BindingForm::ImportFirst(first.clone()?),
            found,
        ),
        None => Ok(()),
    }
}

/// Adds the bindings of a from-import.
fn push_imported(
    place: BindingSite,
    from: &Rc<ImportFrom>,
    found: &mut Vec<Binding>,
) -> Result<(), AllocError>
    ensures { OnOk result (map binding_of found.new.items
        ≡ map binding_of found.old.items
        ++ map (spec.imported_binding place (import_from_of from.now.value)) from.now.value.names.items) }
{
    for alias in &from.names {
        push_alias(place, from, alias, found)?;
    }
    Ok(())
}

/// Adds the binding of a name that is imported.
fn push_alias(
    place: BindingSite,
    from: &Rc<ImportFrom>,
    alias: &Alias,
    found: &mut Vec<Binding>,
) -> Result<(), AllocError>
    ensures { OnOk result (map binding_of found.new.items
        ≡ map binding_of found.old.items
        ++ (spec.imported_binding place (import_from_of from.now.value) alias.now ∷ [])) }
{
    let bound = match &alias.alias {
        Some(name) => name,
        None => &alias.name,
    };
    let form = BindingForm::ImportFrom(from.clone()?, alias.name.clone()?);
    push_import(place, bound, is_same_alias(alias), form, found)
}

/// Whether a name is imported that has the same name after `as`.
fn is_same_alias(alias: &Alias) -> bool
    ensures { result ≡ spec.is_same_alias alias.now.name alias.now.alias }
{
    match &alias.alias {
        Some(name) => alias.name == *name,
        None => false,
    }
}
