//! The names that a function binds.

ghost use Rattle.std.specs.Prelude.{◌≡◌, ◌++◌, filter, map, IfOk, OnOk};
ghost use Rattle.pyc_ast.specs.Statements.{stmts};
ghost use Rattle.pyc_ast.specs.StatementView.{parameter_of, stmt_of, stmt_form_of};
ghost use Rattle.pyc_bindings.specs.BindingView.{binding_of};
ghost use Rattle.pyc_bindings.specs.ScopeView.{part_form_of};
ghost use Rattle.pyc_functions.specs.FunctionNames as spec;
ghost use Rattle.pyc_functions.specs.Views.{parameter_type_in};
ghost use Rattle.pyc_locals.specs.Views.{locals_in};

use crate::parameters::ParameterType;
use pyc_ast::{Parameter, Stmt, StmtForm, Text};
use pyc_bindings::{Binding, BindingForm, BindingSite, PartForm, scope_bindings, scope_parts};
use pyc_locals::{LocalType, Locals};
use std::alloc::{AllocError, Global};

/// The bindings of a function: those of its parameters and then those of its statements, without the names that are the
/// module's. The only error is that memory runs out.
#[tactic(auto, unfolding(crate::specs::FunctionNames::function_bindings))]
pub(crate) fn function_bindings(
    alloc: Global,
    parameters: &[Parameter],
    statements: &[Stmt],
) -> Result<Vec<Binding>, AllocError>
    ensures { IfOk result (λ found. map binding_of found.items
        ≡ spec.function_bindings (map parameter_of parameters.now) (stmts (map stmt_of statements.now))) }
{
    let mut found = parameter_bindings(alloc, parameters)?;
    found.append(&mut scope_bindings(alloc, statements)?)?;
    keep_own(&global_names(alloc, statements)?, &mut found);
    Ok(found)
}

/// Parameters as bindings.
fn parameter_bindings(alloc: Global, parameters: &[Parameter]) -> Result<Vec<Binding>, AllocError>
    ensures { IfOk result (λ found. map binding_of found.items
        ≡ map spec.parameter_binding (map parameter_of parameters.now)) }
{
    let mut found = Vec::new(alloc);
    for parameter in parameters {
        found.push(parameter_binding(parameter)?)?;
    }
    Ok(found)
}

/// A parameter as a binding.
fn parameter_binding(parameter: &Parameter) -> Result<Binding, AllocError>
    ensures { IfOk result (λ found. binding_of found ≡ spec.parameter_binding (parameter_of parameter.now)) }
{
    Ok(Binding {
        name: parameter.name.clone()?,
        place: BindingSite {
            at: parameter.at,
            is_guarded: false,
        },
        is_passed_on: false,
        form: BindingForm::Other,
    })
}

/// Keeps of some bindings those of names that are not the module's.
fn keep_own(globals: &[Text], bindings: &mut Vec<Binding>)
    ensures { map binding_of bindings.new.items
        ≡ filter (spec.is_own globals.now) (map binding_of bindings.old.items) }
{
    bindings.retain(|binding| !is_among(globals, &binding.name));
}

/// Whether a name is one of these.
fn is_among(names: &[Text], name: &Text) -> bool
    ensures { result ≡ spec.is_among names.now name.now }
{
    for found in names {
        if *found == *name {
            return true;
        }
    }
    false
}

/// The names that `global` gives back to the module.
fn global_names(alloc: Global, statements: &[Stmt]) -> Result<Vec<Text>, AllocError>
    ensures { IfOk result (λ names. names.items ≡ spec.global_names (stmts (map stmt_of statements.now))) }
{
    let parts = scope_parts(alloc, statements)?;
    let mut names = Vec::new(alloc);
    for part in &parts {
        push_part_globals(part.form, &mut names)?;
    }
    Ok(names)
}

/// Adds the names that a part of a function says to be the module's.
fn push_part_globals(part: PartForm<'_>, names: &mut Vec<Text>) -> Result<(), AllocError>
    ensures { OnOk result (names.new.items ≡ names.old.items ++ spec.part_globals (part_form_of part.entry)) }
{
    match part {
        PartForm::Statement(statement) => push_form_globals(&statement.form, names),
        _ => Ok(()),
    }
}

/// Adds the names that a statement says to be the module's.
fn push_form_globals(form: &StmtForm, names: &mut Vec<Text>) -> Result<(), AllocError>
    ensures { OnOk result (names.new.items ≡ names.old.items ++ spec.form_globals (stmt_form_of form.now)) }
{
    match form {
        StmtForm::Global(more) => push_names(more, names),
        _ => Ok(()),
    }
}

/// Adds names in turn.
fn push_names(more: &[Text], names: &mut Vec<Text>) -> Result<(), AllocError>
    ensures { OnOk result (names.new.items ≡ names.old.items ++ more.now) }
{
    for name in more {
        names.push(name.clone()?)?;
    }
    Ok(())
}

/// The locals of a function with these parameters and bindings. The only error is that memory runs out.
#[tactic(auto, unfolding(crate::specs::FunctionNames::function_locals))]
pub(crate) fn function_locals(
    alloc: Global,
    parameters: &[ParameterType<'_>],
    bindings: &[Binding],
) -> Result<Locals, AllocError>
    ensures { IfOk result (λ locals. locals_in locals
        ≡ spec.function_locals (map parameter_type_in parameters.now) (map binding_of bindings.now)) }
{
    let names = bound_names(alloc, bindings)?;
    let mut locals = Locals::of_names(alloc, &names)?;
    declare_parameters(parameters, &mut locals)?;
    Ok(locals)
}

/// The names of bindings.
fn bound_names(alloc: Global, bindings: &[Binding]) -> Result<Vec<Text>, AllocError>
    ensures { IfOk result (λ names. names.items ≡ map (λ b. b.name) (map binding_of bindings.now)) }
{
    let mut names = Vec::new(alloc);
    for binding in bindings {
        names.push(binding.name.clone()?)?;
    }
    Ok(names)
}

/// Declares parameters in turn.
fn declare_parameters(
    parameters: &[ParameterType<'_>],
    locals: &mut Locals,
) -> Result<(), AllocError>
    ensures { OnOk result (locals_in locals.new
        ≡ spec.with_parameters (map parameter_type_in parameters.now) (locals_in locals.old)) }
{
    for parameter in parameters {
        let ty = parameter.ty.clone()?;
        locals.declare(parameter.name, LocalType::Declared(ty));
    }
    Ok(())
}
