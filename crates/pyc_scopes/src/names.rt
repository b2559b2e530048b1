//! What names in expressions are.

ghost use Rattle.std.specs.Prelude.{◌≡◌, IfOk, None};
ghost use Rattle.pyc_names.specs.SourceFileView.{source_in};
ghost use Rattle.pyc_obligations.specs.ValueView.{special_form_of, value_of};
ghost use Rattle.pyc_reading.specs.AnswerView.{kind_of, name_answer_of};
ghost use Rattle.pyc_reading.specs.Traces.{Performs};
ghost use Rattle.pyc_scopes.specs.NamedValues as spec;
ghost use Rattle.pyc_scopes.specs.ScopeView.{local_in, scope_in};
ghost use Rattle.pyc_type_forms.specs.TypeView.{ty_of};

use crate::builtin_values::builtin_value;
use crate::scope::{Local, Scope, local_named};
use pyc_ast::{Position, Text};
use pyc_builtins::{builtin_name, is_dunder};
use pyc_messages::not_defined_text;
use pyc_names::{FixedName, QualifiedName, SourceFile, fixed_module, fixed_name};
use pyc_obligations::{AskTypes, SpecialForm, Value, ask_name, report_error};
use pyc_reading::{NameAnswer, NameKind};
use pyc_report::Code;
use pyc_type_forms::Ty;
use std::alloc::{AllocError, Global};

/// What a name in an expression is: a name that nothing defines is reported, and is Any. The only error is that memory
/// runs out.
#[tactic(auto, unfolding(crate::specs::NamedValues::resolve_name))]
pub fn resolve_name<N: AskTypes>(
    alloc: Global,
    recorder: &mut N,
    scope: Scope<'_>,
    at: Position,
    name: &Text,
) -> Result<Value, AllocError>
    ensures { Performs value_of (spec.resolve_name (scope_in scope.entry) at name.now) (N.trace recorder.old) result
        (N.trace recorder.new) }
{
    match local_named(scope.locals, name) {
        Some(local) => Ok(Value::plain(local_type(local)?)),
        None => module_name(alloc, recorder, scope.file, at, name),
    }
}

/// The type of a local: Any before it is declared.
fn local_type(local: &Local) -> Result<Ty, AllocError>
    ensures { IfOk result (λ ty. ty_of ty ≡ spec.local_type (local_in local.now).ty) }
{
    match &local.ty {
        Some(ty) => Ok(ty.clone()?),
        None => Ok(Ty::Any),
    }
}

/// A name of the module in which it stands.
#[tactic(auto, unfolding(crate::specs::NamedValues::module_name))]
fn module_name<N: AskTypes>(
    alloc: Global,
    recorder: &mut N,
    file: &SourceFile,
    at: Position,
    name: &Text,
) -> Result<Value, AllocError>
    ensures { Performs value_of (spec.module_name (source_in file.now) at name.now) (N.trace recorder.old) result
        (N.trace recorder.new) }
{
    match fixed_module(file.name().parts()) {
        Some(found) => {
            let value = fixed_value(fixed_name(found, name.as_str()));
            own_value(alloc, recorder, at, name, binds(file, name), value)
        }
        None => ask_value(alloc, recorder, file, at, name),
    }
}

/// A name of a module that is no fixed one.
#[tactic(auto, using(crate::proofs::Steps::performing))]
fn ask_value<N: AskTypes>(
    alloc: Global,
    recorder: &mut N,
    file: &SourceFile,
    at: Position,
    name: &Text,
) -> Result<Value, AllocError>
    ensures { Performs value_of (spec.name_in_module (source_in file.now) at name.now None) (N.trace recorder.old)
        result
        (N.trace recorder.new) }
{
    let asked = QualifiedName {
        module_path: file.name().clone()?,
        name: name.clone()?,
    };
    let found = ask_name(alloc, recorder, asked)?;
    let value = own_value(
        alloc,
        recorder,
        at,
        name,
        binds(file, name),
        answered_value(found),
    )?;
    Ok(value)
}

/// A name of the module, by whether that binds it.
fn own_value<N: AskTypes>(
    alloc: Global,
    recorder: &mut N,
    at: Position,
    name: &Text,
    is_bound: bool,
    found: Value,
) -> Result<Value, AllocError>
    ensures { Performs value_of (spec.own_value at name.now is_bound (value_of found)) (N.trace recorder.old) result
        (N.trace recorder.new) }
{
    if is_bound {
        Ok(found)
    } else {
        unbound(alloc, recorder, at, name)
    }
}

/// Whether a file binds a name at its top level.
fn binds(file: &SourceFile, name: &Text) -> bool
    ensures { result ≡ spec.binds (source_in file.now) name.now }
{
    file.declaration(name).is_some()
}

/// A name that the module does not bind.
#[tactic(auto, unfolding(crate::specs::NamedValues::unbound))]
fn unbound<N: AskTypes>(
    alloc: Global,
    recorder: &mut N,
    at: Position,
    name: &Text,
) -> Result<Value, AllocError>
    ensures { Performs value_of (spec.unbound at name.now) (N.trace recorder.old) result (N.trace recorder.new) }
{
    match builtin_name(name.as_str()) {
        Some(found) => Ok(builtin_value(alloc, name.as_str(), found)?),
        None => no_builtin(alloc, recorder, at, name),
    }
}

/// A name that is no builtin.
fn no_builtin<N: AskTypes>(
    alloc: Global,
    recorder: &mut N,
    at: Position,
    name: &Text,
) -> Result<Value, AllocError>
    ensures { Performs value_of (spec.no_builtin at name.now) (N.trace recorder.old) result (N.trace recorder.new) }
{
    if is_dunder(name.as_str()) {
        Ok(Value::plain(Ty::Any))
    } else {
        report_undefined(alloc, recorder, at, name)
    }
}

/// Reports that nothing defines a name.
#[tactic(auto, using(crate::proofs::Steps::performing), unfolding(crate::specs::NamedValues::report_undefined))]
fn report_undefined<N: AskTypes>(
    alloc: Global,
    recorder: &mut N,
    at: Position,
    name: &Text,
) -> Result<Value, AllocError>
    ensures { Performs value_of (spec.report_undefined at name.now) (N.trace recorder.old) result
        (N.trace recorder.new) }
{
    let text = not_defined_text(alloc, name.as_str())?;
    report_error(recorder, at, Code::NameDefined, text)?;
    Ok(Value::plain(Ty::Any))
}

/// A name of a fixed module: Any, but that it may be a special one. It takes no memory.
pub fn fixed_value(found: Option<FixedName>) -> Value
    ensures { value_of result ≡ spec.fixed_value found }
{
    match found {
        Some(name) => Value {
            ty: Ty::Any,
            special_form: SpecialForm::Fixed(name),
        },
        None => Value::plain(Ty::Any),
    }
}

/// What an answer gives: the type of what a name stands for, and which thing it is. It takes no memory.
pub fn answered_value(found: NameAnswer) -> Value
    ensures { value_of result ≡ spec.answered_value (name_answer_of found) }
{
    Value {
        ty: found.ty,
        special_form: special_form_of_kind(found.kind),
    }
}

/// Which thing a name of this kind is.
fn special_form_of_kind(kind: NameKind) -> SpecialForm
    ensures { special_form_of result ≡ spec.special_form_of_kind (kind_of kind) }
{
    match kind {
        NameKind::Fixed(name) => SpecialForm::Fixed(name),
        _ => SpecialForm::Plain,
    }
}
