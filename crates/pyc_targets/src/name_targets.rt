//! What names of a module take.

ghost use Rattle.std.specs.Prelude.{◌≡◌, None, Option, option_map};
ghost use Rattle.pyc_bindings.specs.BindingView.{binding_form_of, binding_of};
ghost use Rattle.pyc_names.specs.FixedModules as fixed;
ghost use Rattle.pyc_names.specs.SourceFileView.{source_in};
ghost use Rattle.pyc_reading.specs.AnswerView.{name_answer_of};
ghost use Rattle.pyc_reading.specs.Traces.{Performs};
ghost use Rattle.pyc_targets.specs.NameTargets as spec;
ghost use Rattle.pyc_type_forms.specs.TypeView.{ty_of};

use pyc_ast::{Position, Text};
use pyc_bindings::{Binding, BindingForm};
use pyc_names::{QualifiedName, SourceFile, fixed_module};
use pyc_obligations::{AskTypes, ask_name};
use pyc_reading::NameAnswer;
use pyc_type_forms::Ty;
use std::alloc::{AllocError, Global};

/// What a name of a file's top level takes: None where nothing is required of it, since an import, a function or a
/// class declares it, or the file does not bind it. The only error is that memory runs out.
#[tactic(auto, unfolding(crate::specs::NameTargets::declared_type))]
pub fn declared_type<N: AskTypes>(
    alloc: Global,
    recorder: &mut N,
    file: &SourceFile,
    name: &Text,
) -> Result<Option<Ty>, AllocError>
    ensures { Performs (option_map ty_of) (spec.declared_type (source_in file.now) name.now) (N.trace recorder.old)
        result
        (N.trace recorder.new) }
{
    match file.declaration(name) {
        Some(found) => variable_type(alloc, recorder, file, name, is_definition(&found.form)),
        None => own_type(alloc, recorder, file, name, false),
    }
}

/// What `name` takes, which `file` binds; `is_definition` says whether an import, a function or a class declares it.
fn variable_type<N: AskTypes>(
    alloc: Global,
    recorder: &mut N,
    file: &SourceFile,
    name: &Text,
    is_definition: bool,
) -> Result<Option<Ty>, AllocError>
    ensures { Performs (option_map ty_of) (spec.variable_type (source_in file.now) name.now is_definition)
        (N.trace recorder.old) result (N.trace recorder.new) }
{
    if is_definition {
        Ok(None)
    } else {
        own_type(alloc, recorder, file, name, true)
    }
}

/// Whether an import, a function or a class is what binds a name.
fn is_definition(form: &BindingForm) -> bool
    ensures { result ≡ spec.is_definition (binding_form_of form.now) }
{
    match form {
        BindingForm::Import(_) => true,
        BindingForm::ImportFirst(_) => true,
        BindingForm::ImportFrom(_, _) => true,
        BindingForm::Function(_) => true,
        BindingForm::Class(_) => true,
        _ => false,
    }
}

/// The type of a name of a file, of a fixed module or by its key.
fn own_type<N: AskTypes>(
    alloc: Global,
    recorder: &mut N,
    file: &SourceFile,
    name: &Text,
    is_bound: bool,
) -> Result<Option<Ty>, AllocError>
    ensures { Performs (option_map ty_of)
        (spec.own_type (source_in file.now) name.now is_bound (fixed.fixed_module (source_in file.now).name))
        (N.trace recorder.old) result (N.trace recorder.new) }
{
    match fixed_module(file.name().parts()) {
        Some(_) => Ok(any_if_bound(is_bound)),
        None => ask_type(alloc, recorder, file, name, is_bound),
    }
}

/// What a name of a fixed module takes.
fn any_if_bound(is_bound: bool) -> Option<Ty>
    ensures { option_map ty_of result ≡ spec.any_if_bound is_bound }
{
    if is_bound { Some(Ty::Any) } else { None }
}

/// The type of a name of a module that is no fixed one.
#[tactic(auto, using(pyc_obligations::proofs::Steps::performing))]
fn ask_type<N: AskTypes>(
    alloc: Global,
    recorder: &mut N,
    file: &SourceFile,
    name: &Text,
    is_bound: bool,
) -> Result<Option<Ty>, AllocError>
    ensures { Performs (option_map ty_of) (spec.own_type (source_in file.now) name.now is_bound None)
        (N.trace recorder.old) result (N.trace recorder.new) }
{
    let asked = QualifiedName {
        module_path: file.name().clone()?,
        name: name.clone()?,
    };
    let found = ask_name(alloc, recorder, asked)?;
    Ok(type_if_bound(is_bound, found))
}

/// What is required of a name of this type.
fn type_if_bound(is_bound: bool, found: NameAnswer) -> Option<Ty>
    ensures { option_map ty_of result ≡ spec.type_if_bound is_bound (name_answer_of found) }
{
    if is_bound { Some(found.ty) } else { None }
}

/// Whether the annotated assignment that begins at a position declares a name of a file: in a fixed module's file none
/// does. It takes no memory.
#[tactic(auto, unfolding(crate::specs::NameTargets::declares_at))]
pub fn declares_at(file: &SourceFile, at: Position, name: &Text) -> bool
    ensures { result ≡ spec.declares_at (source_in file.now) at name.now }
{
    if fixed_module(file.name().parts()).is_some() {
        false
    } else {
        is_annotated_at(at, file.declaration(name))
    }
}

/// Whether a declaration is the annotated assignment that begins at a position.
fn is_annotated_at(at: Position, found: Option<&Binding>) -> bool
    ensures { result ≡ spec.is_annotated_at at (option_map (λ found. binding_of found.now) found.entry) }
{
    match found {
        Some(found) => is_annotated(&found.form) && same_position(found.place.at, at),
        None => false,
    }
}

/// Whether an annotated assignment binds a name.
fn is_annotated(form: &BindingForm) -> bool
    ensures { result ≡ spec.is_annotated (binding_form_of form.now) }
{
    match form {
        BindingForm::Annotated(_) => true,
        _ => false,
    }
}

/// Whether two positions are one.
fn same_position(a: Position, b: Position) -> bool
    ensures { result ≡ spec.same_position a b }
{
    a.line == b.line && a.column == b.column
}
