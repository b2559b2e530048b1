//! What names mean, looked up by their keys.

ghost use Rattle.std.specs.Prelude.{◌≡◌, None};
ghost use Rattle.pyc_annotations.specs.Annotations as rule;
ghost use Rattle.pyc_annotations.specs.Meanings as spec;
ghost use Rattle.pyc_annotations.specs.Views.{meaning_of};
ghost use Rattle.pyc_names.specs.FixedModules as fixed;
ghost use Rattle.pyc_names.specs.InterfaceView.{interface_in};
ghost use Rattle.pyc_reading.specs.AnswerView.{kind_of, name_answer_of};
ghost use Rattle.pyc_reading.specs.Traces.{Performs};

use crate::meaning::{Meaning, Role, answer_meaning, builtin_meaning, fixed_meaning, kind_meaning};
use crate::messages::{no_attribute, report_undefined};
use pyc_ast::{Position, Text};
use pyc_builtins::{BuiltinName, builtin_name, is_dunder};
use pyc_names::{Interface, ModuleName, QualifiedName, fixed_module, fixed_name};
use pyc_reading::{Ask, Key, NameAnswer, NameKind, ask_outside};
use std::alloc::{AllocError, Global};

/// What a name of a module means.
#[tactic(auto, unfolding(crate::specs::Meanings::module_name_meaning))]
fn module_name_meaning<N: Ask>(
    alloc: Global,
    recorder: &mut N,
    module_path: &ModuleName,
    name: &Text,
) -> Result<Meaning, AllocError>
    ensures { Performs meaning_of (spec.module_name_meaning module_path.now name.now) (N.trace recorder.old) result
        (N.trace recorder.new) }
{
    match fixed_module(module_path.parts()) {
        Some(found) => Ok(fixed_meaning(fixed_name(found, name.as_str()))),
        None => ask_meaning(alloc, recorder, module_path, name),
    }
}

/// What a name of a module that is no fixed one means.
fn ask_meaning<N: Ask>(
    alloc: Global,
    recorder: &mut N,
    module_path: &ModuleName,
    name: &Text,
) -> Result<Meaning, AllocError>
    ensures { Performs meaning_of (spec.name_in_module module_path.now name.now None)
        (N.trace recorder.old) result (N.trace recorder.new) }
{
    let key = Key::Name(QualifiedName {
        module_path: module_path.clone()?,
        name: name.clone()?,
    });
    let answer = recorder.ask(alloc, key)?;
    answer_meaning(answer)
}

/// What a name of the own module means, by whether that binds it.
fn own_meaning<N: Ask>(
    alloc: Global,
    recorder: &mut N,
    at: Position,
    name: &Text,
    is_bound: bool,
    found: Meaning,
) -> Result<Meaning, AllocError>
    ensures { Performs meaning_of (spec.own_meaning at name.now is_bound (meaning_of found)) (N.trace recorder.old)
        result
        (N.trace recorder.new) }
{
    if is_bound {
        Ok(found)
    } else {
        unbound(alloc, recorder, at, name.as_str())
    }
}

/// What a name that the module does not bind means.
#[tactic(auto, unfolding(crate::specs::Meanings::unbound))]
fn unbound<N: Ask>(
    alloc: Global,
    recorder: &mut N,
    at: Position,
    name: &str,
) -> Result<Meaning, AllocError>
    ensures { Performs meaning_of (spec.unbound at name.now) (N.trace recorder.old) result (N.trace recorder.new) }
{
    if name == "type" {
        Ok(Meaning::Type)
    } else {
        found_builtin(alloc, recorder, at, name, builtin_name(name))
    }
}

/// What a name that the module does not bind means, by what it is among the builtins.
fn found_builtin<N: Ask>(
    alloc: Global,
    recorder: &mut N,
    at: Position,
    name: &str,
    found: Option<BuiltinName>,
) -> Result<Meaning, AllocError>
    ensures { Performs meaning_of (spec.found_builtin at name.now found) (N.trace recorder.old) result
        (N.trace recorder.new) }
{
    match found {
        Some(found) => Ok(builtin_meaning(found)),
        None => no_builtin(alloc, recorder, at, name),
    }
}

/// What a name that is no builtin means: where two underscores stand at both ends it is Any, else it is reported.
fn no_builtin<N: Ask>(
    alloc: Global,
    recorder: &mut N,
    at: Position,
    name: &str,
) -> Result<Meaning, AllocError>
    ensures { Performs meaning_of (spec.no_builtin at name.now) (N.trace recorder.old) result (N.trace recorder.new) }
{
    if is_dunder(name) {
        Ok(Meaning::Any)
    } else {
        report_undefined(alloc, recorder, at, name)
    }
}

/// Whether a file binds a name at its top level.
fn binds(file: &Interface, name: &Text) -> bool
    ensures { result ≡ spec.binds (interface_in file.now) name.now }
{
    file.declaration(name).is_some()
}

/// What a name that stands in a file means: one that nothing defines is reported.
#[tactic(auto, using(crate::proofs::Steps::performing), unfolding(crate::specs::Meanings::own_name))]
fn own_name<N: Ask>(
    alloc: Global,
    recorder: &mut N,
    file: &Interface,
    at: Position,
    name: &Text,
) -> Result<Meaning, AllocError>
    ensures { Performs meaning_of (spec.own_name (interface_in file.now) at name.now) (N.trace recorder.old) result
        (N.trace recorder.new) }
{
    let found = module_name_meaning(alloc, recorder, file.name(), name)?;
    own_meaning(alloc, recorder, at, name, binds(file, name), found)
}

/// What an attribute of a module means: one that the module does not have is reported.
#[tactic(auto, unfolding(crate::specs::Meanings::module_attribute))]
fn module_attribute<N: Ask>(
    alloc: Global,
    recorder: &mut N,
    at: Position,
    module_path: &ModuleName,
    name: &Text,
) -> Result<Meaning, AllocError>
    ensures { Performs meaning_of (spec.module_attribute at module_path.now name.now) (N.trace recorder.old) result
        (N.trace recorder.new) }
{
    if is_dunder(name.as_str()) {
        Ok(Meaning::Any)
    } else {
        attribute_in_module(alloc, recorder, at, module_path, name)
    }
}

/// What an attribute of a module means, which has not two underscores at both ends.
fn attribute_in_module<N: Ask>(
    alloc: Global,
    recorder: &mut N,
    at: Position,
    module_path: &ModuleName,
    name: &Text,
) -> Result<Meaning, AllocError>
    ensures { Performs meaning_of (spec.attribute_in_module at module_path.now name.now
        (fixed.fixed_module module_path.now))
        (N.trace recorder.old) result (N.trace recorder.new) }
{
    match fixed_module(module_path.parts()) {
        Some(found) => Ok(fixed_meaning(fixed_name(found, name.as_str()))),
        None => ask_attribute(alloc, recorder, at, module_path, name),
    }
}

/// What an attribute of a module that is no fixed one means.
#[tactic(auto, using(crate::proofs::Steps::performing))]
fn ask_attribute<N: Ask>(
    alloc: Global,
    recorder: &mut N,
    at: Position,
    module_path: &ModuleName,
    name: &Text,
) -> Result<Meaning, AllocError>
    ensures { Performs meaning_of (spec.attribute_in_module at module_path.now name.now None) (N.trace recorder.old)
        result
        (N.trace recorder.new) }
{
    let asked = QualifiedName {
        module_path: module_path.clone()?,
        name: name.clone()?,
    };
    let found = ask_outside(alloc, recorder, &asked)?;
    attribute_of_kind(alloc, recorder, at, name.as_str(), found)
}

/// What an attribute of a module means, by what it stands for: where its module does not have it that is reported.
fn attribute_of_kind<N: Ask>(
    alloc: Global,
    recorder: &mut N,
    at: Position,
    name: &str,
    found: NameAnswer,
) -> Result<Meaning, AllocError>
    ensures { Performs meaning_of (spec.attribute_of_kind at name.now (name_answer_of found) (kind_of found.kind))
        (N.trace recorder.old) result (N.trace recorder.new) }
{
    match &found.kind {
        NameKind::NoName => no_attribute(alloc, recorder, at, name),
        _ => kind_meaning(found.kind, &found.ty),
    }
}

/// What an attribute of a variable or a function means, by whether it is Any.
fn attribute_of_value(is_any: bool) -> Meaning
    ensures { meaning_of result ≡ rule.attribute_of_value is_any }
{
    if is_any {
        Meaning::Any
    } else {
        Meaning::Nothing
    }
}

/// What an attribute of what a name means is.
fn attribute_meaning<N: Ask>(
    alloc: Global,
    recorder: &mut N,
    role: Role,
    at: Position,
    name: &Text,
    value: Meaning,
) -> Result<Meaning, AllocError>
    ensures { Performs meaning_of (rule.attribute_meaning role at name.now (meaning_of value)) (N.trace recorder.old)
        result (N.trace recorder.new) }
{
    match value {
        Meaning::Module(module_path) => module_attribute(alloc, recorder, at, &module_path, name),
        Meaning::Any | Meaning::Type | Meaning::Fixed(_) => Ok(Meaning::Any),
        Meaning::Variable(is_any) | Meaning::Function(is_any) => {
            Ok(attribute_of_value(role.is_base() && is_any))
        }
        _ => Ok(Meaning::Nothing),
    }
}

/// What attributes one behind another mean, of what a name means.
#[tactic(auto, using(crate::proofs::Steps::performing), unfolding(crate::specs::Annotations::attributes))]
fn attributes<N: Ask>(
    alloc: Global,
    recorder: &mut N,
    role: Role,
    at: Position,
    names: &[Text],
    found: Meaning,
) -> Result<Meaning, AllocError>
    ensures { Performs meaning_of (rule.attributes role at names.now (meaning_of found)) (N.trace recorder.old) result
        (N.trace recorder.new) }
{
    let mut found = found;
    for name in names {
        found = attribute_meaning(alloc, recorder, role, at, name, found)?;
    }
    Ok(found)
}

/// What names joined by dots mean that begin at a position in a file.
#[tactic(auto, using(crate::proofs::Steps::performing), unfolding(crate::specs::Annotations::dotted_meaning))]
pub(crate) fn dotted_meaning<N: Ask>(
    alloc: Global,
    recorder: &mut N,
    role: Role,
    file: &Interface,
    at: Position,
    names: &[Text],
) -> Result<Meaning, AllocError>
    ensures { Performs meaning_of (rule.dotted_meaning role (interface_in file.now) at names.now) (N.trace recorder.old)
        result (N.trace recorder.new) }
{
    match names {
        [first, rest @ ..] => {
            let found = own_name(alloc, recorder, file, at, first)?;
            let meaning = attributes(alloc, recorder, role, at, rest, found)?;
            Ok(meaning)
        }
        [] => Ok(Meaning::Nothing),
    }
}
