//! Trees, worlds and classes for the tests, and what worlds answer of classes.

use pyc_ast::{Module, Outcome, Text};
use pyc_class_ids::{ClassId, UnknownMro};
use pyc_iface::{Answer, Key, MemberAnswer, PlainWorld};
use pyc_lower::read;
use pyc_names::{Interface, ModuleName, SourceFile};
use pyc_types::{BuiltinName, builtin_name, show};
use std::alloc::{AllocError, Global};
use std::rc::Rc;
use std::test::Fail;

/// The tree of a source.
pub(crate) fn module_of(alloc: Global, source: &str) -> Result<Module, Fail> {
    match read(alloc, source.as_bytes())? {
        Outcome::Tree(module) => Ok(module),
        Outcome::Fault(_) => Err("no tree".into()),
    }
}

/// The interface of a file of this path and source, shared.
pub(crate) fn interface_of(
    alloc: Global,
    path: &str,
    source: &str,
) -> Result<Rc<Interface>, AllocError> {
    let name = ModuleName::of_path(alloc, path)?;
    let outcome = read(alloc, source.as_bytes())?;
    let file = SourceFile::new(alloc, path, name, outcome)?;
    file.shared_interface().clone()
}

/// The interfaces of files, each of its path and source.
fn interfaces_of(
    alloc: Global,
    sources: &[(&str, &str)],
) -> Result<Vec<Rc<Interface>>, AllocError> {
    let mut interfaces = Vec::new(alloc);
    for (path, source) in sources {
        interfaces.push(interface_of(alloc, path, source)?)?;
    }
    Ok(interfaces)
}

/// The world of files, each of its path and source.
pub(crate) fn world_of(alloc: Global, sources: &[(&str, &str)]) -> Result<PlainWorld, AllocError> {
    PlainWorld::build(alloc, &interfaces_of(alloc, sources)?)
}

/// The one part of the name of a module.
fn parts(alloc: Global, name: &str) -> Result<Vec<Text>, AllocError> {
    Ok(vec![in alloc; Text::new(alloc, name)?]?)
}

/// The class of this name in the module of one name, or the builtin class of this name where no module is given.
pub(crate) fn class_of(
    alloc: Global,
    module_path: &str,
    name: &str,
) -> Result<ClassId, AllocError> {
    match builtin_name(name) {
        Some(BuiltinName::Class(class)) if module_path.is_empty() => Ok(ClassId::builtin(class)),
        _ => ClassId::user(alloc, parts(alloc, module_path)?, Text::new(alloc, name)?),
    }
}

/// What the world of these files answers to a key.
fn answer(alloc: Global, sources: &[(&str, &str)], key: &Key) -> Result<Answer, AllocError> {
    let world = world_of(alloc, sources)?;
    world.ask(alloc, key)
}

/// What the world of these files says of a class or of what it has under a name.
pub(crate) fn answered(alloc: Global, sources: &[(&str, &str)], key: &Key) -> Result<String, Fail> {
    let answer = answer(alloc, sources, key)?;
    reported(alloc, &answer)
}

/// What an answer gives: the order of a class, a member, or `absent` for none.
fn reported(alloc: Global, answer: &Answer) -> Result<String, Fail> {
    match answer {
        Answer::Mro(order) => { order_shown(alloc, &order.classes, order.unknown, order.has_call) }
        Answer::Member(Some(found)) => member_shown(alloc, found),
        Answer::Member(None) => Ok(String::from_str(alloc, "absent")?),
        _ => Err("no answer of a class".into()),
    }
}

/// The names of the classes of an order, why it is not known, and whether instances can be called.
pub(crate) fn order_shown(
    alloc: Global,
    classes: &[ClassId],
    unknown: Option<UnknownMro>,
    has_call: bool,
) -> Result<String, Fail> {
    let mut shown = String::new(alloc);
    for class in classes {
        shown.push_str(class.name())?;
        shown.push_str(" ")?;
    }
    shown.push_str(match unknown {
        Some(UnknownMro::Base) => "base",
        Some(UnknownMro::Cycle) => "cycle",
        Some(UnknownMro::Merge) => "merge",
        None => "known",
    })?;
    shown.push_str(if has_call { " called" } else { "" })?;
    Ok(shown)
}

/// A member: its kind, the class that declares it, and its type.
fn member_shown(alloc: Global, found: &MemberAnswer) -> Result<String, Fail> {
    let kind = found.kind;
    let class = found.class.name();
    let ty = show(alloc, &found.ty)?;
    Ok(format!(in alloc; "{kind:?} of {class}: {ty}")?)
}
