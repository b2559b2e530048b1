//! Files, modules and names for the tests.

use pyc_ast::{Module, Outcome, Text};
use pyc_lower::read;
use pyc_names::{Interface, ModuleName, QualifiedName, SourceFile, module_of_parts};
use std::alloc::{AllocError, Global};
use std::rc::Rc;
use std::test::Fail;

/// The tree of a source.
pub(crate) fn tree_of(alloc: Global, source: &str) -> Result<Module, Fail> {
    match read(alloc, source.as_bytes())? {
        Outcome::Tree(module) => Ok(module),
        Outcome::Fault(_) => Err("no tree".into()),
    }
}

/// A file of this path and source, as names see it.
pub(crate) fn file_of(alloc: Global, path: &str, source: &[u8]) -> Result<SourceFile, AllocError> {
    let name = ModuleName::of_path(alloc, path)?;
    SourceFile::new(alloc, path, name, read(alloc, source)?)
}

/// The interfaces of files, each of its path and source.
pub(crate) fn interfaces_of(
    alloc: Global,
    sources: &[(&str, &str)],
) -> Result<Vec<Rc<Interface>>, AllocError> {
    let mut interfaces = Vec::new(alloc);
    for (path, source) in sources {
        let file = file_of(alloc, path, source.as_bytes())?;
        interfaces.push(file.shared_interface().clone()?)?;
    }
    Ok(interfaces)
}

/// The parts of a dotted name.
pub(crate) fn dotted(alloc: Global, name: &str) -> Result<Vec<Text>, AllocError> {
    let mut parts = Vec::new(alloc);
    for part in name.split('.') {
        if !part.is_empty() {
            parts.push(Text::new(alloc, part)?)?;
        }
    }
    Ok(parts)
}

/// The module that a dotted name names.
pub(crate) fn module_of(alloc: Global, name: &str) -> Result<ModuleName, AllocError> {
    module_of_parts(alloc, &[], &dotted(alloc, name)?)
}

/// A name of the module that a dotted name names.
pub(crate) fn name_of(
    alloc: Global,
    module_path: &str,
    name: &str,
) -> Result<QualifiedName, AllocError> {
    Ok(QualifiedName {
        module_path: module_of(alloc, module_path)?,
        name: Text::new(alloc, name)?,
    })
}
