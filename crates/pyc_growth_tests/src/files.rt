//! Files, keys and worlds for the tests.

use pyc_ast::Text;
use pyc_iface::{Key, Options, PlainWorld};
use pyc_known_answers::World;
use pyc_names::{ModuleName, QualifiedName};
use pyc_workspace::{File, interfaces_of};
use std::alloc::{AllocError, Global};
use std::rc::Rc;

/// Options with room for each test.
pub(crate) const OPTIONS: Options = Options {
    ignore_missing: false,
    check_untyped: false,
    turns: 1_000_000,
};

/// A file that calls a function of another one, whose result is not of its type, and that other one.
const FILES: &[(&str, &str)] = &[
    ("a.py", "from b import f\nx: int = f()\n"),
    ("b.py", "def f() -> str:\n    return \"s\"\n"),
];

/// Those two files.
pub(crate) fn two_files(alloc: Global) -> Result<Vec<Rc<File>>, AllocError> {
    let mut files = Vec::new(alloc);
    for (path, text) in FILES {
        let name = ModuleName::of_path(alloc, path)?;
        let file = File::new(alloc, path, name, text.as_bytes().to_vec(alloc)?)?;
        files.push(Rc::new(alloc, file)?)?;
    }
    Ok(files)
}

/// The world of files, without keys.
pub(crate) fn world_of(alloc: Global, files: &[Rc<File>]) -> Result<World, AllocError> {
    let world = PlainWorld::build(alloc, &interfaces_of(alloc, files)?)?;
    Ok(World::new(alloc, Rc::new(alloc, world)?))
}

/// The name `name` in the module of the file `path`.
pub(crate) fn name_in(alloc: Global, path: &str, name: &str) -> Result<QualifiedName, AllocError> {
    Ok(QualifiedName {
        module_path: ModuleName::of_path(alloc, path)?,
        name: Text::new(alloc, name)?,
    })
}

/// The keys on the name `name` of the module of the file `path`, and on that module.
pub(crate) fn keys_of(alloc: Global, path: &str, name: &str) -> Result<Vec<Key>, AllocError> {
    let mut keys = Vec::new(alloc);
    keys.push(Key::HasModule(ModuleName::of_path(alloc, path)?))?;
    keys.push(Key::HasName(name_in(alloc, path, name)?))?;
    keys.push(Key::Name(name_in(alloc, path, name)?))?;
    Ok(keys)
}
