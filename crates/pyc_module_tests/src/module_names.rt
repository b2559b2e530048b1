//! Paths, with the modules that they name.

use pyc_names::ModuleName;
use std::alloc::{AllocError, Global};
use std::test::Fail;

/// The parts of the module that a path names, each with a space after it.
fn parts_of(alloc: Global, path: &str) -> Result<String, AllocError> {
    let name = ModuleName::of_path(alloc, path)?;
    let mut shown = String::new(alloc);
    for part in name.parts() {
        shown.push_str(part.as_str())?;
        shown.push_str(" ")?;
    }
    Ok(shown)
}

/// Paths, with the parts of the modules that they name.
const PATHS: &[(&str, &str)] = &[
    ("a.py", "a "),
    ("a/__init__.py", "a "),
    ("a/b.py", "a b "),
    ("__init__.py/a.py", "__init__.py a "),
    ("\u{fb01}.py", "fi "),
    ("a.pyi", "a "),
    ("a/__init__.pyi", "a "),
    ("a/b.pyi", "a b "),
    ("a.py.pyi", "a.py "),
];

#[test]
fn names_modules(rt: HostRuntime) -> Result<(), Fail> {
    for (path, parts) in PATHS {
        assert_eq!(rt; parts_of(rt.alloc(), path)?.as_str(), *parts, "at {path}");
    }
    Ok(())
}

#[test]
fn tells_modules_apart(rt: HostRuntime) -> Result<(), Fail> {
    let file = ModuleName::of_path(rt.alloc(), "a/b.py")?;
    let folder = ModuleName::of_path(rt.alloc(), "a/b/__init__.py")?;
    let stub = ModuleName::of_path(rt.alloc(), "a/b.pyi")?;
    let other = ModuleName::of_path(rt.alloc(), "b.py")?;
    assert!(rt; file == folder);
    assert!(rt; file == stub);
    assert!(rt; file != other);
    Ok(())
}
