//! Modules that imports name, and which modules are there.

use crate::sources::{dotted, interfaces_of};
use pyc_names::{
    FixedModule, FixedName, ModuleName, Table, fixed_module, fixed_name, named_module,
};
use std::alloc::{AllocError, Global};
use std::test::Fail;

/// Whether an import in the file of a path names this module, or none.
fn names(
    alloc: Global,
    path: &str,
    dots: usize,
    name: &str,
    wanted: Option<&str>,
) -> Result<bool, AllocError> {
    let own = ModuleName::of_path(alloc, path)?;
    let is_package = path.ends_with("__init__.py");
    let found = named_module(alloc, &own, is_package, dots, &dotted(alloc, name)?)?;
    Ok(match (found, wanted) {
        (Some(found), Some(wanted)) => found.parts() == dotted(alloc, wanted)?.as_slice(),
        (None, None) => true,
        _ => false,
    })
}

/// The file's path, the dots and the parts of an import in it, and the module that it names.
const IMPORTS: &[(&str, usize, &str, Option<&str>)] = &[
    ("a.py", 0, "b.c", Some("b.c")),
    ("a.py", 1, "b", Some("b")),
    ("a.py", 1, "", Some("")),
    ("a.py", 2, "z", None),
    ("p/q.py", 1, "m", Some("p.m")),
    ("p/q.py", 2, "m", Some("m")),
    ("p/q.py", 3, "m", None),
    ("p/__init__.py", 1, "", Some("p")),
    ("p/__init__.py", 1, "m", Some("p.m")),
    ("p/__init__.py", 2, "m", Some("m")),
    ("p/__init__.py", 3, "m", None),
    ("p/q/r.py", 2, "s.t", Some("p.s.t")),
];

#[test]
fn imports_name_modules(rt: HostRuntime) -> Result<(), Fail> {
    for (path, dots, name, wanted) in IMPORTS {
        let is_named = names(rt.alloc(), path, *dots, name, *wanted)?;
        assert!(rt; is_named, "{path} {dots} {name}");
    }
    Ok(())
}

/// A file, one in a folder of a folder, and one of a package.
const FILES: &[(&str, &str)] = &[("a.py", ""), ("p/q/r.py", ""), ("pkg/__init__.py", "")];

/// Whether a module is there where these files are.
fn is_found(alloc: Global, name: &str) -> Result<bool, AllocError> {
    let table = Table::build(alloc, &interfaces_of(alloc, FILES)?)?;
    Ok(table.has_module(&dotted(alloc, name)?))
}

/// Modules, with whether they are there.
const THERE: &[(&str, bool)] = &[
    ("", true),
    ("a", true),
    ("a.b", false),
    ("p", true),
    ("p.q", true),
    ("p.q.r", true),
    ("p.q.r.s", false),
    ("q", false),
    ("pkg", true),
    ("pk", false),
    ("typing", true),
    ("collections.abc", true),
    ("collections.xyz", false),
    ("typing_extensions", true),
    ("__future__", true),
    ("abc", true),
    ("os", false),
];

#[test]
fn modules_are_there(rt: HostRuntime) -> Result<(), Fail> {
    for (name, there) in THERE {
        assert_eq!(rt; is_found(rt.alloc(), name)?, *there, "{name}");
    }
    Ok(())
}

/// Modules, with the fixed ones that they are.
const FIXED_MODULES: &[(&str, Option<FixedModule>)] = &[
    ("typing", Some(FixedModule::Typing)),
    ("collections", Some(FixedModule::Collections)),
    ("collections.abc", Some(FixedModule::CollectionsAbc)),
    ("abc.collections", None),
    ("typing.io", None),
    ("", None),
];

/// Names of fixed modules, with the fixed ones that they are.
const FIXED_NAMES: &[(FixedModule, &str, Option<FixedName>)] = &[
    (FixedModule::Typing, "Optional", Some(FixedName::Optional)),
    (
        FixedModule::Typing,
        "TYPE_CHECKING",
        Some(FixedName::TypeChecking),
    ),
    (FixedModule::TypingExtensions, "cast", Some(FixedName::Cast)),
    (FixedModule::Typing, "overload", None),
    (
        FixedModule::CollectionsAbc,
        "Callable",
        Some(FixedName::Callable),
    ),
    (FixedModule::CollectionsAbc, "List", None),
    (FixedModule::Collections, "Callable", None),
    (FixedModule::Abc, "Any", None),
];

#[test]
fn names_of_fixed_modules(rt: HostRuntime) -> Result<(), Fail> {
    let a = rt.alloc();
    for (name, wanted) in FIXED_MODULES {
        assert!(rt; fixed_module(&dotted(a, name)?) == *wanted, "{name}");
    }
    for (module_path, name, wanted) in FIXED_NAMES {
        assert!(rt;
            fixed_name(*module_path, name) == *wanted,
            "{module_path:?} {name}"
        );
    }
    Ok(())
}
