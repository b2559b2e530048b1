//! Files of a session, as they are put in and taken out.

use pyc_ast::Outcome;
use pyc_names::ModuleName;
use pyc_workspace::{File, Workspace};
use std::alloc::{AllocError, Global};
use std::process::Abort;
use std::rc::Rc;
use std::test::Fail;

fn file_of(alloc: Global, path: &str, text: &str) -> Result<File, AllocError> {
    let name = ModuleName::of_path(alloc, path)?;
    File::new(alloc, path, name, text.as_bytes().to_vec(alloc)?)
}

// The paths of the files, each with a space after it.
fn listed(alloc: Global, workspace: &Workspace) -> Result<String, AllocError> {
    paths_of(alloc, workspace.held().files())
}

// The paths of these files, each with a space after it.
fn paths_of(alloc: Global, files: &[Rc<File>]) -> Result<String, AllocError> {
    let mut paths = String::new(alloc);
    for file in files {
        paths.push_str(file.path())?;
        paths.push(' ')?;
    }
    Ok(paths)
}

// The paths of three files, out of order.
const PATHS: &[&str] = &["b.py", "a.py", "c.py"];

fn three_files(alloc: Global) -> Result<Workspace, AllocError> {
    let mut workspace = Workspace::new(alloc);
    for path in PATHS {
        workspace.put(file_of(alloc, path, "x: int = 1\n")?)?;
    }
    Ok(workspace)
}

fn has_fault(file: &File) -> bool {
    matches!(file.source().outcome(), Outcome::Fault(_))
}

// Takes a file out, and asserts that it is no longer there.
fn assert_taken(rt: &impl Abort, workspace: &mut Workspace) {
    assert!(rt; workspace.take(b"b.py"));
    assert!(rt; !workspace.take(b"b.py"));
    assert!(rt; !workspace.contains(b"b.py"));
}

#[test]
fn keeps_files_in_order(rt: HostRuntime) -> Result<(), Fail> {
    let mut workspace = three_files(rt.alloc())?;
    assert_eq!(rt; listed(rt.alloc(), &workspace)?.as_str(), "a.py b.py c.py ");
    assert_taken(&rt, &mut workspace);
    assert_eq!(rt; listed(rt.alloc(), &workspace)?.as_str(), "a.py c.py ");
    workspace.put(file_of(rt.alloc(), "b.py", "")?)?;
    assert!(rt; workspace.contains(b"b.py"));
    assert_eq!(rt; listed(rt.alloc(), &workspace)?.as_str(), "a.py b.py c.py ");
    Ok(())
}

#[test]
fn replaces_the_file_of_a_path(rt: HostRuntime) -> Result<(), Fail> {
    let mut workspace = three_files(rt.alloc())?;
    let before = workspace.held().share(rt.alloc())?;
    workspace.put(file_of(rt.alloc(), "a.py", "\"")?)?;
    assert_eq!(rt; workspace.len(), 3);
    assert_eq!(rt; before.len(), 3);
    assert!(rt; has_fault(&workspace.held().files()[0]));
    assert!(rt; !has_fault(&before.files()[0]));
    Ok(())
}

/// Paths, with whether a file of another path names their module, where `a.py`, `b.py` and `c.py` are held.
const NAMED: &[(&str, bool)] = &[
    ("a/__init__.py", true),
    ("a/__init__.pyi", true),
    ("a.pyi", false),
    ("a/b.py", false),
    ("\u{ff41}.pyi", true),
];

#[test]
fn knows_the_modules_of_its_files(rt: HostRuntime) -> Result<(), Fail> {
    let workspace = three_files(rt.alloc())?;
    for (path, want) in NAMED {
        let name = ModuleName::of_path(rt.alloc(), path)?;
        assert!(rt; workspace.names_module(path, &name) == *want, "{path}");
    }
    Ok(())
}

/// Files, some of them beside their stubs, and the paths of those that are taken.
const TAKEN: &[(&[&str], &str)] = &[
    (&["a.py", "b.py"], "a.py b.py "),
    (&["a.py", "a.pyi", "b.py"], "a.pyi b.py "),
    (&["b.pyi", "a.py"], "a.py b.pyi "),
    (
        &["p/__init__.pyi", "p/__init__.py", "p/a.py"],
        "p/__init__.pyi p/a.py ",
    ),
    (&["a.py.pyi", "a.py.py", "a.py"], "a.py a.py.pyi "),
    (&["a.pyi", "\u{ff41}.py"], "a.pyi \u{ff41}.py "),
];

#[test]
fn stubs_are_taken_for_the_files_beside_them(rt: HostRuntime) -> Result<(), Fail> {
    for (paths, want) in TAKEN {
        let mut workspace = Workspace::new(rt.alloc());
        for path in *paths {
            workspace.put(file_of(rt.alloc(), path, "")?)?;
        }
        let taken = workspace.taken(rt.alloc())?;
        assert_eq!(rt; paths_of(rt.alloc(), taken.files())?.as_str(), *want);
        assert_eq!(rt; workspace.len(), paths.len());
    }
    Ok(())
}
