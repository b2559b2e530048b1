//! The units of a workspace and the report on checks of them, as users of the library ask for them.

use pyc_body::{Checked, Checker, Meter, numbered_units};
use pyc_iface::{Options, PlainWorld};
use pyc_known_answers::World;
use pyc_names::ModuleName;
use pyc_workspace::{File, Workspace, interfaces_of, report};
use std::alloc::{AllocError, Global};
use std::fmt::Write;
use std::rc::Rc;
use std::test::Fail;

/// What each file is looked at with.
const OPTIONS: Options = Options {
    ignore_missing: false,
    check_untyped: false,
    turns: 1_000_000,
};

/// A file that reads a name of another wrongly, and that other one.
const FILES: &[(&str, &str)] = &[
    ("b.py", "from a import x\ny: str = x\n"),
    ("a.py", "x: int = 1\ndef f() -> None: ...\n"),
];

fn workspace_of(alloc: Global, files: &[(&str, &str)]) -> Result<Workspace, AllocError> {
    let mut workspace = Workspace::new(alloc);
    for (path, text) in files {
        let name = ModuleName::of_path(alloc, path)?;
        workspace.put(File::new(alloc, path, name, text.as_bytes().to_vec(alloc)?)?)?;
    }
    Ok(workspace)
}

/// Adds checks of the units of a file to those of others.
fn push_checks(
    alloc: Global,
    keys: &mut World,
    file: &File,
    checks: &mut Vec<Checked>,
) -> Result<(), AllocError> {
    let mut meter = Meter::new(alloc);
    let checker = Checker::new(alloc, OPTIONS);
    for unit in &numbered_units(alloc, file.source())? {
        checks.push(checker.check_unit(&mut meter, keys, unit)?)?;
    }
    Ok(())
}

/// Checks of the units of all files of a workspace, over one another and in order.
fn checks_of(alloc: Global, workspace: &Workspace) -> Result<Vec<Checked>, AllocError> {
    let world = PlainWorld::build(alloc, &interfaces_of(alloc, workspace.held().files())?)?;
    let mut keys = World::new(alloc, Rc::new(alloc, world)?);
    let mut checks = Vec::new(alloc);
    for file in workspace.held().files() {
        push_checks(alloc, &mut keys, file, &mut checks)?;
    }
    Ok(checks)
}

/// The units of a workspace, each as its path and its number.
fn units_shown(alloc: Global, workspace: &Workspace) -> Result<String, Fail> {
    let mut shown = String::new(alloc);
    for unit in &workspace.held().units(alloc)? {
        let path = unit.path;
        let index = unit.index;
        write!(shown, "{path} {index};")?;
    }
    Ok(shown)
}

#[test]
fn units_stand_in_order(rt: HostRuntime) -> Result<(), Fail> {
    let workspace = workspace_of(rt.alloc(), FILES)?;
    let shown = units_shown(rt.alloc(), &workspace)?;
    assert_eq!(rt; shown.as_str(), "a.py 0;a.py 1;a.py 2;b.py 0;b.py 1;");
    assert_eq!(rt; checks_of(rt.alloc(), &workspace)?.len(), 5);
    Ok(())
}

#[test]
fn checks_of_all_units_are_reported(rt: HostRuntime) -> Result<(), Fail> {
    let workspace = workspace_of(rt.alloc(), FILES)?;
    let checks = checks_of(rt.alloc(), &workspace)?;
    let report = report(rt.alloc(), workspace.held().files(), &checks)?;
    assert_eq!(rt;
        report.text.as_str(),
        "b.py:2: error: Incompatible types in assignment (expression has type \"int\", variable has type \"str\")  \
         [assignment]\nFound 1 error in 1 file (checked 2 source files)\n"
    );
    assert!(rt; !report.clean);
    Ok(())
}
