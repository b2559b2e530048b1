//! Checks one after another: their reports, and how many units each examines.

use indexmap::IndexSet;
use pyc_daemon::Options;
use pyc_names::ModuleName;
use pyc_report::Report;
use pyc_reuse::{LastCheck, check_again};
use pyc_workspace::{File, Workspace};
use std::alloc::{AllocError, Global};
use std::process::Abort;
use std::test::Fail;

const OPTIONS: Options = Options {
    ignore_missing: false,
    check_untyped: false,
    turns: 9,
};

// A module of a function, and one that calls it.
const RATE: &str = "def rate() -> int:\n    return 1\n";

const USE: &str = "from rate import rate\n\nx: str = rate()\n";

fn put(alloc: Global, present: &mut Workspace, path: &str, text: &str) -> Result<(), AllocError> {
    let name = ModuleName::of_path(alloc, path)?;
    present.put(File::new(alloc, path, name, text.as_bytes().to_vec(alloc)?)?)
}

fn two_files(alloc: Global) -> Result<Workspace, AllocError> {
    let mut present = Workspace::new(alloc);
    put(alloc, &mut present, "rate.py", RATE)?;
    put(alloc, &mut present, "use.py", USE)?;
    Ok(present)
}

// The paths of files that were put.
fn touched(alloc: Global, paths: &[&str]) -> Result<IndexSet<String>, AllocError> {
    let mut set = IndexSet::new(alloc);
    for path in paths {
        set.reserve(1)?;
        set.insert(String::from_str(alloc, path)?)?;
    }
    Ok(set)
}

// A first check of the two files, and what it leaves.
fn first_check(alloc: Global, present: &Workspace) -> Result<(Report, LastCheck), AllocError> {
    let last = LastCheck::of_nothing(alloc, OPTIONS)?;
    let touched = touched(alloc, &["rate.py", "use.py"])?;
    let (last, report) = check_again(alloc, last, present.held(), &touched);
    Ok((report?, last))
}

// Asserts how many files and units a check left, and how many units it examined.
fn assert_counts(rt: &impl Abort, last: &LastCheck, files: usize, units: usize, examined: usize) {
    assert_eq!(rt; last.count_files(), files);
    assert_eq!(rt; last.count_units(), units);
    assert_eq!(rt; last.count_examined(), examined);
}

const WRONG: &str = "\
use.py:3: error: Incompatible types in assignment (expression has type \"int\", variable has type \"str\")  [assignment]
Found 1 error in 1 file (checked 2 source files)
";

const CLEAN: &str = "Success: no issues found in 2 source files\n";

#[test]
fn nothing_was_examined_before(rt: HostRuntime) -> Result<(), Fail> {
    let last = LastCheck::of_nothing(rt.alloc(), OPTIONS)?;
    assert_counts(&rt, &last, 0, 0, 0);
    Ok(())
}

#[test]
fn first_check_examines_all(rt: HostRuntime) -> Result<(), Fail> {
    let present = two_files(rt.alloc())?;
    let (report, last) = first_check(rt.alloc(), &present)?;
    assert_eq!(rt; report.text.as_str(), WRONG);
    // a header and a body of each module, and a function
    assert_counts(&rt, &last, 2, 5, 5);
    Ok(())
}

#[test]
fn nothing_changed_examines_nothing(rt: HostRuntime) -> Result<(), Fail> {
    let present = two_files(rt.alloc())?;
    let (_, first) = first_check(rt.alloc(), &present)?;
    let (last, report) = check_again(
        rt.alloc(),
        first,
        present.held(),
        &touched(rt.alloc(), &[])?,
    );
    assert_eq!(rt; report?.text.as_str(), WRONG);
    assert_counts(&rt, &last, 2, 5, 0);
    Ok(())
}

#[test]
fn other_result_examines_its_readers(rt: HostRuntime) -> Result<(), Fail> {
    let mut present = two_files(rt.alloc())?;
    let (_, first) = first_check(rt.alloc(), &present)?;
    put(
        rt.alloc(),
        &mut present,
        "rate.py",
        "def rate() -> str:\n    return \"\"\n",
    )?;
    let (last, report) = check_again(
        rt.alloc(),
        first,
        present.held(),
        &touched(rt.alloc(), &["rate.py"])?,
    );
    assert_eq!(rt; report?.text.as_str(), CLEAN);
    // three units of the file, and the body of the module that calls its function
    assert_counts(&rt, &last, 2, 5, 4);
    Ok(())
}

#[test]
fn other_body_examines_its_file_alone(rt: HostRuntime) -> Result<(), Fail> {
    let mut present = two_files(rt.alloc())?;
    let (_, first) = first_check(rt.alloc(), &present)?;
    put(
        rt.alloc(),
        &mut present,
        "rate.py",
        "def rate() -> int:\n    return 2\n",
    )?;
    let (last, report) = check_again(
        rt.alloc(),
        first,
        present.held(),
        &touched(rt.alloc(), &["rate.py"])?,
    );
    assert_eq!(rt; report?.text.as_str(), WRONG);
    assert_counts(&rt, &last, 2, 5, 3);
    Ok(())
}
