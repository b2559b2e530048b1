//! The tables of texts, each against what the scan gives.

use super::{
    brackets, characters, encoding, ignores, indents, joined_lines, names, nesting, numbers,
    open_strings, operators, shown, strings,
};
use pyc_lex::{LexFault, scan};
use std::alloc::Global;
use std::process::Abort;
use std::test::Fail;

/// The lines and ignore comments of a text, or what is reported of its fault.
fn scanned(alloc: Global, source: &str) -> Result<String, Fail> {
    let bytes = source.as_bytes();
    match scan(alloc, bytes) {
        Ok(lines) => shown(alloc, bytes, &lines),
        Err(fault) => Ok(format!(in alloc; "{fault}")?),
    }
}

/// Each text has the lines and ignore comments that stand beside it.
fn check_lines(rt: &impl Abort, alloc: Global, cases: &[(&str, &str)]) -> Result<(), Fail> {
    for (source, want) in cases {
        assert_eq!(rt; scanned(alloc, source)?.as_str(), *want);
    }
    Ok(())
}

/// Each source has the fault that stands beside it.
fn check_faults(rt: &impl Abort, alloc: Global, cases: &[(&[u8], LexFault)]) {
    for (source, want) in cases {
        let got = scan(alloc, source).err();
        assert_eq!(rt; got, Some(*want), "of {source:?}");
    }
}

#[test]
fn reads_names(rt: HostRuntime) -> Result<(), Fail> {
    check_lines(&rt, rt.alloc(), names::CASES)
}

#[test]
fn reads_numbers(rt: HostRuntime) -> Result<(), Fail> {
    check_lines(&rt, rt.alloc(), numbers::CASES)
}

#[test]
fn reads_strings(rt: HostRuntime) -> Result<(), Fail> {
    check_lines(&rt, rt.alloc(), strings::CASES)
}

#[test]
fn reads_operators(rt: HostRuntime) -> Result<(), Fail> {
    check_lines(&rt, rt.alloc(), operators::CASES)
}

#[test]
fn reads_lines(rt: HostRuntime) -> Result<(), Fail> {
    check_lines(&rt, rt.alloc(), indents::CASES)?;
    check_lines(&rt, rt.alloc(), brackets::CASES)?;
    check_lines(&rt, rt.alloc(), joined_lines::CASES)
}

#[test]
fn reads_ignores(rt: HostRuntime) -> Result<(), Fail> {
    check_lines(&rt, rt.alloc(), ignores::CASES)
}

#[test]
fn reports_faults(rt: HostRuntime) {
    check_faults(&rt, rt.alloc(), encoding::CASES);
    check_faults(&rt, rt.alloc(), characters::CASES);
    check_faults(&rt, rt.alloc(), open_strings::CASES);
    check_faults(&rt, rt.alloc(), nesting::CASES);
}
