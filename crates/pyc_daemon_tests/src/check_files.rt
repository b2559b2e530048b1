//! What a check of files writes, and its status.

use crate::fakes::{NEVER, Sink, Stop};
use crate::sources::Wanting;
use pyc_console::{CheckFault, Counted, Options, check_files, check_status};
use pyc_daemon::{MemorySource, Sources};
use std::alloc::{AllocError, Global};
use std::io::Write;
use std::test::Fail;

const OPTIONS: Options = Options {
    ignore_missing: false,
    check_untyped: false,
    turns: 1_000_000,
};

// The files of the source: one with an error, and the stub beside it, which has none.
const SOURCES: &[(&str, &str)] = &[("a.py", "x: int = \"a\"\n"), ("a.pyi", "x: int\n")];

// A source with these files.
fn source(alloc: Global) -> Result<MemorySource, AllocError> {
    let mut files = Vec::new(alloc);
    for (path, text) in SOURCES {
        let bytes = text.as_bytes().to_vec(alloc)?;
        files.push((String::from_str(alloc, path)?, bytes))?;
    }
    Ok(MemorySource::new(files))
}

// What a check answers of the files whose names this line has.
fn answer<O: Write + Drop, E: Write + Drop>(
    alloc: Global,
    line: &str,
    out: O,
    err: E,
) -> Result<Result<u8, CheckFault>, AllocError> {
    let mut sources = source(alloc)?;
    answer_from(alloc, &mut sources, line, out, err)
}

// What it answers where their bytes come from this source.
fn answer_from<S: Sources, O: Write + Drop, E: Write + Drop>(
    alloc: Global,
    sources: &mut S,
    line: &str,
    out: O,
    err: E,
) -> Result<Result<u8, CheckFault>, AllocError> {
    let mut files = Vec::new(alloc);
    for file in line.split_ascii_whitespace() {
        files.push(String::from_str(alloc, file)?)?;
    }
    let mut out = Counted::new(out);
    let mut err = Counted::new(err);
    Ok(check_files(
        alloc,
        sources,
        &mut out,
        &mut err,
        &OPTIONS,
        files.as_slice(),
    ))
}

const ERROR: &str =
    "a.py:1: error: Incompatible types in assignment (expression has type \"str\", variable has type \"int\")  [assignment]\nFound 1 error in 1 file (checked 1 source file)\n";

const NONE_CLEAN: &str = "Success: no issues found in 0 source files\n";

const UNREADABLE: &str = "dmypy: b.py: refused 10 unreadable\n";

// Names of files, with what is printed, what is reported, and the status.
const TEXTS: &[(&str, &str, &str, u8)] = &[
    ("b.py", NONE_CLEAN, UNREADABLE, 2),
    ("a.py", ERROR, "", 1),
    ("a.py a.py", ERROR, "", 1),
    (
        "a.py a.pyi",
        "Success: no issues found in 1 source file\n",
        "",
        0,
    ),
    ("b.py a.py", ERROR, UNREADABLE, 2),
    ("../a.py a.py", ERROR, "dmypy: ../a.py: refused 2 path\n", 2),
];

#[test]
fn texts_and_statuses(rt: HostRuntime) -> Result<(), Fail> {
    for (line, printed, reported, expected) in TEXTS {
        let mut out = Vec::new(rt.alloc());
        let mut err = Vec::new(rt.alloc());
        let answer = answer(rt.alloc(), line, &mut out, &mut err)?;
        assert_eq!(rt; answer, Ok(*expected), "at {line}");
        assert_eq!(rt; out.as_slice(), printed.as_bytes(), "at {line}");
        assert_eq!(rt; err.as_slice(), reported.as_bytes(), "at {line}");
    }
    Ok(())
}

const FULL: &str = "dmypy: the output cannot be written\n";

// Names of files, with how many bytes the output and the error output take, what is printed, what is reported, and the
// answer.
const FAULTS: &[(&str, usize, usize, &str, &str, Result<u8, CheckFault>)] = &[
    ("a.py", 0, NEVER, "", FULL, Err(CheckFault::Write)),
    ("a.py", 5, NEVER, "a.py:", FULL, Err(CheckFault::Write)),
    ("a.py", 5, 7, "a.py:", "dmypy: ", Err(CheckFault::Write)),
    ("b.py", 0, 0, "", "", Err(CheckFault::Write)),
    ("b.py a.py", NEVER, 0, ERROR, "", Ok(2)),
    ("b.py a.py b.py", NEVER, 9, ERROR, "dmypy: b.", Ok(2)),
    (
        "b.py a.py",
        5,
        9,
        "a.py:",
        "dmypy: b.",
        Err(CheckFault::Write),
    ),
    ("b.py a.py", 0, 35, "", UNREADABLE, Err(CheckFault::Write)),
];

#[test]
fn failing_writes(rt: HostRuntime) -> Result<(), Fail> {
    for (line, room, err_room, printed, reported, expected) in FAULTS {
        for stop in [Stop::Fault, Stop::Zero] {
            let mut kept = Vec::new(rt.alloc());
            let mut err_kept = Vec::new(rt.alloc());
            let out = Sink {
                room: *room,
                stop,
                ..Sink::new(&mut kept)
            };
            let err = Sink {
                room: *err_room,
                stop,
                ..Sink::new(&mut err_kept)
            };
            let answer = answer(rt.alloc(), line, out, err)?;
            assert_eq!(rt; answer, *expected, "at {line}");
            assert_eq!(rt; kept.as_slice(), printed.as_bytes(), "at {line}");
            assert_eq!(rt; err_kept.as_slice(), reported.as_bytes(), "at {line}");
        }
    }
    Ok(())
}

const MEMORY: &str = "dmypy: a.py: refused 9 memory\n";

// Names of files, with the number of the fetch that wants memory and how many bytes the error output takes, what is
// printed, what is reported, and the answer: where no line says that a file was refused for want of memory, there is no
// report.
const WANTING: &[(&str, usize, usize, &str, &str, Result<u8, CheckFault>)] = &[
    ("a.py", 0, NEVER, NONE_CLEAN, MEMORY, Ok(2)),
    ("a.py a.py", 0, 30, ERROR, MEMORY, Ok(2)),
    (
        "a.py b.py",
        0,
        34,
        NONE_CLEAN,
        "dmypy: a.py: refused 9 memory\ndmyp",
        Ok(2),
    ),
    (
        "a.py a.py",
        0,
        29,
        "",
        "dmypy: a.py: refused 9 memory",
        Err(CheckFault::Memory),
    ),
    ("b.py a.py a.py", 2, 0, "", "", Err(CheckFault::Memory)),
];

#[test]
fn files_that_want_memory(rt: HostRuntime) -> Result<(), Fail> {
    for (line, wanting, err_room, printed, reported, expected) in WANTING {
        for stop in [Stop::Fault, Stop::Zero] {
            let mut kept = Vec::new(rt.alloc());
            let mut err_kept = Vec::new(rt.alloc());
            let mut sources = Wanting::new(rt.alloc(), *wanting)?;
            let err = Sink {
                room: *err_room,
                stop,
                ..Sink::new(&mut err_kept)
            };
            let answer = answer_from(rt.alloc(), &mut sources, line, &mut kept, err)?;
            assert_eq!(rt; answer, *expected, "at {line}");
            assert_eq!(rt; kept.as_slice(), printed.as_bytes(), "at {line}");
            assert_eq!(rt; err_kept.as_slice(), reported.as_bytes(), "at {line}");
        }
    }
    Ok(())
}

#[test]
fn statuses_of_checks(rt: HostRuntime) -> Result<(), Fail> {
    for status in 0..3 {
        assert_eq!(rt; check_status(&Ok(status)), status);
    }
    assert_eq!(rt; check_status(&Err(CheckFault::Memory)), 2);
    assert_eq!(rt; check_status(&Err(CheckFault::Write)), 2);
    Ok(())
}
