//! Command lines, and what their words ask for.

use pyc_console::{Job, Options, TURNS, Usage, read_words, word_text};
use std::alloc::{AllocError, Global};
use std::test::Fail;

// What the words of a line, separated by spaces, ask for.
fn read_line(alloc: Global, line: &str) -> Result<Result<Job, Usage>, AllocError> {
    let mut words = Vec::new(alloc);
    for word in line.split_ascii_whitespace() {
        words.push(String::from_str(alloc, word)?)?;
    }
    Ok(read_words(alloc, words.as_slice()))
}

// Whether the words are refused with a text that has this part.
fn is_refused(alloc: Global, line: &str, part: &str) -> Result<bool, AllocError> {
    Ok(match read_line(alloc, line)? {
        Ok(_) => false,
        Err(usage) => usage.to_string(alloc)?.as_str().contains(part),
    })
}

// Lines that ask for a session, with its options.
const SESSIONS: &[(&str, bool, bool)] = &[
    ("dmypy session", false, false),
    ("dmypy session --ignore-missing-imports", true, false),
    ("dmypy session --check-untyped-defs", false, true),
    (
        "dmypy session --check-untyped-defs --ignore-missing-imports",
        true,
        true,
    ),
];

#[test]
fn sessions_with_their_options(rt: HostRuntime) -> Result<(), Fail> {
    for (line, ignore_missing, check_untyped) in SESSIONS {
        let options = Options {
            ignore_missing: *ignore_missing,
            check_untyped: *check_untyped,
            turns: 1_000_000_000,
        };
        let job = read_line(rt.alloc(), line)?.expect(&rt, line);
        assert_eq!(rt; job, Job::Session(options), "at {line}");
    }
    Ok(())
}

// Lines that ask for a check, with whether missing imports are left out and the files.
const CHECKS: &[(&str, bool, &str)] = &[
    ("dmypy check a.py", false, "a.py"),
    ("dmypy check a.py b/c.py a.py", false, "a.py b/c.py a.py"),
    ("dmypy check --ignore-missing-imports a.py", true, "a.py"),
    ("dmypy check a.py --ignore-missing-imports", true, "a.py"),
    ("dmypy check -- -a.py", false, "-a.py"),
];

// A check of the files whose names this line has.
fn check_of(alloc: Global, ignore_missing: bool, names: &str) -> Result<Job, AllocError> {
    let options = Options {
        ignore_missing,
        check_untyped: false,
        turns: 1_000_000_000,
    };
    let mut files = Vec::new(alloc);
    for name in names.split_ascii_whitespace() {
        files.push(String::from_str(alloc, name)?)?;
    }
    Ok(Job::Check(options, files))
}

#[test]
fn checks_with_their_files(rt: HostRuntime) -> Result<(), Fail> {
    for (line, ignore_missing, names) in CHECKS {
        let want = check_of(rt.alloc(), *ignore_missing, names)?;
        let job = read_line(rt.alloc(), line)?.expect(&rt, line);
        assert_eq!(rt; job, want, "at {line}");
    }
    Ok(())
}

// Lines that ask for nothing, with a part of what is reported of each.
const NO_JOBS: &[(&str, &str)] = &[
    ("", "Usage: dmypy <COMMAND>"),
    ("dmypy", "Usage: dmypy <COMMAND>"),
    ("dmypy watch", "unrecognized subcommand 'watch'"),
    ("dmypy session --strict", "unexpected argument '--strict'"),
    ("dmypy session a.py", "unexpected argument 'a.py'"),
    ("dmypy check", "<FILE>..."),
    (
        "dmypy check --strict a.py",
        "unexpected argument '--strict'",
    ),
    ("dmypy --help", "Usage: dmypy <COMMAND>"),
    ("dmypy session --help", "--ignore-missing-imports"),
    ("dmypy --help", "Checks annotated Python files"),
    ("dmypy --help", "Answers the commands on standard input"),
    ("dmypy --help", "Checks files once"),
    ("dmypy session --help", "--check-untyped-defs"),
    (
        "dmypy session --help",
        "Leaves out errors about imports that are not found",
    ),
    (
        "dmypy check --help",
        "Checks the bodies of functions without annotations",
    ),
    ("dmypy check --help", "The paths of the files"),
];

#[test]
fn words_that_are_no_job(rt: HostRuntime) -> Result<(), Fail> {
    for (line, part) in NO_JOBS {
        assert!(rt; is_refused(rt.alloc(), line, part)?, "at {line}");
    }
    Ok(())
}

// Bytes of words, with their texts.
const TEXTS: &[(&[u8], &str)] = &[
    (b"", ""),
    (b"check", "check"),
    (b"caf\xc3\xa9.py", "caf\u{e9}.py"),
    (b"caf\xe9.py", "caf\u{1a}.py"),
    (b"\xff\xfe", "\u{1a}\u{1a}"),
    (b"\xe2\x82", "\u{1a}"),
    (b"\xe2\x82a\xed\xa0\x80", "\u{1a}a\u{1a}\u{1a}\u{1a}"),
];

#[test]
fn words_that_are_no_text(rt: HostRuntime) -> Result<(), Fail> {
    for (bytes, expected) in TEXTS {
        assert_eq!(rt; word_text(rt.alloc(), bytes)?.as_str(), *expected);
    }
    Ok(())
}
