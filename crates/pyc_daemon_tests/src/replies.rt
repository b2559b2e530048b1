//! Replies and ends of sessions over readers and writers of each kind, and calls on a daemon.

use crate::fakes::{NEVER, OPTIONS, ShortReads, Sink, Stop, session};
use pyc_daemon::{Daemon, End, Refusal, RunFault, Status};
use std::alloc::Global;
use std::process::Abort;
use std::test::Fail;

// One file with an error, and its replies.
const ONE_ERROR: &str = "add a.py 13\nx: int = \"a\"\ncheck\nstop\n";

const ONE_ERROR_REPLIES: &str =
    "ok\na.py:1: error: Incompatible types in assignment (expression has type \"str\", variable has type \"int\")  [assignment]\nFound 1 error in 1 file (checked 1 source file)\nstatus 1\nok\n";

// The answer of a session over a reader, with at most so many reads, and what it writes.
fn replied(alloc: Global, reader: ShortReads<'_>, turns: u64) -> (Result<End, RunFault>, Vec<u8>) {
    let mut kept = Vec::new(alloc);
    let answer = session(alloc, reader, Sink::new(&mut kept), turns);
    (answer, kept)
}

// Inputs, with the replies to them and how the session ends.
const ENDS: &[(&str, &str, End)] = &[
    (ONE_ERROR, ONE_ERROR_REPLIES, End::Stopped),
    ("", "", End::EndOfInput),
    ("add a.py 10\nx=1\n", "refused 8 truncated\n", End::Broken),
];

// The most bytes of a read.
const MOST: &[usize] = &[NEVER, 1, 2, 3];

#[test]
fn ends_of_a_session(rt: HostRuntime) -> Result<(), Fail> {
    for (input, replies, end) in ENDS {
        for most in MOST {
            let reader = ShortReads::new(input.as_bytes(), *most);
            let (answer, kept) = replied(rt.alloc(), reader, OPTIONS.turns);
            assert_eq!(rt;
                kept.as_slice(),
                replies.as_bytes(),
                "{input:?}, at most {most} bytes a read"
            );
            assert!(rt;
                answer == Ok(*end),
                "{input:?}, at most {most} bytes a read"
            );
        }
    }
    Ok(())
}

// The first commands of that session end at these bytes.
const ADD_END: usize = 25;

const CHECK_END: usize = 31;

#[test]
fn a_reader_that_fails_at_each_call(rt: HostRuntime) -> Result<(), Fail> {
    for call in 0..12 {
        let reader = ShortReads {
            faulty: call,
            ..ShortReads::new(ONE_ERROR.as_bytes(), 3)
        };
        let (answer, kept) = replied(rt.alloc(), reader, 1_000_000);
        let read = 3 * call;
        let written = if read < ADD_END {
            0
        } else if read < CHECK_END {
            "ok\n".len()
        } else {
            ONE_ERROR_REPLIES.len() - "ok\n".len()
        };
        assert!(rt; answer == Err(RunFault::Read), "at call {call}");
        assert_eq!(rt;
            kept.as_slice(),
            &ONE_ERROR_REPLIES.as_bytes()[..written],
            "at call {call}"
        );
    }
    Ok(())
}

// The answer of that session over a writer that stops after so many bytes, and what it writes.
fn stopped(alloc: Global, room: usize, stop: Stop) -> (Result<End, RunFault>, Vec<u8>) {
    let mut kept = Vec::new(alloc);
    let writer = Sink {
        kept: &mut kept,
        most: 1,
        room,
        stop,
    };
    let reader = ShortReads::new(ONE_ERROR.as_bytes(), NEVER);
    let answer = session(alloc, reader, writer, 1_000_000);
    (answer, kept)
}

// How a writer stops.
const STOPS: &[Stop] = &[Stop::Fault, Stop::Zero];

#[test]
fn a_writer_that_stops_at_each_byte(rt: HostRuntime) -> Result<(), Fail> {
    for room in 0..ONE_ERROR_REPLIES.len() {
        for stop in STOPS {
            let (answer, kept) = stopped(rt.alloc(), room, *stop);
            assert!(rt; answer == Err(RunFault::Write), "after {room} bytes");
            assert_eq!(rt;
                kept.as_slice(),
                &ONE_ERROR_REPLIES.as_bytes()[..room],
                "after {room} bytes"
            );
        }
    }
    Ok(())
}

const TWO_CHECKS_REPLIES: &str =
    "Success: no issues found in 0 source files\nstatus 0\nSuccess: no issues found in 0 source files\nstatus 0\n";

// Inputs, with the most bytes of a read, how many reads there may be, the answer of the session and its replies.
const TURNS: &[(&str, usize, u64, Result<End, RunFault>, &str)] = &[
    ("check\n", 1, 4, Err(RunFault::TooManyTurns), ""),
    ("stop\n", 1, 4, Err(RunFault::TooManyTurns), ""),
    ("stop\n", 1, 5, Ok(End::Stopped), "ok\n"),
    (
        "check\ncheck\n",
        3,
        4,
        Err(RunFault::TooManyTurns),
        TWO_CHECKS_REPLIES,
    ),
    (
        "check\ncheck\n",
        3,
        5,
        Ok(End::EndOfInput),
        TWO_CHECKS_REPLIES,
    ),
];

#[test]
fn as_many_reads_as_there_may_be(rt: HostRuntime) -> Result<(), Fail> {
    for (input, most, turns, end, replies) in TURNS {
        let reader = ShortReads::new(input.as_bytes(), *most);
        let (answer, kept) = replied(rt.alloc(), reader, *turns);
        assert!(rt; answer == *end, "{input:?}, {turns} reads");
        assert_eq!(rt;
            kept.as_slice(),
            replies.as_bytes(),
            "{input:?}, {turns} reads"
        );
    }
    Ok(())
}

// Adds a file with one error, and asserts what a daemon answers.
fn assert_additions(rt: &impl Abort, alloc: Global, daemon: &mut Daemon) -> Result<(), Fail> {
    let bytes = Vec::from_slice(alloc, b"x: int = \"a\"\n")?;
    assert!(rt; daemon.add(b"a.py", bytes).is_ok());
    assert!(rt; daemon.add(b"a.py", Vec::new(alloc)) == Err(Refusal::Present));
    assert!(rt; daemon.add(b"b", Vec::new(alloc)) == Err(Refusal::Path));
    Ok(())
}

// Asserts that the report of a daemon with that file has its error.
fn assert_one_error(rt: &impl Abort, daemon: &mut Daemon) -> Result<(), Fail> {
    let report = daemon.check()?;
    assert!(rt; !report.clean);
    assert_eq!(rt;
        report.text.as_bytes(),
        &ONE_ERROR_REPLIES.as_bytes()[3..ONE_ERROR_REPLIES.len() - 12]
    );
    Ok(())
}

// Empties that file, and asserts what a daemon answers.
fn assert_changes(rt: &impl Abort, alloc: Global, daemon: &mut Daemon) -> Result<(), Fail> {
    assert!(rt; daemon.change(b"b.py", Vec::new(alloc)) == Err(Refusal::Absent));
    assert!(rt; daemon.change(b"a.py", Vec::new(alloc)).is_ok());
    assert!(rt; daemon.check()?.clean);
    Ok(())
}

// Removes that file, and asserts what a daemon answers.
fn assert_removals(rt: &impl Abort, daemon: &mut Daemon) {
    assert!(rt; daemon.remove(b"a.py").is_ok());
    assert!(rt; daemon.remove(b"a.py") == Err(Refusal::Absent));
}

#[test]
fn calls_on_a_daemon(rt: HostRuntime) -> Result<(), Fail> {
    let mut daemon = Daemon::new(rt.alloc(), OPTIONS);
    assert_additions(&rt, rt.alloc(), &mut daemon)?;
    assert_one_error(&rt, &mut daemon)?;
    assert_changes(&rt, rt.alloc(), &mut daemon)?;
    assert_removals(&rt, &mut daemon);
    let seen = Status {
        files: 1,
        bodies: 2,
        rechecked: 2,
    };
    assert!(rt; daemon.status() == seen);
    Ok(())
}
