//! What is reported of the end of a session, and its status.

use pyc_console::{session, session_status};
use pyc_daemon::{Counted, End, MemorySource, Options, RunFault};
use std::alloc::Global;
use std::io::{self, ErrorKind, Read};
use std::test::Fail;

// A reader that gives `stop`, or fails.
#[derive(Drop)]
struct Commands {
    is_faulty: bool,
}

impl Read for Commands {
    fn read(&mut self, buf: &mut [u8]) -> io::Result<usize> {
        if self.is_faulty {
            return Err(io::Error::from(ErrorKind::BrokenPipe));
        }
        let count = buf.len().min(5);
        buf[..count].copy_from_slice(&b"stop\n"[..count]);
        Ok(count)
    }
}

// The status of a session of `stop` or of a fault, with at most so many reads, over a writer with room or without.
fn ended(
    alloc: Global,
    is_faulty: bool,
    turns: u64,
    replies: &mut [u8],
    reported: &mut Vec<u8>,
) -> u8 {
    let mut reader = Counted::new(Commands { is_faulty });
    let mut writer = Counted::new(replies);
    let mut err = Counted::new(reported);
    let mut sources = MemorySource::new(Vec::new(alloc));
    let options = Options {
        ignore_missing: false,
        check_untyped: false,
        turns,
    };
    session(
        alloc,
        &mut reader,
        &mut writer,
        &mut err,
        &mut sources,
        &options,
    )
}

// Whether the input fails, and how often it may be read, with the status and what is reported.
const FAULTS: &[(bool, u64, u8, &str)] = &[
    (false, 9, 0, ""),
    (true, 9, 2, "dmypy: the input cannot be read\n"),
    (false, 0, 2, "dmypy: the input does not end\n"),
];

#[test]
fn faults_are_reported(rt: HostRuntime) -> Result<(), Fail> {
    let mut room = [0_u8; 8];
    let mut none: [u8; 0] = [];
    for (is_faulty, turns, expected, text) in FAULTS {
        let mut reported = Vec::new(rt.alloc());
        let status = ended(rt.alloc(), *is_faulty, *turns, &mut room, &mut reported);
        assert_eq!(rt; status, *expected, "at {text:?}");
        assert_eq!(rt; reported.as_slice(), text.as_bytes(), "at {text:?}");
    }
    let mut reported = Vec::new(rt.alloc());
    let status = ended(rt.alloc(), false, 9, &mut none, &mut reported);
    assert_eq!(rt; status, 2);
    assert_eq!(rt;
        reported.as_slice(),
        b"dmypy: the output cannot be written\n".as_slice()
    );
    Ok(())
}

// Answers of a session, with their statuses.
const STATUSES: &[(Result<End, RunFault>, u8)] = &[
    (Ok(End::Stopped), 0),
    (Ok(End::EndOfInput), 0),
    (Ok(End::Broken), 2),
    (Err(RunFault::Read), 2),
    (Err(RunFault::Write), 2),
    (Err(RunFault::TooManyTurns), 2),
    (Err(RunFault::Memory), 2),
];

#[test]
fn statuses(rt: HostRuntime) {
    for (answer, status) in STATUSES {
        assert_eq!(rt; session_status(answer), *status);
    }
}
