//! Readers and writers, with what is counted of them.

use crate::fakes::{NEVER, OPTIONS, ShortReads, Sink};
use pyc_daemon::{Counted, End, MemorySource, run};
use std::cell::Cell;
use std::io::{self, ErrorKind, Read, Write};
use std::test::Fail;

// A stream that answers each call by the next of its answers, and counts how often it was flushed.
#[derive(Drop)]
struct Scripted<'a> {
    answers: &'a [Option<usize>],
    flushes: &'a Cell<usize>,
}

impl Scripted<'_> {
    fn next(&mut self) -> io::Result<usize> {
        let Some((first, rest)) = self.answers.split_first() else {
            return Ok(0);
        };
        self.answers = rest;
        match first {
            Some(count) => Ok(*count),
            None => Err(io::Error::from(ErrorKind::BrokenPipe)),
        }
    }
}

impl Read for Scripted<'_> {
    fn read(&mut self, buf: &mut [u8]) -> io::Result<usize> {
        Ok(self.next()?.min(buf.len()))
    }
}

impl Write for Scripted<'_> {
    fn write(&mut self, buf: &[u8]) -> io::Result<usize> {
        Ok(self.next()?.min(buf.len()))
    }

    fn flush(&mut self) -> io::Result<()> {
        self.flushes.set(self.flushes.get().saturating_add(1));
        match self.next()? {
            0 => Ok(()),
            _ => Err(io::Error::from(ErrorKind::BrokenPipe)),
        }
    }
}

// What is counted of a stream: its calls, its faults, the writes that took no byte, and the calls with an empty buffer.
fn counts<T>(stream: &Counted<T>) -> (u64, u64, u64, u64) {
    (
        stream.calls(),
        stream.faults(),
        stream.zeros(),
        stream.empty_buffers(),
    )
}

#[test]
fn reads_are_counted(rt: HostRuntime) {
    let flushes = Cell::new(0);
    let mut reader = Counted::new(Scripted {
        answers: &[Some(3), None, Some(0)],
        flushes: &flushes,
    });
    let mut buf = [0_u8; 4];
    assert!(rt; matches!(reader.read(&mut buf), Ok(3)));
    assert!(rt; reader.read(&mut buf).is_err());
    assert!(rt; matches!(reader.read(&mut buf), Ok(0)));
    assert_eq!(rt; counts(&reader), (3, 1, 0, 0));
}

#[test]
fn writes_are_counted(rt: HostRuntime) {
    let flushes = Cell::new(0);
    let mut writer = Counted::new(Scripted {
        answers: &[Some(2), Some(0), None],
        flushes: &flushes,
    });
    assert!(rt; matches!(writer.write(b"ab"), Ok(2)));
    assert!(rt; matches!(writer.write(b"ab"), Ok(0)));
    assert!(rt; writer.write(b"ab").is_err());
    assert_eq!(rt; counts(&writer), (3, 1, 1, 0));
}

#[test]
fn reads_without_room_are_counted(rt: HostRuntime) {
    let flushes = Cell::new(0);
    let mut reader = Counted::new(Scripted {
        answers: &[Some(3), None, Some(2)],
        flushes: &flushes,
    });
    let mut buf = [0_u8; 4];
    assert!(rt; matches!(reader.read(&mut buf[..0]), Ok(0)));
    assert!(rt; reader.read(&mut buf[..0]).is_err());
    assert!(rt; matches!(reader.read(&mut buf), Ok(2)));
    assert_eq!(rt; counts(&reader), (3, 1, 0, 2));
}

// A write of no byte that takes none is no fault of the writer.
#[test]
fn writes_of_no_byte_are_counted(rt: HostRuntime) {
    let flushes = Cell::new(0);
    let mut writer = Counted::new(Scripted {
        answers: &[Some(2), None, Some(0), Some(0)],
        flushes: &flushes,
    });
    assert!(rt; matches!(writer.write(b""), Ok(0)));
    assert!(rt; writer.write(b"").is_err());
    assert!(rt; matches!(writer.write(b"ab"), Ok(0)));
    assert!(rt; matches!(writer.write(b""), Ok(0)));
    assert_eq!(rt; counts(&writer), (4, 1, 1, 3));
}

// Inputs: none, one with an empty file and an empty line, and one that ends inside the bytes of a file.
const INPUTS: &[(&str, End)] = &[
    ("", End::EndOfInput),
    ("add a.py 0\ncheck\n\nstatus\nstop\n", End::Stopped),
    ("add a.py 3\n", End::Broken),
];

// The most bytes of a read or a write.
const MOST: &[usize] = &[NEVER, 1, 2];

#[test]
fn sessions_give_no_empty_buffer(rt: HostRuntime) {
    for (input, end) in INPUTS {
        for most in MOST {
            let mut kept = Vec::new(rt.alloc());
            let mut reader = Counted::new(ShortReads::new(input.as_bytes(), *most));
            let mut writer = Counted::new(Sink {
                most: *most,
                ..Sink::new(&mut kept)
            });
            let mut sources = MemorySource::new(Vec::new(rt.alloc()));
            let answer = run(rt.alloc(), &mut reader, &mut writer, &mut sources, &OPTIONS);
            assert!(rt;
                answer == Ok(*end),
                "{input:?}, at most {most} bytes a call"
            );
            assert_eq!(rt;
                (reader.empty_buffers(), writer.empty_buffers()),
                (0, 0),
                "{input:?}, at most {most} bytes a call"
            );
        }
    }
}

#[test]
fn flushes_are_passed_on_and_not_counted(rt: HostRuntime) {
    let flushes = Cell::new(0);
    let mut writer = Counted::new(Scripted {
        answers: &[Some(0), Some(1)],
        flushes: &flushes,
    });
    assert!(rt; writer.flush().is_ok());
    assert_eq!(rt; flushes.get(), 1);
    assert!(rt; writer.flush().is_err());
    assert_eq!(rt; flushes.get(), 2);
    assert_eq!(rt; counts(&writer), (0, 0, 0, 0));
}
