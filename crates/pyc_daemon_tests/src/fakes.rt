//! Readers and writers for the tests of sessions.

use pyc_daemon::{Counted, End, MemorySource, Options, RunFault, run};
use std::alloc::Global;
use std::io::{self, ErrorKind, Read, Write};

/// Options with room for each session of the tests.
pub(crate) const OPTIONS: Options = Options {
    ignore_missing: false,
    check_untyped: false,
    turns: 1_000_000,
};

/// Never.
pub(crate) const NEVER: usize = usize::MAX;

/// A reader of known bytes: at most `most` of them a call, and a fault at the call of number `faulty`, from 0.
#[derive(Drop)]
pub(crate) struct ShortReads<'a> {
    pub(crate) bytes: &'a [u8],
    pub(crate) most: usize,
    pub(crate) faulty: usize,
    pub(crate) calls: usize,
}

impl<'a> ShortReads<'a> {
    /// All bytes in pieces of at most `most`, without a fault.
    pub(crate) fn new(bytes: &'a [u8], most: usize) -> Self {
        ShortReads {
            bytes,
            most,
            faulty: NEVER,
            calls: 0,
        }
    }
}

impl Read for ShortReads<'_> {
    fn read(&mut self, buf: &mut [u8]) -> io::Result<usize> {
        let call = self.calls;
        self.calls = call.saturating_add(1);
        if call == self.faulty {
            return Err(io::Error::from(ErrorKind::BrokenPipe));
        }
        let count = self.most.min(self.bytes.len()).min(buf.len());
        buf[..count].copy_from_slice(&self.bytes[..count]);
        self.bytes = &self.bytes[count..];
        Ok(count)
    }
}

/// How a writer stops.
#[derive(Clone, Copy)]
pub(crate) enum Stop {
    Fault,
    Zero,
}

/// A writer that keeps what it gets: at most `most` bytes a call, and after `room` bytes it stops.
#[derive(Drop)]
pub(crate) struct Sink<'a> {
    pub(crate) kept: &'a mut Vec<u8>,
    pub(crate) most: usize,
    pub(crate) room: usize,
    pub(crate) stop: Stop,
}

impl<'a> Sink<'a> {
    /// A writer that never stops.
    pub(crate) fn new(kept: &'a mut Vec<u8>) -> Self {
        Sink {
            kept,
            most: NEVER,
            room: NEVER,
            stop: Stop::Zero,
        }
    }
}

impl Write for Sink<'_> {
    fn write(&mut self, buf: &[u8]) -> io::Result<usize> {
        let count = self.most.min(self.room).min(buf.len());
        if count == 0 {
            return match self.stop {
                Stop::Fault => Err(io::Error::from(ErrorKind::BrokenPipe)),
                Stop::Zero => Ok(0),
            };
        }
        self.kept.extend_from_slice(&buf[..count])?;
        self.room -= count;
        Ok(count)
    }

    fn flush(&mut self) -> io::Result<()> {
        Ok(())
    }
}

/// The answer of a session over these streams, without a source of files, with at most so many reads.
pub(crate) fn session(
    alloc: Global,
    reader: ShortReads<'_>,
    writer: Sink<'_>,
    turns: u64,
) -> Result<End, RunFault> {
    let mut sources = MemorySource::new(Vec::new(alloc));
    let mut reader = Counted::new(reader);
    let mut writer = Counted::new(writer);
    let options = Options { turns, ..OPTIONS };
    run(alloc, &mut reader, &mut writer, &mut sources, &options)
}
