//! A reader or a writer whose calls are counted: those that fail, and those that are given an empty buffer.

ghost use Rattle.std.specs.Prelude.{◌≡◌, is_ok, if◌then◌else◌};
ghost use Rattle.std.specs.Io.{ReadsAtMost, WritesAtMost};
ghost use Rattle.std.specs.Io.KnownBytes.{ReadConsumes, WriteAppends, Keeps};

use std::io::{self, Read, Write};

/// A reader or a writer that counts what it passes on. Each number stays at its last value, 2^64 - 1.
#[derive(Drop)]
pub struct Counted<T> {
    inner: T,
    calls: u64,
    faults: u64,
    zeros: u64,
    empty_buffers: u64,
}

impl<T> Counted<T> {
    ghost use Rattle.pyc_daemon.specs.Counted.{inner_of, calls_of, faults_of, zeros_of, empty_buffers_of};
    ghost use Rattle.pyc_daemon.specs.Counted.{one_more, with_buffer};

    /// Wraps `inner`, with nothing counted yet.
    pub fn new(inner: T) -> Self
        ensures inner { inner_of result ≡ inner }
        ensures calls { calls_of result ≡ 0 }
        ensures faults { faults_of result ≡ 0 }
        ensures zeros { zeros_of result ≡ 0 }
        ensures buffers { empty_buffers_of result ≡ 0 }
    {
        Counted {
            inner,
            calls: 0,
            faults: 0,
            zeros: 0,
            empty_buffers: 0,
        }
    }

    /// How many reads and writes were passed on.
    pub fn calls(&self) -> u64
        ensures { result ≡ calls_of self.now }
    {
        self.calls
    }

    /// How many of them answered a fault.
    pub fn faults(&self) -> u64
        ensures { result ≡ faults_of self.now }
    {
        self.faults
    }

    /// How many writes took no byte, though they were given some.
    pub fn zeros(&self) -> u64
        ensures { result ≡ zeros_of self.now }
    {
        self.zeros
    }

    /// How many calls were given an empty buffer: such a call can move no byte, whatever the reader or the writer is.
    /// The call is for users of the library: the program does not make it.
    pub fn empty_buffers(&self) -> u64
        ensures { result ≡ empty_buffers_of self.now }
    {
        self.empty_buffers
    }

    /// Counts a call that is given `buf`.
    fn count_call(&mut self, buf: &[u8])
        ensures inner { inner_of self.new ≡ inner_of self.old }
        ensures calls { calls_of self.new ≡ one_more (calls_of self.old) }
        ensures faults { faults_of self.new ≡ faults_of self.old }
        ensures zeros { zeros_of self.new ≡ zeros_of self.old }
        ensures buffers { empty_buffers_of self.new ≡ with_buffer buf.now (empty_buffers_of self.old) }
    {
        self.calls = self.calls.saturating_add(1);
        if buf.is_empty() {
            self.empty_buffers = self.empty_buffers.saturating_add(1);
        }
    }
}

impl<R: Read> Read for Counted<R> {
    ghost use Rattle.pyc_daemon.specs.Counted.{inner_of, calls_of, faults_of, zeros_of, empty_buffers_of};
    ghost use Rattle.pyc_daemon.specs.Counted.{one_more, with_buffer};

    ghost remaining = { λ c. R.remaining c.inner };

    fn read(&mut self, buf: &mut [u8]) -> io::Result<usize>
        ensures bound { ReadsAtMost result buf.new }
        ensures bytes { ReadConsumes (R.remaining (inner_of self.old)) (R.remaining (inner_of self.new)) result
            buf.new }
        ensures calls { calls_of self.new ≡ one_more (calls_of self.old) }
        ensures faults { faults_of self.new
            ≡ (if is_ok result then faults_of self.old else one_more (faults_of self.old)) }
        ensures zeros { zeros_of self.new ≡ zeros_of self.old }
        ensures buffers { empty_buffers_of self.new ≡ with_buffer buf.old (empty_buffers_of self.old) }
    {
        self.count_call(buf);
        let answer = self.inner.read(buf);
        if answer.is_err() {
            self.faults = self.faults.saturating_add(1);
        }
        answer
    }
}

impl<W: Write> Write for Counted<W> {
    ghost use Rattle.pyc_daemon.specs.Counted.{inner_of, calls_of, faults_of, zeros_of, empty_buffers_of};
    ghost use Rattle.pyc_daemon.specs.Counted.{one_more, takes_none, with_buffer};

    ghost contents = { λ c. W.contents c.inner };

    fn write(&mut self, buf: &[u8]) -> io::Result<usize>
        ensures bound { WritesAtMost result buf.now }
        ensures bytes { WriteAppends (W.contents (inner_of self.old)) (W.contents (inner_of self.new)) result buf.now }
        ensures calls { calls_of self.new ≡ one_more (calls_of self.old) }
        ensures faults { faults_of self.new
            ≡ (if is_ok result then faults_of self.old else one_more (faults_of self.old)) }
        ensures zeros { zeros_of self.new
            ≡ (if takes_none buf.now result then one_more (zeros_of self.old) else zeros_of self.old) }
        ensures buffers { empty_buffers_of self.new ≡ with_buffer buf.now (empty_buffers_of self.old) }
    {
        self.count_call(buf);
        let answer = self.inner.write(buf);
        match &answer {
            Ok(0) if !buf.is_empty() => self.zeros = self.zeros.saturating_add(1),
            Ok(_) => {}
            Err(_) => self.faults = self.faults.saturating_add(1),
        }
        answer
    }

    fn flush(&mut self) -> io::Result<()>
        ensures bytes { Keeps (W.contents (inner_of self.old)) (W.contents (inner_of self.new)) }
        ensures calls { calls_of self.new ≡ calls_of self.old }
        ensures faults { faults_of self.new ≡ faults_of self.old }
        ensures zeros { zeros_of self.new ≡ zeros_of self.old }
        ensures buffers { empty_buffers_of self.new ≡ empty_buffers_of self.old }
    {
        self.inner.flush()
    }
}
