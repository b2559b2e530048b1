//! The bytes that were read and not used yet.

ghost use Rattle.std.specs.Prelude.{◌≡◌, ◌+◌, ◌-◌, ◌*◌, ◌<◌, ◌≤◌, ◌∷◌, ◌++◌, [], length, true, vec_len, IfOk, IfSome};
ghost use Rattle.std.specs.Prelude.{IfNone, IfErr, OnErr, OnOk, take, drop, min};

use crate::counted::Counted;
use pyc_session::RunFault;
use std::alloc::{AllocError, Global};
use std::io::Read;

/// How many bytes one read asks for, at most.
pub const READ_SIZE: usize = 4096;

/// The bytes that were read from a reader and not used yet, and whether the reader reported its end.
#[derive(Drop)]
pub struct ReadBuffer {
    buffer: Vec<u8>,
    start: usize,
    end: usize,
    ended: bool,
    ghost ordered: { start ≤ end },
    ghost within: { end ≤ vec_len buffer },
    ghost roomy: { 0 < vec_len buffer },
    ghost short: { vec_len buffer ≤ 4096 },
    ghost at_end: { ended ≡ true → start ≡ end },
}

impl ReadBuffer {
    ghost use Rattle.std.specs.Prelude.{false, None};
    ghost use Rattle.pyc_daemon.specs.Counted.{inner_of, calls_of, IsSound, GivesRoom};
    ghost use Rattle.pyc_daemon.specs.Reading.{Advances, IsReading, ComesOfReading, work_left};
    ghost use Rattle.pyc_daemon.specs.ReadBuffer.{held_of, used_of, ended_of};

    /// A window that holds nothing yet.
    pub fn new(alloc: Global) -> Result<Self, AllocError>
        ensures empty { IfOk result (λ w. held_of w ≡ []) }
        ensures open { IfOk result (λ w. ended_of w ≡ false) }
    {
        Ok(ReadBuffer {
            buffer: vec![in alloc; 0; READ_SIZE]?,
            start: 0,
            end: 0,
            ended: false,
        })
    }

    /// Whether the reader reported its end. Then nothing is held.
    pub fn is_ended(&self) -> bool
        ensures value { result ≡ ended_of self.now }
        ensures empty { ended_of self.now ≡ true → held_of self.now ≡ [] }
    {
        self.ended
    }

    /// Takes the first byte that is held.
    pub fn take_byte(&mut self) -> Option<u8>
        ensures byte { IfSome result (λ b. held_of self.old ≡ b ∷ held_of self.new) }
        ensures used { IfSome result (λ b. used_of self.new ≡ used_of self.old ++ b ∷ []) }
        ensures empty { IfNone result (held_of self.old ≡ []) }
        ensures same { IfNone result (self.new ≡ self.old) }
        ensures ended { ended_of self.new ≡ ended_of self.old }
    {
        if self.start == self.end {
            return None;
        }
        let byte = self.buffer[self.start];
        self.start += 1;
        Some(byte)
    }

    /// The first bytes that are held, at most `most`.
    pub fn first(&self, most: usize) -> &[u8]
        ensures front { result.now ≡ take (length result.now) (held_of self.now) }
        ensures most { length result.now ≡ min most (length (held_of self.now)) }
    {
        let held = &self.buffer[self.start..self.end];
        &held[..most.min(held.len())]
    }

    /// Leaves the first `count` bytes that are held.
    pub fn skip(&mut self, count: usize)
        requires { count ≤ length (held_of self.old) }
        ensures held { held_of self.new ≡ drop count (held_of self.old) }
        ensures ended { ended_of self.new ≡ ended_of self.old }
    {
        self.start += count;
    }

    /// Reads once into a window that holds nothing.
    pub fn refill<R: Read>(&mut self, reader: &mut Counted<R>, turns: u64) -> Result<(), RunFault>
        requires empty { held_of self.old ≡ [] }
        requires open { ended_of self.old ≡ false }
        requires reading { IsReading (R.remaining (inner_of reader.old)) (ended_of self.old) (calls_of reader.old)
            turns }
        ensures reading { IsReading (R.remaining (inner_of reader.new)) (ended_of self.new) (calls_of reader.new)
            turns }
        ensures moved { Advances (R.remaining (inner_of reader.old)) [] (R.remaining (inner_of reader.new))
            (held_of self.new) [] }
        // What is held is all of the last read.
        ensures fresh { OnOk result (used_of self.new ≡ []) }
        ensures open { OnErr result (ended_of self.new ≡ false) }
        ensures empty { OnErr result (held_of self.new ≡ []) }
        ensures sound { OnOk result (IsSound reader.old reader.new) }
        ensures fault { IfErr result (λ e. ComesOfReading e reader.old reader.new turns) }
        ensures buffers { GivesRoom reader.old reader.new }
        ensures work { OnOk result
            (work_left (ended_of self.new) (length (held_of self.new)) (calls_of reader.new) turns
            < work_left false 0 (calls_of reader.old) turns) }
    {
        if reader.calls() >= turns {
            return Err(RunFault::TooManyTurns);
        }
        let Ok(count) = reader.read(&mut self.buffer[..]) else {
            return Err(RunFault::Read);
        };
        self.start = 0;
        self.end = count;
        self.ended = count == 0;
        Ok(())
    }
}
