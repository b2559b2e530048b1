//! Lines and the bytes of files, off a reader.

ghost use Rattle.std.specs.Prelude.{◌≡◌, ◌+◌, ◌-◌, ◌*◌, ◌<◌, ◌≤◌, ◌∷◌, ◌++◌, [], ℕ, List, length, true, false, vec_len};
ghost use Rattle.std.specs.Prelude.{vec_capacity, IfOk, IfErr, OnErr, OnOk, take, drop, if◌then◌else◌};
ghost use Rattle.pyc_daemon.specs.Counted.{inner_of, calls_of, IsSound, GivesRoom};
ghost use Rattle.pyc_daemon.specs.Reading.{Advances, IsReading, ComesOfReading, work_left};
ghost use Rattle.pyc_daemon.specs.ReadBuffer.{held_of, used_of, ended_of};
ghost use Rattle.pyc_session.specs.Input.{has_line_feed, command_line};
ghost use Rattle.pyc_daemon.specs.Body.{CameAs};

use crate::counted::Counted;
use crate::read_buffer::ReadBuffer;
use pyc_session::RunFault;
use std::alloc::Global;
use std::io::Read;

/// How many bytes of a command line are kept: one more than the longest command and its carriage return.
pub const KEPT: usize = 514;

/// Reads on to the next line feed or the end, and tells whether there was a line feed. `line` becomes the first
/// 514 bytes before it, without taking memory.
pub fn read_line<R: Read>(
    reader: &mut Counted<R>,
    read_buffer: &mut ReadBuffer,
    line: &mut Vec<u8>,
    turns: u64,
) -> Result<bool, RunFault>
    requires room { KEPT ≤ vec_capacity line.old }
    requires open { ended_of read_buffer.old ≡ false }
    requires reading { IsReading (R.remaining (inner_of reader.old)) (ended_of read_buffer.old) (calls_of reader.old)
        turns }
    ensures room { KEPT ≤ vec_capacity line.new }
    ensures reading { IsReading (R.remaining (inner_of reader.new)) (ended_of read_buffer.new) (calls_of reader.new)
        turns }
    ensures line { IfOk result (λ fed. (raw : List ℕ)
        × Advances (R.remaining (inner_of reader.old)) (held_of read_buffer.old) (R.remaining (inner_of reader.new))
        (held_of read_buffer.new) (raw ++ (if fed then 10 ∷ [] else []))
        × (has_line_feed raw ≡ false) × (line.new.items ≡ take 514 raw)) }
    ensures last { IfOk result (λ fed. fed ≡ false → ended_of read_buffer.new ≡ true) }
    // Nothing is read where a line feed is held, and nothing after one was read.
    ensures held { has_line_feed (held_of read_buffer.old) ≡ true → reader.new ≡ reader.old }
    ensures first { IfOk result (λ fed. fed ≡ true → (front : List ℕ) × (used_of read_buffer.new ≡ front ++ 10 ∷ [])) }
    ensures err { OnErr result ((raw : List ℕ)
        × Advances (R.remaining (inner_of reader.old)) (held_of read_buffer.old) (R.remaining (inner_of reader.new))
        (held_of read_buffer.new) raw
        × (has_line_feed raw ≡ false)) }
    ensures empty { OnErr result (held_of read_buffer.new ≡ []) }
    ensures open { OnErr result (ended_of read_buffer.new ≡ false) }
    ensures work { OnOk result
        (work_left (ended_of read_buffer.new) (length (held_of read_buffer.new)) (calls_of reader.new) turns
        < work_left (ended_of read_buffer.old) (length (held_of read_buffer.old)) (calls_of reader.old) turns) }
    ensures sound { OnOk result (IsSound reader.old reader.new) }
    ensures fault { IfErr result (λ e. ComesOfReading e reader.old reader.new turns) }
    ensures buffers { GivesRoom reader.old reader.new }
{
    line.clear();
    while !read_buffer.is_ended() {
        match read_buffer.take_byte() {
            Some(b'\n') => return Ok(true),
            Some(byte) => {
                if line.len() < KEPT {
                    line.push_reserved(byte);
                }
            }
            None => read_buffer.refill(reader, turns)?,
        }
    }
    Ok(false)
}

/// The command on a line: the line without the carriage return before its line feed. At the end of the input a carriage
/// return stays.
pub fn command_line(line: &[u8], fed: bool) -> &[u8]
    ensures { result.now ≡ command_line line.now fed }
{
    if fed && line.last() == Some(&b'\r') {
        &line[..line.len() - 1]
    } else {
        line
    }
}

/// What came of the bytes that an `add` announces.
#[derive(Drop)]
pub enum Body {
    /// All of them, kept.
    Whole(Vec<u8>),
    /// All of them, read and not kept: they were not wanted, or memory was refused.
    NotKept,
    /// Fewer: the input ended.
    Truncated,
}

/// Reads the next `size` bytes, and keeps them if they are wanted and there is memory.
pub fn read_body<R: Read>(
    alloc: Global,
    reader: &mut Counted<R>,
    read_buffer: &mut ReadBuffer,
    size: usize,
    wanted: bool,
    turns: u64,
) -> Result<Body, RunFault>
    requires reading { IsReading (R.remaining (inner_of reader.old)) (ended_of read_buffer.old) (calls_of reader.old)
        turns }
    ensures reading { IsReading (R.remaining (inner_of reader.new)) (ended_of read_buffer.new) (calls_of reader.new)
        turns }
    ensures body { IfOk result (λ body. (bytes : List ℕ)
        × Advances (R.remaining (inner_of reader.old)) (held_of read_buffer.old) (R.remaining (inner_of reader.new))
        (held_of read_buffer.new) bytes
        × CameAs body bytes size wanted (ended_of read_buffer.new)
        × (ended_of read_buffer.old ≡ true → (bytes ≡ []) × (ended_of read_buffer.new ≡ true))) }
    ensures err { OnErr result ((bytes : List ℕ)
        × Advances (R.remaining (inner_of reader.old)) (held_of read_buffer.old) (R.remaining (inner_of reader.new))
        (held_of read_buffer.new) bytes
        × (length bytes < size)) }
    ensures begun { OnErr result (ended_of read_buffer.old ≡ false) }
    ensures empty { OnErr result (held_of read_buffer.new ≡ []) }
    ensures open { OnErr result (ended_of read_buffer.new ≡ false) }
    ensures work { OnOk result
        (work_left (ended_of read_buffer.new) (length (held_of read_buffer.new)) (calls_of reader.new) turns
        ≤ work_left (ended_of read_buffer.old) (length (held_of read_buffer.old)) (calls_of reader.old) turns) }
    ensures sound { OnOk result (IsSound reader.old reader.new) }
    ensures fault { IfErr result (λ e. ComesOfReading e reader.old reader.new turns) }
    ensures buffers { GivesRoom reader.old reader.new }
{
    let mut bytes = Vec::new(alloc);
    let mut kept = wanted && bytes.reserve(size).is_ok();
    let mut left = size;
    while left > 0 && !read_buffer.is_ended() {
        let part = read_buffer.first(left);
        let count = part.len();
        if count == 0 {
            read_buffer.refill(reader, turns)?;
            continue;
        }
        kept = keep_part(&mut bytes, part, kept);
        read_buffer.skip(count);
        left -= count;
    }
    if left > 0 {
        return Ok(Body::Truncated);
    }
    Ok(if kept {
        Body::Whole(bytes)
    } else {
        Body::NotKept
    })
}

/// Adds a part to what is kept, and tells whether all is kept still.
fn keep_part(bytes: &mut Vec<u8>, part: &[u8], kept: bool) -> bool
    ensures kept { result ≡ true → (kept ≡ true) × (bytes.new.items ≡ bytes.old.items ++ part.now) }
    ensures room { kept ≡ true → vec_len bytes.old + length part.now ≤ vec_capacity bytes.old → result ≡ true }
{
    kept && bytes.extend_from_slice(part).is_ok()
}
