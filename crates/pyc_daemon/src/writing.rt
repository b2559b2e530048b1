//! Writes replies.

ghost use Rattle.std.specs.Prelude.{◌≡◌, ◌<◌, ◌≤◌, [], length, take, codes, if◌then◌else◌, IfOk, IfErr, OnErr};
ghost use Rattle.std.specs.Prelude.{OnOk};
ghost use Rattle.std.specs.Io.KnownBytes.{Appends};
ghost use Rattle.pyc_daemon.specs.Counted.{inner_of, IsSound, FailsOnce, GivesRoom};
ghost use Rattle.pyc_daemon.specs.Replies.{reply_bytes, status_text, joined, WritesPart};
ghost use Rattle.pyc_report.specs.Report.{report_in};
ghost use Rattle.pyc_session.specs.Session.{check_reply};

use crate::counted::Counted;
use crate::reply::Reply;
use itoa::Buffer;
use pyc_report::Report;
use pyc_session::{RunFault, Status};
use std::io::Write;

/// Writes a reply whole.
pub(crate) fn write_reply<W: Write>(writer: &mut Counted<W>, reply: Reply) -> Result<(), RunFault>
    ensures ok { OnOk result
        (Appends (W.contents (inner_of writer.old)) (W.contents (inner_of writer.new)) (reply_bytes reply)) }
    ensures part { OnErr result
        (WritesPart (W.contents (inner_of writer.old)) (W.contents (inner_of writer.new)) (reply_bytes reply)) }
    ensures fault { IfErr result (λ e. e ≡ RunFault.Write) }
    ensures sound { OnOk result (IsSound writer.old writer.new) }
    ensures cause { OnErr result (FailsOnce writer.old writer.new) }
    ensures buffers { GivesRoom writer.old writer.new }
{
    match reply {
        Reply::Line(text) => write_bytes(writer, text.as_bytes()),
        Reply::Checked(report) => write_report(writer, &report),
        Reply::Counts(counts) => write_counts(writer, counts),
    }
}

/// Writes a report and its status.
fn write_report<W: Write>(writer: &mut Counted<W>, report: &Report) -> Result<(), RunFault>
    ensures ok { OnOk result
        (Appends (W.contents (inner_of writer.old)) (W.contents (inner_of writer.new))
        (check_reply (report_in report.now))) }
    ensures part { OnErr result
        (WritesPart (W.contents (inner_of writer.old)) (W.contents (inner_of writer.new))
        (check_reply (report_in report.now))) }
    ensures fault { IfErr result (λ e. e ≡ RunFault.Write) }
    ensures sound { OnOk result (IsSound writer.old writer.new) }
    ensures cause { OnErr result (FailsOnce writer.old writer.new) }
    ensures buffers { GivesRoom writer.old writer.new }
{
    write_bytes(writer, report.text.as_bytes())?;
    write_bytes(writer, status_line(report.clean).as_bytes())
}

/// The line that follows a report.
fn status_line(clean: bool) -> &'static str
    ensures { result.now ≡ (if clean then codes "status 0\n" else codes "status 1\n") }
{
    if clean { "status 0\n" } else { "status 1\n" }
}

/// Writes the counts of the last check.
fn write_counts<W: Write>(writer: &mut Counted<W>, counts: Status) -> Result<(), RunFault>
    ensures ok { OnOk result
        (Appends (W.contents (inner_of writer.old)) (W.contents (inner_of writer.new)) (status_text counts)) }
    ensures part { OnErr result
        (WritesPart (W.contents (inner_of writer.old)) (W.contents (inner_of writer.new)) (status_text counts)) }
    ensures fault { IfErr result (λ e. e ≡ RunFault.Write) }
    ensures sound { OnOk result (IsSound writer.old writer.new) }
    ensures cause { OnErr result (FailsOnce writer.old writer.new) }
    ensures buffers { GivesRoom writer.old writer.new }
{
    let mut files = Buffer::new();
    let mut bodies = Buffer::new();
    let mut rechecked = Buffer::new();
    write_parts(
        writer,
        &[
            "files ",
            files.format(counts.files),
            " bodies ",
            bodies.format(counts.bodies),
            " rechecked ",
            rechecked.format(counts.rechecked),
            "\n",
        ],
    )
}

/// Writes texts, one after another. The only error is `Write`: a write failed or took no byte, and what was written
/// before it begins the texts and leaves some byte of them.
pub fn write_parts<W: Write>(writer: &mut Counted<W>, parts: &[&str]) -> Result<(), RunFault>
    ensures ok { OnOk result
        (Appends (W.contents (inner_of writer.old)) (W.contents (inner_of writer.new)) (joined parts.now)) }
    ensures part { OnErr result
        (WritesPart (W.contents (inner_of writer.old)) (W.contents (inner_of writer.new)) (joined parts.now)) }
    ensures fault { IfErr result (λ e. e ≡ RunFault.Write) }
    ensures sound { OnOk result (IsSound writer.old writer.new) }
    ensures cause { OnErr result (FailsOnce writer.old writer.new) }
    ensures buffers { GivesRoom writer.old writer.new }
{
    for part in parts {
        write_bytes(writer, part.as_bytes())?;
    }
    Ok(())
}

/// Writes all bytes. The only error is `Write`: a write failed or took no byte, and what was written before it begins
/// the bytes and leaves some of them.
pub fn write_bytes<W: Write>(writer: &mut Counted<W>, bytes: &[u8]) -> Result<(), RunFault>
    ensures ok { OnOk result (Appends (W.contents (inner_of writer.old)) (W.contents (inner_of writer.new)) bytes.now) }
    ensures part { OnErr result
        (WritesPart (W.contents (inner_of writer.old)) (W.contents (inner_of writer.new)) bytes.now) }
    ensures fault { IfErr result (λ e. e ≡ RunFault.Write) }
    ensures sound { OnOk result (IsSound writer.old writer.new) }
    ensures cause { OnErr result (FailsOnce writer.old writer.new) }
    ensures buffers { GivesRoom writer.old writer.new }
{
    let mut rest = bytes;
    while !rest.is_empty() {
        let count = write_some(writer, rest)?;
        rest = &rest[count..];
    }
    Ok(())
}

/// Writes at least one byte.
fn write_some<W: Write>(writer: &mut Counted<W>, bytes: &[u8]) -> Result<usize, RunFault>
    requires { 0 < length bytes.now }
    ensures some { IfOk result (λ count. (0 < count) × (count ≤ length bytes.now)) }
    ensures ok { IfOk result
        (λ count. Appends (W.contents (inner_of writer.old)) (W.contents (inner_of writer.new))
        (take count bytes.now)) }
    ensures none { OnErr result (Appends (W.contents (inner_of writer.old)) (W.contents (inner_of writer.new)) []) }
    ensures fault { IfErr result (λ e. e ≡ RunFault.Write) }
    ensures sound { OnOk result (IsSound writer.old writer.new) }
    ensures cause { OnErr result (FailsOnce writer.old writer.new) }
    ensures buffers { GivesRoom writer.old writer.new }
{
    match writer.write(bytes) {
        Ok(0) | Err(_) => Err(RunFault::Write),
        Ok(count) => Ok(count),
    }
}
