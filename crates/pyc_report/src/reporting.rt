//! The report on checked files: their messages in order, each printed line once, and a summary.

ghost use Rattle.std.specs.Prelude.{◌≡◌, ◌++◌, ℕ, List, filter, map, length, IfOk, IsTrue, OnOk, string_bytes};
ghost use Rattle.std.specs.List.{concat};
ghost use Rattle.pyc_report.specs.Message.{message_in};
ghost use Rattle.pyc_report.specs.Report as spec;
ghost use Rattle.pyc_report.specs.Report.{found_in, report_in, report_of, located, located_in, located_messages};
ghost use Rattle.pyc_report.specs.Report.{message_cmp, placed_in};
ghost use Rattle.pyc_report.specs.Sort.{sorted};
ghost use Rattle.pyc_report.specs.Report.{error_lines, lines_of, messages_in_order, paths_with_error, counted, summary};
ghost use Rattle.pyc_report.specs.Report.{without_repeats};

use crate::checked::{Found, Report};
use crate::message::Message;
use indexmap::IndexSet;
use itoa::Buffer;
use std::alloc::{AllocError, Global};
use std::cmp::Ordering;

/// As many bytes as a summary has at most.
const SUMMARY_ROOM: usize = 128;

/// As many bytes as a line has at most beside its path, its code and its text, unless a file has more than 10^17 lines.
const LINE_ROOM: usize = 32;

/// A message with the path of its file, both borrowed.
#[derive(Clone, Copy)]
struct Placed<'a> {
    path: &'a str,
    message: &'a Message,
}

impl<'a> Placed<'a> {
    /// What the message is printed of.
    fn located(self) -> Located<'a>
        ensures { located_in result ≡ placed_in self.entry }
    {
        message_at(self.path, self.message)
    }

    /// How many bytes the line for the message takes at most.
    fn room(self) -> usize {
        let Located {
            path,
            code,
            text,
            ..
        } = self.located();
        LINE_ROOM
            .saturating_add(path.len())
            .saturating_add(code.len())
            .saturating_add(text.len())
    }
}

/// A message with the path of its file, and with its code, which is empty for a note. The order of these is the order
/// in which they are printed.
#[derive(Clone, Copy, PartialEq, Eq, PartialOrd, Ord)]
struct Located<'a> {
    path: &'a str,
    line: usize,
    column: usize,
    code: &'a str,
    text: &'a str,
}

/// The lines that are printed, one after another, and how many of them are for errors.
#[derive(Drop)]
struct PrintedLines {
    text: String,
    errors: usize,
}

/// The lines for messages, one after another, repeats among them; how many bytes each has, and how many are for errors.
#[derive(Drop)]
struct AllLines {
    text: String,
    lengths: Vec<usize>,
    errors: usize,
}

/// The report on the files that were checked, one `Found` each. Its text has a line for each message, in the order of
/// path, line, column, code and text, where of equal lines the first alone is printed, and then a summary, in which
/// notes do not count. The only error is that memory runs out.
pub fn report(alloc: Global, found: &[Found<'_>]) -> Result<Report, AllocError>
    ensures fresh { IfOk result (λ report. report_in report ≡ report_of (map found_in found.now)) }
{
    let PrintedLines { mut text, errors } = print_lines(alloc, found)?;
    let files = count_paths_with_error(alloc, found)?;
    push_summary(&mut text, errors, files, found.len())?;
    Ok(Report {
        text,
        clean: errors == 0,
    })
}

/// The lines that are printed. Where no line repeats another, which is nearly always, the text is formed once and no
/// line has memory of its own.
fn print_lines(alloc: Global, found: &[Found<'_>]) -> Result<PrintedLines, AllocError>
    ensures text { IfOk result (λ lines. string_bytes lines.text ≡ concat (spec.printed_lines (map found_in
        found.now))) }
    ensures errors { IfOk result (λ lines. lines.errors ≡ length (error_lines (map found_in found.now))) }
{
    let messages = messages_in_order(alloc, found)?;
    let AllLines {
        text,
        lengths,
        errors,
    } = all_lines(alloc, messages)?;
    if are_apart(alloc, &text, &lengths)? {
        return Ok(PrintedLines { text, errors });
    }
    drop(text);
    let messages = messages_in_order(alloc, found)?;
    lines_once(alloc, messages)
}

/// How many bytes the lines for messages and a summary take at most, so that their text is never moved as it grows.
fn room_for(messages: &[Placed<'_>]) -> usize {
    let mut room = SUMMARY_ROOM;
    for message in messages {
        room = room.saturating_add(message.room());
    }
    room
}

/// The lines for messages, repeats among them.
fn all_lines(alloc: Global, mut messages: Vec<Placed<'_>>) -> Result<AllLines, AllocError>
    ensures text { IfOk result (λ all. string_bytes all.text
        ≡ concat (map spec.printed_line (map placed_in messages.entry.items))) }
    ensures lengths { IfOk result (λ all. all.lengths.items
        ≡ map length (map spec.printed_line (map placed_in messages.entry.items))) }
    ensures errors { IfOk result (λ all. all.errors
        ≡ length (filter spec.is_error (map placed_in messages.entry.items))) }
{
    let mut text = String::with_capacity(alloc, room_for(&messages))?;
    let mut lengths = Vec::with_capacity(alloc, messages.len())?;
    for message in &messages {
        let before = text.len();
        push_line(&mut text, &message.located())?;
        lengths.push(text.len() - before)?;
    }
    drop_recorder(&mut messages);
    Ok(AllLines {
        text,
        lengths,
        errors: messages.len(),
    })
}

/// Whether the pieces of a text differ that have these lengths, one after another.
fn are_apart(alloc: Global, text: &str, lengths: &[usize]) -> Result<bool, AllocError>
    ensures { IfOk result (λ apart. IsTrue apart → (pieces : List (List ℕ)) → text.now ≡ concat pieces
        → lengths.now ≡ map length pieces → without_repeats pieces ≡ pieces) }
{
    let mut pieces = IndexSet::with_capacity(alloc, lengths.len())?;
    let mut rest = text;
    for length in lengths {
        let Some((piece, more)) = rest.split_at_checked(*length) else {
            return Ok(false);
        };
        pieces.insert(piece)?;
        rest = more;
    }
    Ok(pieces.len() == lengths.len())
}

/// The lines for messages, each line once.
fn lines_once(alloc: Global, messages: Vec<Placed<'_>>) -> Result<PrintedLines, AllocError>
    ensures text { IfOk result (λ lines. string_bytes lines.text
        ≡ concat (lines_of (map placed_in messages.entry.items))) }
    ensures errors { IfOk result (λ lines. lines.errors
        ≡ length (lines_of (filter spec.is_error (map placed_in messages.entry.items)))) }
{
    let lines = printed_lines(alloc, messages.as_slice())?;
    let text = lines.as_slice().concat(alloc)?;
    drop(lines);
    let errors = count_errors(alloc, messages)?;
    Ok(PrintedLines { text, errors })
}

/// The messages of all files, in order.
fn messages_in_order<'a>(
    alloc: Global,
    found: &'a [Found<'_>],
) -> Result<Vec<Placed<'a>>, AllocError>
    ensures { IfOk result (λ messages. map placed_in messages.items ≡ messages_in_order (map found_in found.now)) }
{
    let mut messages = Vec::new(alloc);
    for file in found {
        push_messages(&mut messages, file)?;
    }
    sort(&mut messages)?;
    Ok(messages)
}

/// Adds the messages of a file.
fn push_messages<'a>(messages: &mut Vec<Placed<'a>>, found: &'a Found<'_>) -> Result<(), AllocError>
    ensures { OnOk result (map placed_in messages.new.items
        ≡ map placed_in messages.old.items ++ located_messages (found_in found.now)) }
{
    for message in &found.messages {
        messages.push(Placed {
            path: found.path,
            message: *message,
        })?;
    }
    Ok(())
}

/// Puts messages in order.
fn sort(messages: &mut Vec<Placed<'_>>) -> Result<(), AllocError>
    ensures { OnOk result (map placed_in messages.new.items ≡ sorted message_cmp (map placed_in messages.old.items)) }
{
    messages.sort_by(
        |message: &Placed<'_>, other: &Placed<'_>| -> Ordering
            ensures { result ≡ message_cmp (placed_in message.now) (placed_in other.now) }
        { message.located().cmp(&other.located()) },
    )?;
    Ok(())
}

/// The message at its path.
fn message_at<'a>(path: &'a str, message: &'a Message) -> Located<'a>
    ensures { located_in result ≡ located path.now (message_in message.now) }
{
    Located {
        path,
        line: message.line,
        column: message.column,
        code: message.kind.code(),
        text: message.text.as_str(),
    }
}

/// The lines for the messages, each line once.
fn printed_lines(alloc: Global, messages: &[Placed<'_>]) -> Result<IndexSet<String>, AllocError>
    ensures { IfOk result (λ lines. map string_bytes lines.keys ≡ lines_of (map placed_in messages.now)) }
{
    let mut lines = IndexSet::new(alloc);
    for message in messages {
        lines.insert(printed_line(alloc, &message.located())?)?;
    }
    Ok(lines)
}

/// The line for a message.
fn printed_line(alloc: Global, message: &Located<'_>) -> Result<String, AllocError>
    ensures { IfOk result (λ line. string_bytes line ≡ spec.printed_line (located_in message.now)) }
{
    let mut line = String::new(alloc);
    push_line(&mut line, message)?;
    Ok(line)
}

/// Adds the line for a message.
fn push_line(text: &mut String, message: &Located<'_>) -> Result<(), AllocError>
    ensures { OnOk result (string_bytes text.new
        ≡ string_bytes text.old ++ spec.printed_line (located_in message.now)) }
{
    text.push_str(message.path)?;
    text.push_str(":")?;
    text.push_str(Buffer::new().format(message.line))?;
    text.push_str(": ")?;
    push_reported(text, message)?;
    text.push_str("\n")
}

/// Adds what stands in the line for a message after the path and the line number.
fn push_reported(line: &mut String, message: &Located<'_>) -> Result<(), AllocError>
    ensures { OnOk result (string_bytes line.new ≡ string_bytes line.old ++ spec.reported (located_in message.now)) }
{
    if is_error(message) {
        line.push_str("error: ")?;
        line.push_str(message.text)?;
        line.push_str("  [")?;
        line.push_str(message.code)?;
        line.push_str("]")
    } else {
        line.push_str("note: ")?;
        line.push_str(message.text)
    }
}

/// Whether a message is an error: it has a code.
fn is_error(message: &Located<'_>) -> bool
    ensures { result ≡ spec.is_error (located_in message.now) }
{
    !message.code.is_empty()
}

/// How many lines are printed for errors, of the lines for these messages.
fn count_errors(alloc: Global, mut messages: Vec<Placed<'_>>) -> Result<usize, AllocError>
    ensures { IfOk result (λ count. count
        ≡ length (lines_of (filter spec.is_error (map placed_in messages.entry.items)))) }
{
    drop_recorder(&mut messages);
    Ok(printed_lines(alloc, messages.as_slice())?.len())
}

/// Takes the notes away. It takes no memory.
fn drop_recorder(messages: &mut Vec<Placed<'_>>)
    ensures { map placed_in messages.new.items ≡ filter spec.is_error (map placed_in messages.old.items) }
{
    messages.retain(
        |message: &Placed<'_>| -> bool
            ensures { result ≡ spec.is_error (placed_in message.now) }
        { is_error(&message.located()) },
    );
}

/// How many paths of files have an error.
fn count_paths_with_error(alloc: Global, found: &[Found<'_>]) -> Result<usize, AllocError>
    ensures { IfOk result (λ count. count ≡ length (paths_with_error (map found_in found.now))) }
{
    let mut paths = IndexSet::new(alloc);
    for file in found {
        if has_error(file) {
            paths.insert(file.path)?;
        }
    }
    Ok(paths.len())
}

/// Whether there is an error in a file.
fn has_error(found: &Found<'_>) -> bool
    ensures { result ≡ spec.has_error (found_in found.now) }
{
    found.messages.iter().any(
        |message: &&Message| -> bool
            ensures { result ≡ spec.is_error (located found.entry.now.path.now (message_in message.now.now)) }
        { is_error(&message_at(found.path, message)) },
    )
}

/// Adds the last line, from how many errors are printed, in how many files they are, and how many files were checked.
fn push_summary(
    text: &mut String,
    errors: usize,
    files: usize,
    checked: usize,
) -> Result<(), AllocError>
    ensures { OnOk result (string_bytes text.new ≡ string_bytes text.old ++ summary errors files checked) }
{
    if errors == 0 {
        text.push_str("Success: no issues found in ")?;
        push_counted(text, checked, "source file")?;
        text.push_str("\n")
    } else {
        text.push_str("Found ")?;
        push_counted(text, errors, "error")?;
        text.push_str(" in ")?;
        push_counted(text, files, "file")?;
        text.push_str(" (checked ")?;
        push_counted(text, checked, "source file")?;
        text.push_str(")\n")
    }
}

/// Adds a number with a noun, which is in the plural unless the number is 1.
fn push_counted(text: &mut String, count: usize, noun: &str) -> Result<(), AllocError>
    ensures { OnOk result (string_bytes text.new ≡ string_bytes text.old ++ counted count noun.now) }
{
    text.push_str(Buffer::new().format(count))?;
    text.push_str(" ")?;
    text.push_str(noun)?;
    if count != 1 {
        text.push_str("s")?;
    }
    Ok(())
}
