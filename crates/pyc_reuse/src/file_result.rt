//! What comes of the units of a file.

ghost use Rattle.std.specs.Prelude.{◌≡◌, ◌++◌, drop, length, map, IfOk, OnOk};
ghost use Rattle.pyc_body.specs.FoundMessages.{without_ignored};
ghost use Rattle.pyc_lower.specs.Reading.{read_of};
ghost use Rattle.pyc_report.specs.Message.{message_in};
ghost use Rattle.pyc_names.specs.SourceFileView.{source_in};
ghost use Rattle.pyc_reuse.specs.Shown.{flagged, is_shown};
ghost use Rattle.pyc_reuse.specs.SharedChecks.{found_of, reads_of};
ghost use Rattle.pyc_workspace.specs.Files.{file_in};

use pyc_ast::Outcome;
use pyc_body::Checked;
use pyc_keys::{KeyId, ReadSet};
use pyc_names::SourceFile;
use pyc_report::{Message, is_suppressed};
use pyc_workspace::File;
use std::alloc::{AllocError, Global};
use std::rc::Rc;

/// What came of the units of a file, in order, the numbers of the keys that were read for it, and of the messages of
/// the units, one after another, which no ignore comment suppresses.
#[derive(Drop)]
pub(crate) struct FileResult {
    pub(crate) checks: Vec<Rc<Checked>>,
    pub(crate) reads: Vec<KeyId>,
    pub(crate) flags: Vec<bool>,
    ghost reads_are: { reads.items ≡ reads_of checks.items },
}

impl FileResult {
    ghost use Rattle.pyc_reuse.specs.FileResultView.{reported_in};

    /// The row of a file, from what came of its units. The only error is that memory runs out.
    pub(crate) fn new(
        alloc: Global,
        file: &File,
        checks: Vec<Rc<Checked>>,
    ) -> Result<FileResult, AllocError>
        ensures checks { IfOk result (λ file_result. file_result.checks.items ≡ checks.items) }
        ensures messages { IfOk result (λ file_result. reported_in file_result
            ≡ without_ignored (read_of (file_in file.now).bytes) (found_of checks.items)) }
    {
        let reads = all_reads(alloc, &checks)?;
        let flags = all_flags(alloc, file.source(), &checks)?;
        Ok(FileResult {
            checks,
            reads,
            flags,
        })
    }

    /// The messages of the file that no ignore comment suppresses, borrowed. The only error is that memory runs out.
    pub(crate) fn reported(&self, alloc: Global) -> Result<Vec<&Message>, AllocError>
        ensures { IfOk result (λ messages. map (λ message. message_in message.now) messages.items
            ≡ reported_in self.now) }
    {
        let mut messages = Vec::with_capacity(alloc, self.flags.len())?;
        let mut flags = self.flags.as_slice();
        for check in &self.checks {
            flags = push_flagged(&mut messages, check.messages(), flags)?;
        }
        Ok(messages)
    }
}

impl ReadSet for FileResult {
    ghost numbers = { λ file_result. file_result.reads.items };

    fn reads(&self) -> &[KeyId] {
        self.reads.as_slice()
    }
}

/// The numbers of the keys that were read in checks, one after another.
fn all_reads(alloc: Global, checks: &[Rc<Checked>]) -> Result<Vec<KeyId>, AllocError>
    ensures { IfOk result (λ reads. reads.items ≡ reads_of checks.now) }
{
    let mut reads = Vec::new(alloc);
    for check in checks {
        reads.extend_from_slice(check.reads())?;
    }
    Ok(reads)
}

/// For each message of checks, one after another, whether no ignore comment of a file suppresses it.
fn all_flags(
    alloc: Global,
    file: &SourceFile,
    checks: &[Rc<Checked>],
) -> Result<Vec<bool>, AllocError>
    ensures { IfOk result (λ flags. flags.items ≡ map (is_shown (source_in file.now).outcome) (found_of checks.now)) }
{
    let mut flags = Vec::new(alloc);
    for check in checks {
        push_flags(&mut flags, file, check.messages())?;
    }
    Ok(flags)
}

/// Adds whether no ignore comment of a file suppresses them, for messages.
fn push_flags(
    flags: &mut Vec<bool>,
    file: &SourceFile,
    messages: &[Message],
) -> Result<(), AllocError>
    ensures { OnOk result (flags.new.items
        ≡ flags.old.items ++ map (is_shown (source_in file.now).outcome) (map message_in messages.now)) }
{
    flags.reserve(messages.len())?;
    for message in messages {
        flags.push(is_shown(file, message))?;
    }
    Ok(())
}

/// Whether no ignore comment of a file suppresses a message.
fn is_shown(file: &SourceFile, message: &Message) -> bool
    ensures { result ≡ is_shown (source_in file.now).outcome (message_in message.now) }
{
    match file.outcome() {
        Outcome::Tree(module) => !is_suppressed(module, message),
        Outcome::Fault(_) => true,
    }
}

/// Adds those messages whose flags are set, borrowed, and answers the flags after theirs.
fn push_flagged<'a, 'b>(
    all: &mut Vec<&'a Message>,
    messages: &'a [Message],
    flags: &'b [bool],
) -> Result<&'b [bool], AllocError>
    ensures messages { OnOk result (map (λ message. message_in message.now) all.new.items
        ≡ map (λ message. message_in message.now) all.old.items ++ flagged (map message_in messages.now) flags.now) }
    ensures rest { IfOk result (λ rest. rest.now ≡ drop (length messages.now) flags.now) }
{
    let mut rest = flags;
    for message in messages {
        let Some((flag, more)) = rest.split_first() else {
            return Ok(rest);
        };
        if *flag {
            all.push(message)?;
        }
        rest = more;
    }
    Ok(rest)
}
