//! The messages that are found in the units of a file and that no ignore comment suppresses.

ghost use Rattle.std.specs.Prelude.{◌≡◌, ◌++◌, flat_map, map, IfOk, OnOk};
ghost use Rattle.pyc_body.specs.FoundMessages.{without_ignored};
ghost use Rattle.pyc_recorder.specs.CheckedView.{messages_of};
ghost use Rattle.pyc_names.specs.SourceFileView.{source_in};
ghost use Rattle.pyc_report.specs.Message.{message_in};

use pyc_ast::Outcome;
use pyc_names::SourceFile;
use pyc_recorder::Checked;
use pyc_report::{Message, drop_suppressed};
use std::alloc::{AllocError, Global};

/// The unsuppressed messages of a file, of whose units these checks are: what is found in them, one after another,
/// without what the ignore comments of the file suppress. The only error is that memory runs out. The call is for users
/// of the library: the program does not make it.
pub fn unsuppressed(
    alloc: Global,
    file: &SourceFile,
    checks: &[Checked],
) -> Result<Vec<Message>, AllocError>
    ensures { IfOk result (λ messages. map message_in messages.items
        ≡ without_ignored (source_in file.now).outcome
        (flat_map messages_of checks.now)) }
{
    let mut messages = messages_of_checks(alloc, checks)?;
    drop_ignored(file, &mut messages);
    Ok(messages)
}

/// Takes the messages away that the ignore comments of a file suppress. It takes no memory.
fn drop_ignored(file: &SourceFile, messages: &mut Vec<Message>)
    ensures { map message_in messages.new.items
        ≡ without_ignored (source_in file.now).outcome (map message_in messages.old.items) }
{
    if let Outcome::Tree(module) = file.outcome() {
        drop_suppressed(module, messages);
    }
}

/// The messages of checks, one after another.
fn messages_of_checks(alloc: Global, checks: &[Checked]) -> Result<Vec<Message>, AllocError>
    ensures { IfOk result (λ messages. map message_in messages.items
        ≡ flat_map messages_of checks.now) }
{
    let mut messages = Vec::new(alloc);
    for check in checks {
        push_copies(&mut messages, check.messages())?;
    }
    Ok(messages)
}

/// Adds messages once more. The only error is that memory runs out.
fn push_copies(messages: &mut Vec<Message>, more: &[Message]) -> Result<(), AllocError>
    ensures { OnOk result (map message_in messages.new.items
        ≡ map message_in messages.old.items ++ map message_in more.now) }
{
    for message in more {
        let copy = copy_of(message)?;
        messages.push(copy)?;
    }
    Ok(())
}

/// A message once more.
fn copy_of(message: &Message) -> Result<Message, AllocError>
    ensures { IfOk result (λ copy. message_in copy ≡ message_in message.now) }
{
    Ok(Message {
        line: message.line,
        column: message.column,
        kind: message.kind,
        text: message.text.clone()?,
    })
}
