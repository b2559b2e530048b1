//! The messages of a part of a file in order, each once.

ghost use Rattle.std.specs.Prelude.{◌≡◌, [], map, IfOk, OnOk};
ghost use Rattle.pyc_report.specs.FoundOrder as spec;
ghost use Rattle.pyc_report.specs.FoundOrder.{place_cmp, with_messages};
ghost use Rattle.pyc_report.specs.SortKeyView.{place_in, place_of};
ghost use Rattle.pyc_report.specs.Message.{message_in};
ghost use Rattle.pyc_report.specs.Sort.{sorted};

use crate::message::Message;
use crate::printed::PrintedMessage;
use indexmap::IndexSet;
use std::alloc::{AllocError, Global};
use std::cmp::Ordering;

/// What the order of the messages of one file goes by, the first first. The code of a note is empty.
#[derive(Clone, Copy, PartialEq, Eq, PartialOrd, Ord)]
pub(crate) struct SortKey<'a> {
    line: usize,
    column: usize,
    code: &'a str,
    text: &'a str,
}

/// These messages of one file in the order of line, column, code and text, where of those with the same line, code and
/// text the first alone stays. The only error is that memory runs out.
#[tactic(auto, unfolding(crate::specs::FoundOrder::in_order))]
pub fn in_order(alloc: Global, mut messages: Vec<Message>) -> Result<Vec<Message>, AllocError>
    ensures { IfOk result (λ found. map message_in found.items ≡ spec.in_order (map message_in messages.items)) }
{
    sort(&mut messages)?;
    each_once(alloc, messages)
}

/// Sorts the messages of one file; what ties stays as it stands.
fn sort(messages: &mut Vec<Message>) -> Result<(), AllocError>
    ensures { OnOk result (map message_in messages.new.items ≡ sorted place_cmp (map message_in messages.old.items)) }
{
    messages.sort_by(
        |message: &Message, other: &Message| -> Ordering
            ensures { result ≡ place_cmp (message_in message.now) (message_in other.now) }
        { place_of(message).cmp(&place_of(other)) },
    )?;
    Ok(())
}

/// What the order of a message goes by.
fn place_of(message: &Message) -> SortKey<'_>
    ensures { place_in result ≡ place_of (message_in message.now) }
{
    SortKey {
        line: message.line,
        column: message.column,
        code: message.kind.code(),
        text: message.text.as_str(),
    }
}

/// These messages, where of those with the same line, code and text the first alone stays.
fn each_once(alloc: Global, messages: Vec<Message>) -> Result<Vec<Message>, AllocError>
    ensures { IfOk result (λ found. map message_in found.items ≡ with_messages [] (map message_in messages.items)) }
{
    let mut printed = IndexSet::new(alloc);
    for message in messages {
        printed.insert(PrintedMessage::new(message))?;
    }
    list_messages(alloc, printed)
}

/// The messages of a set, in their order.
fn list_messages(
    alloc: Global,
    printed: IndexSet<PrintedMessage>,
) -> Result<Vec<Message>, AllocError>
    ensures { IfOk result (λ messages. map message_in messages.items ≡ printed.keys) }
{
    let mut messages = Vec::with_capacity(alloc, printed.len())?;
    for message in printed {
        messages.push(message.into_message())?;
    }
    Ok(messages)
}
