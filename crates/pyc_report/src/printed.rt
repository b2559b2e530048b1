//! Messages as they are printed.

ghost use Rattle.std.specs.Prelude.{◌≡◌};
ghost use Rattle.pyc_report.specs.Message.{message_in};

use crate::message::Message;
use std::hash::{Hash, Hasher};
use std::marker::Model;

/// A message of a file as one of a set, in which those with the same line, code and text are one. Contracts see the
/// message.
#[derive(Debug, Drop)]
pub(crate) struct PrintedMessage {
    message: Message,
}

impl Model for PrintedMessage {
    ghost use Rattle.pyc_report.specs.Message.{Message, message_in};

    ghost Value = { Message };

    ghost view = { λ printed. message_in printed.message };
}

impl PrintedMessage {
    /// A message as it is printed.
    pub(crate) fn new(message: Message) -> PrintedMessage
        ensures { result ≡ message_in message }
    {
        PrintedMessage { message }
    }

    /// The message, by itself.
    pub(crate) fn into_message(self) -> Message
        ensures { message_in result ≡ self }
    {
        self.message
    }
}

impl PartialEq for PrintedMessage {
    ghost use Rattle.std.specs.Cmp.{partial_equiv_from_equiv};
    ghost use Rattle.pyc_report.specs.FoundOrder.{is_alike};
    ghost use Rattle.pyc_report.specs.PrintedMessages.{is_alike_equiv};

    ghost eq = { is_alike };

    ghost laws = { partial_equiv_from_equiv is_alike_equiv };

    /// Whether both have the same line, code and text. Takes no memory.
    fn eq(&self, other: &PrintedMessage) -> bool {
        self.message.line == other.message.line
            && self.message.kind.code() == other.message.kind.code()
            && self.message.text.as_str() == other.message.text.as_str()
    }
}

impl Eq for PrintedMessage {
    ghost use Rattle.pyc_report.specs.PrintedMessages.{is_alike_equiv};

    ghost laws = { is_alike_equiv };
}

impl Hash for PrintedMessage {
    ghost use Rattle.pyc_report.specs.PrintedMessages.{alike_fed, printed_input};

    ghost hash_input = { printed_input };

    ghost respects_eq = { alike_fed };

    fn hash<H: Hasher>(&self, state: &mut H) {
        self.message.line.hash(state);
        self.message.text.as_str().hash(state);
    }
}
