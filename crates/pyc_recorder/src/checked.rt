//! What came of examining a part of a file.

ghost use Rattle.std.specs.Prelude.{◌≡◌, map};
ghost use Rattle.pyc_report.specs.Message.{message_in};

use pyc_keys::{KeyId, ReadSet};
use pyc_report::Message;

/// What came of examining a part of a file: its reads, which are the keys that were asked, by their numbers, each once
/// and in the order in which they were first asked, and what was found, which are the messages that were reported, in
/// order.
#[derive(Drop)]
pub struct Checked {
    reads: Vec<KeyId>,
    messages: Vec<Message>,
}

impl Checked {
    ghost use Rattle.pyc_recorder.specs.CheckedView.{messages_of, numbers_in};

    /// These reads and messages. It takes no memory.
    pub(crate) fn new(reads: Vec<KeyId>, messages: Vec<Message>) -> Checked
        ensures reads { numbers_in result ≡ reads.items }
        ensures messages { messages_of result ≡ map message_in messages.items }
    {
        Checked { reads, messages }
    }

    /// What was found.
    pub fn messages(&self) -> &[Message]
        ensures { map message_in result.now ≡ messages_of self.now }
    {
        &self.messages
    }
}

impl ReadSet for Checked {
    ghost use Rattle.pyc_recorder.specs.CheckedView.{numbers_in};

    ghost numbers = { numbers_in };

    fn reads(&self) -> &[KeyId] {
        self.reads.as_slice()
    }
}
