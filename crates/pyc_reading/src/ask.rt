//! What performs a reading.

ghost use Rattle.std.specs.Prelude.{[], ◌∷◌};
ghost use Rattle.pyc_reading.specs.AnswerView.{answer_in};
ghost use Rattle.pyc_reading.specs.Traces.{Trace, Keeps, Performs, asking};
ghost use Rattle.pyc_reading.specs.KeyView.{key_of};
ghost use Rattle.pyc_report.specs.Message.{message_in};

use crate::answer::Answer;
use crate::key::Key;
use pyc_report::Message;
use std::alloc::{AllocError, Global};

/// What performs a reading: it answers keys, and records the keys asked and the messages reported.
pub trait Ask {
    ghost trace: { Self → Trace };

    /// The answer to a key, which is taken down. The only error is that memory runs out.
    fn ask(&mut self, alloc: Global, key: Key) -> Result<Answer, AllocError>
        ensures { Performs answer_in (asking (key_of key)) (trace self.old) result (trace self.new) };

    /// Takes down a message. The only error is that memory runs out.
    fn report(&mut self, message: Message) -> Result<(), AllocError>
        ensures { Keeps (message_in message ∷ []) (trace self.old) result (trace self.new) };
}
