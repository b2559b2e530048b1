//! What performs readings over answers: it records the keys asked and the messages reported.

ghost use Rattle.std.specs.Prelude.{◌≡◌, IfOk, is_ok, map};
ghost use Rattle.pyc_reading.specs.KeyView.{key_of};

use crate::answers::Answers;
use crate::keys::note;
use pyc_reading::{Answer, Ask, Key};
use pyc_report::Message;
use std::alloc::{AllocError, Global};

/// What performs readings over `answers`: it records the keys asked and the messages reported. Each key stands there
/// once, in the order in which the keys were first asked.
#[derive(Drop)]
pub struct DeclarationRecorder<A> {
    answers: A,
    keys: Vec<Key>,
    messages: Vec<Message>,
}

impl<A: Answers + Copy> DeclarationRecorder<A> {
    ghost use Rattle.pyc_declarations.specs.RecorderView.{trace_of, new_trace};

    /// A recorder over these answers, at which nothing was asked or reported. It takes no memory.
    pub fn new(alloc: Global, answers: A) -> DeclarationRecorder<A>
        ensures { trace_of A.answers result ≡ new_trace (A.answers answers) }
    {
        DeclarationRecorder {
            answers,
            keys: Vec::new(alloc),
            messages: Vec::new(alloc),
        }
    }

    /// The keys that were asked.
    pub(crate) fn keys(&self) -> &[Key]
        ensures { map key_of result.now ≡ (trace_of A.answers self.now).keys }
    {
        &self.keys
    }
}

impl<A: Answers> Ask for DeclarationRecorder<A> {
    ghost use Rattle.pyc_declarations.specs.RecorderView.{trace_of};

    ghost trace = { trace_of A.answers };

    fn ask(&mut self, alloc: Global, key: Key) -> Result<Answer, AllocError> {
        let answer = self.answers.answer(alloc, &key)?;
        let noted = note(&mut self.keys, key);
        answer_once_noted(noted, answer)
    }

    fn report(&mut self, message: Message) -> Result<(), AllocError> {
        self.messages.push(message)?;
        Ok(())
    }
}

/// An answer, where its key was noted.
fn answer_once_noted(noted: Result<(), AllocError>, answer: Answer) -> Result<Answer, AllocError>
    ensures noted { is_ok result ≡ is_ok noted }
    ensures answer_once_noted { IfOk result (λ found. found ≡ answer) }
{
    match noted {
        Ok(()) => Ok(answer),
        Err(error) => Err(error),
    }
}
