//! The examiner of files.

ghost use Rattle.std.specs.Prelude.{◌≡◌, []};
ghost use Rattle.pyc_recorder.specs.KeptAnswers.{AreAnswers};
ghost use Rattle.pyc_iface.specs.Answers.{answer_by};
ghost use Rattle.pyc_known_answers.specs.WorldView.{interfaces_by};

use crate::asked_key::AskedKey;
use crate::copies::copy_of;
use crate::kept::keep;
use crate::unit_trace::UnitTrace;
use indexmap::IndexMap;
use pyc_class_ids::{ClassId, Lin, Lins};
use pyc_known_answers::{LookedAnswer, World};
use pyc_obligations::AskTypes;
use pyc_reading::{Answer, Ask, Key};
use pyc_report::Message;
use std::alloc::{AllocError, Global};
use std::marker::{Brand, PhantomData};
use std::rc::Rc;

/// Files over which an examiner performs readings. Who makes the examiner picks them.
pub trait OverFiles {
    ghost use Rattle.std.specs.Prelude.{List};
    ghost use Rattle.pyc_names.specs.Interfaces.{Interface};

    ghost files: { List Interface };
}

impl OverFiles for Brand {
    ghost use Rattle.std.specs.Prelude.{[]};

    ghost files = { [] };
}

/// The examiner performs readings over what a world answers, and keeps the keys that were asked, each once with its
/// answer, in the order in which they were first asked, and the messages that were reported.
#[derive(Drop)]
pub struct Recorder<'a, F: OverFiles> {
    keys: &'a World,
    answers: IndexMap<AskedKey, Rc<LookedAnswer>>,
    messages: Vec<Message>,
    files: PhantomData<F>,
    ghost files_are: { ∥ interfaces_by keys.now ≡ F.files ∥₁ },
    ghost answers_are: { ∥ AreAnswers F.files answers.entries ∥₁ },
}

impl<'a, F: OverFiles> Recorder<'a, F> {
    ghost use Rattle.pyc_recorder.specs.RecorderView.{trace_of};
    ghost use Rattle.pyc_recorder.specs.UnitTraceView.{asked_in, reported_in, AreAnswered};

    /// An examiner over what a world answers, at which nothing was asked or reported. It takes no memory.
    pub fn new(alloc: Global, keys: &'a World) -> Recorder<'a, F>
        requires { interfaces_by keys.now ≡ F.files }
        ensures { trace_of result ≡ record { answers = answer_by (interfaces_by keys.now); keys = []; messages = [] } }
    {
        Recorder {
            keys,
            answers: IndexMap::new(alloc),
            messages: Vec::new(alloc),
            files: PhantomData,
        }
    }

    /// What was asked, answered and reported, by itself. It takes no memory.
    pub fn into_unit_trace(self) -> UnitTrace
        ensures keys { asked_in result ≡ (trace_of self.entry).keys }
        ensures messages { reported_in result ≡ (trace_of self.entry).messages }
        ensures answers { AreAnswered F.files result }
    {
        UnitTrace::new(self.answers, self.messages)
    }
}

impl<F: OverFiles> Ask for Recorder<'_, F> {
    ghost use Rattle.pyc_recorder.specs.RecorderView.{trace_of};

    ghost trace = { trace_of };

    fn ask(&mut self, _: Global, key: Key) -> Result<Answer, AllocError> {
        let asked = AskedKey::new(key);
        if let Some(answer) = self.answers.get(&asked) {
            return copy_of(answer.answer());
        }
        let answer = self.keys.answer(asked.key())?;
        let copy = copy_of(answer.answer())?;
        keep(&mut self.answers, asked, answer)?;
        Ok(copy)
    }

    fn report(&mut self, mut message: Message) -> Result<(), AllocError> {
        // a copy has the room that it takes; a text that was formed piece by piece has up to twice as much
        message.text = message.text.clone()?;
        self.messages.push(message)?;
        Ok(())
    }
}

impl<F: OverFiles> AskTypes for Recorder<'_, F> {
    fn lin(&self, class: &ClassId) -> Lin<'_> {
        self.keys.lin(class)
    }

    fn reported_count(&self) -> usize {
        self.messages.len()
    }

    fn forget_after(&mut self, count: usize) {
        self.messages.truncate(count);
    }
}
