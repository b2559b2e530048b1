//! What answers keys.

ghost use Rattle.std.specs.Prelude.{◌≡◌, IfOk};
ghost use Rattle.pyc_reading.specs.Answers.{Answer as PlainAnswer};
ghost use Rattle.pyc_reading.specs.AnswerView.{answer_in};
ghost use Rattle.pyc_reading.specs.Keys.{Key as PlainKey};
ghost use Rattle.pyc_reading.specs.KeyView.{key_of};

use pyc_reading::{Answer, Key};
use std::alloc::{AllocError, Global};

/// What answers keys: to a key it always gives the same answer.
pub trait Answers {
    ghost answers: { Self → PlainKey → PlainAnswer };

    /// The answer to a key. The only error is that memory runs out.
    fn answer(&self, alloc: Global, key: &Key) -> Result<Answer, AllocError>
        ensures { IfOk result (λ answer. answer_in answer ≡ answers self.now (key_of key.now)) };
}
