//! Whether modules and names are there.

ghost use Rattle.std.specs.Prelude.{◌≡◌};
ghost use Rattle.pyc_imports.specs.ImportReadings as spec;
ghost use Rattle.pyc_reading.specs.AnswerView.{answer_in};
ghost use Rattle.pyc_reading.specs.Traces.{Performs};
ghost use Rattle.pyc_reading.specs.KeyView.{key_of};

use pyc_reading::{Answer, Ask, Key, Presence};
use std::alloc::{AllocError, Global};

/// Whether the module or the name of a key is there, which is asked; none where the key asks something else. The only
/// error is that memory runs out.
pub fn ask_presence<N: Ask>(
    alloc: Global,
    recorder: &mut N,
    key: Key,
) -> Result<Option<Presence>, AllocError>
    ensures { Performs (λ found. found) (spec.ask_presence (key_of key)) (N.trace recorder.old) result
        (N.trace recorder.new) }
{
    let answer = recorder.ask(alloc, key)?;
    Ok(presence_in(&answer))
}

/// Whether it is there, as an answer says it.
fn presence_in(answer: &Answer) -> Option<Presence>
    ensures { result ≡ spec.presence_in (answer_in answer.now) }
{
    match answer {
        Answer::Presence(found) => Some(*found),
        _ => None,
    }
}
