//! Keys with their answers.

ghost use Rattle.std.specs.Prelude.{◌≡◌, List, OnOk, OnErr};
ghost use Rattle.indexmap.specs.IndexMap.{insert_entry};
ghost use Rattle.pyc_recorder.specs.KeptAnswers.{AreAnswers};
ghost use Rattle.pyc_keys.specs.KeyEquality.{is_asked};
ghost use Rattle.pyc_known_answers.specs.LookedAnswers.{IsAnswerOf};
ghost use Rattle.pyc_known_answers.specs.LookedAnswerView.{looked_in};
ghost use Rattle.pyc_names.specs.Interfaces.{Interface};

use crate::asked_key::AskedKey;
use indexmap::IndexMap;
use pyc_known_answers::LookedAnswer;
use std::alloc::AllocError;
use std::rc::Rc;

/// Keeps the answer to a key. The only error is that memory runs out; then it is not kept.
pub(crate) fn keep(
    kept: &mut IndexMap<AskedKey, Rc<LookedAnswer>>,
    asked: AskedKey,
    answer: Rc<LookedAnswer>,
) -> Result<(), AllocError>
    ensures done { OnOk result (kept.new.entries ≡ insert_entry is_asked kept.old.entries asked answer) }
    ensures failed { OnErr result (kept.new.entries ≡ kept.old.entries) }
    ensures answers { (interfaces : List Interface) → IsAnswerOf interfaces asked (looked_in answer.value)
        → AreAnswers interfaces kept.old.entries → AreAnswers interfaces kept.new.entries }
{
    kept.insert(asked, answer)?;
    Ok(())
}
