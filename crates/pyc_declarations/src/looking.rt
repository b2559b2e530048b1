//! What notes what it looks at.

ghost use Rattle.std.specs.Prelude.{◌≡◌, List, OnOk, flat_map, map};
ghost use Rattle.pyc_names.specs.Looks.{Look};
ghost use Rattle.pyc_names.specs.NotedLooks.{with_looks};
ghost use Rattle.pyc_names.specs.NotedLooksView.{noted_in};
ghost use Rattle.pyc_reading.specs.Keys.{Key as PlainKey};
ghost use Rattle.pyc_reading.specs.KeyView.{key_of};

use pyc_names::Looks;
use pyc_reading::Key;
use std::alloc::{AllocError, Global};

/// What looks at files for its answers, and notes what it looks at.
pub(crate) trait Looking {
    ghost looked_at: { Self → PlainKey → List Look };

    /// Notes what is looked at for the answer to a key. The only error is that memory runs out.
    fn note_looks(&self, alloc: Global, key: &Key, looks: &mut Looks) -> Result<(), AllocError>
        ensures { OnOk result (noted_in looks.new
            ≡ with_looks (noted_in looks.old) (looked_at self.now (key_of key.now))) };
}

/// Notes what is looked at for the answers to keys, where looks are kept. The only error is that memory runs out.
#[tactic(auto, using(pyc_names::proofs::NotedLemmas::unkept))]
pub(crate) fn note_read<A: Looking>(
    alloc: Global,
    answers: &A,
    keys: &[Key],
    looks: &mut Looks,
) -> Result<(), AllocError>
    ensures { OnOk result (noted_in looks.new
        ≡ with_looks (noted_in looks.old) (flat_map (A.looked_at answers.now) (map key_of keys.now))) }
{
    if looks.is_kept() {
        note_each(alloc, answers, keys, looks)?;
    }
    Ok(())
}

/// Notes what is looked at for the answer to each key.
#[tactic(auto, using(pyc_names::proofs::NotedLemmas::noting))]
fn note_each<A: Looking>(
    alloc: Global,
    answers: &A,
    keys: &[Key],
    looks: &mut Looks,
) -> Result<(), AllocError>
    ensures { OnOk result (noted_in looks.new
        ≡ with_looks (noted_in looks.old) (flat_map (A.looked_at answers.now) (map key_of keys.now))) }
{
    for key in keys {
        answers.note_looks(alloc, key, looks)?;
    }
    Ok(())
}
