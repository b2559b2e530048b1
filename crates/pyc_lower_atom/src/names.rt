//! Names that are shared within a file.

ghost use Rattle.std.specs.Prelude.{◌≡◌, ◌<◌, IfOk};
ghost use Rattle.std.specs.Bool.{OnTrue};
ghost use Rattle.pyc_ast.specs.Names.{nfkc_text};

use pyc_ast::Text;
use std::alloc::{AllocError, Global};

/// How many names a table of names remembers at most.
const SLOTS: usize = 1024;

/// The names that a file had so far, each at the slot of its hash; a later one takes the slot of an earlier one. What a
/// slot holds is compared before it is shared, so nothing is promised of the slots.
#[derive(Drop)]
pub struct Names {
    slots: Vec<Option<Text>>,
}

/// The slot of a text: a hash of its bytes.
fn slot_of(text: &str) -> usize
    ensures { result < 1024 }
{
    let mut hash = 5381u32;
    for byte in text.as_bytes() {
        hash = hash.wrapping_mul(33) ^ u32::from(*byte);
    }
    (hash ^ (hash >> 16)) as usize % SLOTS
}

/// Whether a name is one that this text spells, which is in ASCII and so is its own normal form.
#[tactic(auto, using(pyc_ast::proofs::NameLemmas::nfkc_names))]
fn is_spelled(name: &Text, text: &str) -> bool
    ensures { OnTrue result (name.now ≡ nfkc_text text.now) }
{
    text.is_ascii() && name.as_str() == text
}

impl Names {
    /// No name so far.
    pub fn new(alloc: Global) -> Result<Names, AllocError> {
        let mut slots = Vec::with_capacity(alloc, SLOTS)?;
        for _ in 0..SLOTS {
            slots.push(None)?;
        }
        Ok(Names { slots })
    }

    /// The name that a text spells, in Normalization Form KC, shared where the file had it.
    pub fn shared(&mut self, alloc: Global, text: &str) -> Result<Text, AllocError>
        ensures { IfOk result (λ name. name ≡ nfkc_text text.now) }
    {
        let slot = slot_of(text);
        if let Some(Some(name)) = self.slots.get(slot) {
            if is_spelled(name, text) {
                return name.clone();
            }
        }
        let name = Text::normalized(alloc, text)?;
        if let Some(place) = self.slots.get_mut(slot) {
            *place = Some(name.clone()?);
        }
        Ok(name)
    }
}
