//! Names by number.

ghost use Rattle.std.specs.Prelude.{◌≡◌, ◌≢◌, ℕ, Some, true, [], ◌∷◌, ◌++◌, is_some, length};
ghost use Rattle.std.specs.Prelude.{IfSome, IfNone, IfOk, OnOk, OnErr};
ghost use Rattle.pyc_keys.specs.NameNumbers.{text_at};
ghost use Rattle.pyc_keys.specs.Numbering.{with_item, Extends, IsInjective, IsNumberFor};

use crate::name_id::NameId;
use indexmap::IndexSet;
use std::alloc::{AllocError, Global};
use std::marker::Model;

/// Texts, each with a number of its own. No text is let go. Contracts see the texts by number from 0 on. They are for
/// users of the library: the program has none.
#[derive(Drop)]
pub struct Names {
    alloc: Global,
    texts: IndexSet<String>,
}

impl Model for Names {
    ghost use Rattle.std.specs.Prelude.{ℕ, List};

    ghost Value = { List (List ℕ) };

    ghost use Rattle.pyc_keys.specs.NamesInside.{texts_of, AreDistinct};

    ghost view = { texts_of };

    ghost invariant = { AreDistinct };
}

impl Names {
    /// No names. It takes no memory.
    pub fn new(alloc: Global) -> Names
        ensures { result ≡ [] }
    {
        Names {
            alloc,
            texts: IndexSet::new(alloc),
        }
    }

    /// The number of a text: its own where it has one, else a new one. The only error is that memory runs out; then all
    /// is as before.
    pub fn intern(&mut self, text: &str) -> Result<NameId, AllocError>
        ensures number { IfOk result (λ id. IsNumberFor (text_at self.old) text.now id) }
        ensures held { IfOk result (λ id. text_at self.new ≡ with_item (text_at self.old) id text.now) }
        ensures extends { Extends (text_at self.old) (text_at self.new) }
        ensures same { OnErr result (self.new ≡ self.old) }
    {
        match self.find(text) {
            Some(id) => Ok(id),
            None => self.add(text),
        }
    }

    /// The number of a text, if it has one. Takes no memory.
    pub fn find(&self, text: &str) -> Option<NameId>
        ensures held { IfSome result (λ id. text_at self.now id ≡ Some text.now) }
        ensures none { IfNone result ((i : ℕ) → text_at self.now i ≢ Some text.now) }
        ensures apart { IsInjective (text_at self.now) }
    {
        match self.texts.get_full(text) {
            Some((number, _)) => Some(NameId::new(number)),
            None => None,
        }
    }

    /// The text of a number. No text has two numbers.
    pub fn text(&self, id: NameId) -> &str
        requires { is_some (text_at self.now id) ≡ true }
        ensures value { Some result.now ≡ text_at self.now id }
        ensures apart { IsInjective (text_at self.now) }
    {
        self.texts.get_index(id.number()).unwrap().as_str()
    }

    /// Gives a number to a text that has none. Where memory is refused all is as before.
    fn add(&mut self, text: &str) -> Result<NameId, AllocError>
        requires { (i : ℕ) → text_at self.old i ≢ Some text.now }
        ensures last { IfOk result (λ id. id ≡ length self.old) }
        ensures listed { OnOk result (self.new ≡ self.old ++ text.now ∷ []) }
        ensures same { OnErr result (self.new ≡ self.old) }
    {
        let number = self.texts.len();
        let kept = String::from_str(self.alloc, text)?;
        self.texts.insert(kept)?;
        Ok(NameId::new(number))
    }
}
