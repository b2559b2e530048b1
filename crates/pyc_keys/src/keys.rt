//! Keys by number.

ghost use Rattle.std.specs.Prelude.{◌≡◌, ◌≢◌, ℕ, ◌<◌, Some, true, [], ◌∷◌, ◌++◌, is_some};
ghost use Rattle.std.specs.Prelude.{flat_map, map, IfSome, IfNone, IfOk, OnOk, OnErr};
ghost use Rattle.pyc_keys.specs.KeyNumbers.{key_at};
ghost use Rattle.pyc_keys.specs.Numbering.{with_item, without, without_all, only, AreOf, Extends};
ghost use Rattle.pyc_keys.specs.Numbering.{IsInjective, IsNumberFor};
ghost use Rattle.pyc_reading.specs.KeyView.{key_of};

use crate::key_id::KeyId;
use crate::key_table::KeyTable;
use crate::marks::Marks;
use crate::read_set::ReadSet;
use pyc_reading::Key;
use std::alloc::{AllocError, Global};
use std::marker::Model;

/// The numbers of keys, one after another, and which of these numbers are new.
#[derive(Drop)]
pub struct InternedKeys {
    pub ids: Vec<KeyId>,
    pub added: Vec<KeyId>,
}

/// Keys, each with a number of its own: a finite map from numbers to keys, and back. Contracts see the key of each
/// number from 0 on, as far as the number is held.
#[derive(Drop)]
pub struct Keys {
    table: KeyTable,
    marks: Marks,
}

impl Model for Keys {
    ghost use Rattle.std.specs.Prelude.{List, Option};
    ghost use Rattle.pyc_reading.specs.Keys.{Key};

    ghost Value = { List (Option Key) };

    ghost use Rattle.pyc_keys.specs.KeysInside.{list_of, AreCovered};

    ghost view = { list_of };

    ghost invariant = { AreCovered };
}

impl Keys {
    /// No keys. It takes no memory.
    pub fn new(alloc: Global) -> Keys
        ensures { result ≡ [] }
    {
        Keys {
            table: KeyTable::new(alloc),
            marks: Marks::new(alloc),
        }
    }

    /// The number of a key: its own where it is held, else one that was free. The only error is that memory runs out;
    /// then all is as before. The call is for users of the library: the program does not make it.
    pub fn intern(&mut self, key: &Key) -> Result<KeyId, AllocError>
        ensures number { IfOk result (λ id. IsNumberFor (key_at self.old) (key_of key.now) id) }
        ensures held { IfOk result (λ id. key_at self.new ≡ with_item (key_at self.old) id (key_of key.now)) }
        ensures extends { Extends (key_at self.old) (key_at self.new) }
        ensures same { OnErr result (self.new ≡ self.old) }
    {
        match self.find(key) {
            Some(id) => Ok(id),
            None => self.add(key),
        }
    }

    /// The numbers of keys, one after another. Without the new ones each number stands for what it did before. The only
    /// error is that memory runs out; then each does.
    pub fn intern_all(&mut self, alloc: Global, keys: &[Key]) -> Result<InternedKeys, AllocError>
        ensures held { IfOk result (λ interned. AreOf (key_at self.new) interned.ids.items
            (map key_of keys.now)) }
        ensures added { IfOk result (λ interned. without_all (key_at self.new) interned.added.items
            ≡ key_at self.old) }
        ensures extends { Extends (key_at self.old) (key_at self.new) }
        ensures same { OnErr result (key_at self.new ≡ key_at self.old) }
    {
        let mut ids = Vec::with_capacity(alloc, keys.len())?;
        let mut added = Vec::new(alloc);
        if self.intern_each(keys, &mut ids, &mut added).is_err() {
            self.forget_all(&added);
            return Err(AllocError);
        }
        Ok(InternedKeys { ids, added })
    }

    /// The number of a key, if it is held. Takes no memory.
    pub fn find(&self, key: &Key) -> Option<KeyId>
        ensures held { IfSome result (λ id. key_at self.now id ≡ Some (key_of key.now)) }
        ensures none { IfNone result ((i : ℕ) → key_at self.now i ≢ Some (key_of key.now)) }
        ensures apart { IsInjective (key_at self.now) }
    {
        match self.table.find(key) {
            Some(number) => Some(KeyId::new(number)),
            None => None,
        }
    }

    /// The key of a number that is held. No key has two numbers.
    pub fn key(&self, id: KeyId) -> &Key
        requires { is_some (key_at self.now id) ≡ true }
        ensures value { Some (key_of result.now) ≡ key_at self.now id }
        ensures apart { IsInjective (key_at self.now) }
    {
        self.table.get(id.number()).unwrap()
    }

    /// Whether a number is held.
    pub fn holds(&self, number: usize) -> bool
        ensures { result ≡ is_some (key_at self.now number) }
    {
        self.table.get(number).is_some()
    }

    /// A number above all that are held: as long is a list with an item for each of them.
    pub fn bound(&self) -> usize
        ensures { (i : ℕ) → is_some (key_at self.now i) ≡ true → i < result }
    {
        self.marks.bound()
    }

    /// Lets a number that is held go; it may be given anew. It takes no memory. The call is for users of the library:
    /// the program does not make it.
    pub fn forget(&mut self, id: KeyId)
        requires { is_some (key_at self.old id) ≡ true }
        ensures { key_at self.new ≡ without (key_at self.old) id }
    {
        self.release(id);
    }

    /// Lets some numbers go, so far as they are held. It takes no memory.
    pub fn forget_all(&mut self, ids: &[KeyId])
        ensures { key_at self.new ≡ without_all (key_at self.old) ids.now }
    {
        for id in ids {
            self.release(*id);
        }
    }

    /// Keeps the keys that one of these has read, and lets all others go. It takes no memory.
    pub fn keep_only<R: ReadSet>(&mut self, read_sets: &[R])
        ensures { key_at self.new ≡ only (flat_map R.numbers read_sets.now) (key_at self.old) }
    {
        self.marks.clear();
        for read_set in read_sets {
            self.marks.mark_all(read_set.reads());
        }
        self.table.keep_marked(self.marks.as_slice());
    }

    /// Gives a number to a key that is not held. Where memory is refused all is as before.
    fn add(&mut self, key: &Key) -> Result<KeyId, AllocError>
        requires { (i : ℕ) → key_at self.old i ≢ Some (key_of key.now) }
        ensures free { IfOk result (λ id. key_at self.old id ≡ None) }
        ensures held { IfOk result (λ id. key_at self.new ≡ with_item (key_at self.old) id (key_of key.now)) }
        ensures extends { Extends (key_at self.old) (key_at self.new) }
        ensures same { OnErr result (self.new ≡ self.old) }
    {
        self.marks.cover(self.table.vacant())?;
        let number = self.table.add(key)?;
        Ok(KeyId::new(number))
    }

    /// Adds the numbers of keys, and notes which of them are new.
    fn intern_each(
        &mut self,
        keys: &[Key],
        ids: &mut Vec<KeyId>,
        added: &mut Vec<KeyId>,
    ) -> Result<(), AllocError>
        requires first { ids.old.items ≡ [] }
        requires none { added.old.items ≡ [] }
        ensures held { OnOk result (AreOf (key_at self.new) ids.new.items (map key_of keys.now)) }
        ensures extends { Extends (key_at self.old) (key_at self.new) }
        ensures undo { without_all (key_at self.new) added.new.items ≡ key_at self.old }
    {
        for key in keys {
            self.intern_one(key, ids, added)?;
        }
        Ok(())
    }

    /// Adds the number of a key, and notes whether it is new.
    fn intern_one(
        &mut self,
        key: &Key,
        ids: &mut Vec<KeyId>,
        added: &mut Vec<KeyId>,
    ) -> Result<(), AllocError>
        ensures held { OnOk result ((id : ℕ) × (ids.new.items ≡ ids.old.items ++ id ∷ [])
            × (key_at self.new id ≡ Some (key_of key.now))) }
        ensures extends { Extends (key_at self.old) (key_at self.new) }
        ensures undo { without_all (key_at self.new) added.new.items ≡ without_all (key_at self.old) added.old.items }
    {
        if let Some(id) = self.find(key) {
            ids.push(id)?;
            return Ok(());
        }
        added.reserve(1)?;
        let id = self.add(key)?;
        added.push_reserved(id);
        ids.push(id)?;
        Ok(())
    }

    /// Lets a number go, if it is held.
    fn release(&mut self, id: KeyId)
        ensures { key_at self.new ≡ without (key_at self.old) id }
    {
        self.table.release(id.number());
    }
}
