//! A table of keys and their numbers.

ghost use Rattle.std.specs.Prelude.{◌≡◌, ◌≢◌, ℕ, ◌<◌, ◌≤◌, Some, None, IfSome, IfNone, IfOk, OnOk, OnErr};
ghost use Rattle.std.specs.Prelude.{[], if◌then◌else◌, length};
ghost use Rattle.indexmap.specs.IndexMap.{get as number_of, spare, Updates};
ghost use Rattle.pyc_keys.specs.Inverse.{AreInverse};
ghost use Rattle.pyc_keys.specs.KeyEquality.{is_asked};
ghost use Rattle.pyc_keys.specs.KeyNumbers.{key_at};
ghost use Rattle.pyc_keys.specs.Numbering.{with_item, without, marked_only, IsInjective};
ghost use Rattle.pyc_reading.specs.KeyView.{key_of};
ghost use Rattle.slab.specs.Slab.{HasRoomFor};

use crate::copies::copy_of;
use crate::known_key::KnownKey;
use indexmap::IndexMap;
use pyc_reading::Key;
use slab::Slab;
use std::alloc::{AllocError, Global};
use std::rc::Rc;

/// Keys by their numbers, and the numbers of keys.
#[derive(Drop)]
pub(crate) struct KeyTable {
    alloc: Global,
    slots: Slab<KnownKey<'static>>,
    numbers: IndexMap<KnownKey<'static>, usize>,
    ghost inverse: { AreInverse (key_at slots.slots) (number_of is_asked numbers) },
}

impl KeyTable {
    ghost use Rattle.pyc_keys.specs.KeyTableView.{key_list, keys_in};

    /// A table of no keys. It takes no memory.
    pub(crate) fn new(alloc: Global) -> KeyTable
        ensures { key_list result ≡ [] }
    {
        KeyTable {
            alloc,
            slots: Slab::new(alloc),
            numbers: IndexMap::new(alloc),
        }
    }

    /// The number of a key, if it has one. Takes no memory.
    pub(crate) fn find(&self, key: &Key) -> Option<usize>
        ensures held { IfSome result (λ number. keys_in self.now number ≡ Some (key_of key.now)) }
        ensures none { IfNone result ((i : ℕ) → keys_in self.now i ≢ Some (key_of key.now)) }
        ensures apart { IsInjective (keys_in self.now) }
    {
        let sought = KnownKey::sought(key);
        number_in(&self.numbers, &sought)
    }

    /// The number that the next new key gets.
    pub(crate) fn vacant(&self) -> usize
        ensures { result ≡ self.now.slots.vacant_key }
    {
        self.slots.vacant_key()
    }

    /// Gives a number to a key that has none. Where memory is refused all is as before.
    pub(crate) fn add(&mut self, key: &Key) -> Result<usize, AllocError>
        requires { (i : ℕ) → keys_in self.old i ≢ Some (key_of key.now) }
        ensures vacant { IfOk result (λ number. number ≡ self.old.slots.vacant_key) }
        ensures free { IfOk result (λ number. keys_in self.old number ≡ None) }
        ensures held { IfOk result (λ number. keys_in self.new ≡ with_item (keys_in self.old) number (key_of key.now)) }
        ensures same { OnErr result (key_list self.new ≡ key_list self.old) }
    {
        let held = held_twice(self.alloc, key)?;
        self.make_room()?;
        let number = self.slots.insert_reserved(held.0);
        note(&mut self.numbers, held.1, number);
        Ok(number)
    }

    /// Makes room for one key more, and for the note that its number is free once it is let go.
    fn make_room(&mut self) -> Result<(), AllocError>
        ensures slots { OnOk result (HasRoomFor self.new.slots 1) }
        ensures numbers { OnOk result (0 < spare self.new.numbers) }
        ensures vacant { self.new.slots.vacant_key ≡ self.old.slots.vacant_key }
        ensures same { key_list self.new ≡ key_list self.old }
    {
        self.numbers.reserve(1)?;
        self.slots.reserve(1)?;
        Ok(())
    }

    /// The key of a number, if the number is held. No key has two numbers.
    pub(crate) fn get(&self, number: usize) -> Option<&Key>
        ensures held { IfSome result (λ key. keys_in self.now number ≡ Some (key_of key.now)) }
        ensures none { IfNone result (keys_in self.now number ≡ None) }
        ensures apart { IsInjective (keys_in self.now) }
    {
        match self.slots.get(number) {
            Some(known) => Some(known.key()),
            None => None,
        }
    }

    /// Lets a number go, if it is held. It takes no memory.
    pub(crate) fn release(&mut self, number: usize)
        ensures { keys_in self.new ≡ without (keys_in self.old) number }
    {
        if let Some(key) = self.slots.try_remove(number) {
            let _ = self.numbers.swap_remove(&key);
        }
    }

    /// Lets all numbers go that have no mark; those that are held are below the marks' bound. It takes no memory.
    pub(crate) fn keep_marked(&mut self, marks: &[bool])
        requires { (i : ℕ) → length marks.now ≤ i → keys_in self.old i ≡ None }
        ensures { keys_in self.new ≡ marked_only marks.now (keys_in self.old) }
    {
        for number in 0..marks.len() {
            self.release_unless(marks[number], number);
        }
    }

    /// Lets a number go, unless it is marked.
    fn release_unless(&mut self, is_marked: bool, number: usize)
        ensures { keys_in self.new ≡ (if is_marked then keys_in self.old else without (keys_in self.old) number) }
    {
        if !is_marked {
            self.release(number);
        }
    }
}

/// The number of a key, if it has one.
fn number_in<'a>(numbers: &IndexMap<KnownKey<'a>, usize>, key: &KnownKey<'a>) -> Option<usize>
    ensures { result ≡ number_of is_asked numbers.now key.now }
{
    match numbers.get(key) {
        Some(number) => Some(*number),
        None => None,
    }
}

/// A key once more, shared by two that hold it. The only error is that memory runs out.
fn held_twice(
    alloc: Global,
    key: &Key,
) -> Result<(KnownKey<'static>, KnownKey<'static>), AllocError>
    ensures first { IfOk result (λ held. held.0 ≡ key_of key.now) }
    ensures second { IfOk result (λ held. held.1 ≡ key_of key.now) }
{
    let first = Rc::new(alloc, copy_of(key)?)?;
    let second = first.clone()?;
    Ok((KnownKey::held(first), KnownKey::held(second)))
}

/// Notes the number of a key. The room for it has been made.
fn note(numbers: &mut IndexMap<KnownKey<'static>, usize>, key: KnownKey<'static>, number: usize)
    requires { 0 < spare numbers.old }
    ensures { Updates is_asked numbers.old numbers.new key.entry (Some number) }
{
    if numbers.insert(key, number).is_err() {
        unreachable!();
    }
}
