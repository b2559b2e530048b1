//! Marks on numbers.

ghost use Rattle.std.specs.Prelude.{◌≡◌, ℕ, ◌<◌, ◌≤◌, ◌||◌, ◌==◌, false, length, [], IfOk, OnOk, OnErr};
ghost use Rattle.pyc_keys.specs.Marks.{is_marked, is_in};

use crate::key_id::KeyId;
use std::alloc::{AllocError, Global};
use std::marker::Model;

/// A mark on each number below a bound. Contracts see the marks from number 0 on.
#[derive(Drop)]
pub(crate) struct Marks {
    of: Vec<bool>,
}

impl Model for Marks {
    ghost use Rattle.std.specs.Prelude.{List, Bool};

    ghost Value = { List Bool };

    ghost view = { λ marks. marks.of.items };
}

impl Marks {
    /// Marks on no number. It takes no memory.
    pub(crate) fn new(alloc: Global) -> Marks
        ensures { result ≡ [] }
    {
        Marks {
            of: Vec::new(alloc),
        }
    }

    /// The first number that has no mark.
    pub(crate) fn bound(&self) -> usize
        ensures { result ≡ length self.now }
    {
        self.of.len()
    }

    /// The marks themselves.
    pub(crate) fn as_slice(&self) -> &[bool]
        ensures { result.now ≡ self.now }
    {
        self.of.as_slice()
    }

    /// Gives each number up to `number` a mark. The only error is that memory runs out.
    pub(crate) fn cover(&mut self, number: usize) -> Result<(), AllocError>
        ensures covered { OnOk result (number < length self.new) }
        ensures more { length self.old ≤ length self.new }
    {
        while self.of.len() <= number {
            self.of.push(false)?;
        }
        Ok(())
    }

    /// Takes all marks away.
    pub(crate) fn clear(&mut self)
        ensures bound { length self.new ≡ length self.old }
        ensures none { (i : ℕ) → is_marked self.new i ≡ false }
    {
        for number in 0..self.of.len() {
            self.of[number] = false;
        }
    }

    /// Marks some numbers, so far as they are below the bound.
    pub(crate) fn mark_all(&mut self, ids: &[KeyId])
        ensures bound { length self.new ≡ length self.old }
        ensures marked { (i : ℕ) → i < length self.old
            → is_marked self.new i ≡ (is_marked self.old i || is_in ids.now i) }
    {
        for id in ids {
            self.mark(id.number());
        }
    }

    /// Marks a number, if it is below the bound.
    fn mark(&mut self, number: usize)
        ensures bound { length self.new ≡ length self.old }
        ensures marked { (i : ℕ) → i < length self.old
            → is_marked self.new i ≡ (is_marked self.old i || number == i) }
    {
        if number < self.of.len() {
            self.of[number] = true;
        }
    }
}
