//! Flags on the numbers of looks.

ghost use Rattle.std.specs.Prelude.{◌≡◌, ℕ, ◌<◌, false, ◌||◌, ◌==◌, IfOk};
ghost use Rattle.std.specs.List.{list_any};
ghost use Rattle.pyc_iface.specs.Flags.{flag_at, is_flagged, is_noted};
ghost use Rattle.pyc_names.specs.LookNumbers.{number_of};
ghost use Rattle.pyc_names.specs.Looks.{Look};
ghost use Rattle.pyc_names.specs.NotedLooksView.{noted_in};

use pyc_names::Looks;
use std::alloc::{AllocError, Global};
use std::marker::Model;

/// How many numbers of looks there are.
const NUMBERS: usize = 65_521;

/// Which numbers of looks are flagged: one that has no flag counts as flagged. Contracts see the flags from number 0
/// on.
#[derive(Drop)]
pub struct Flags {
    flags: Vec<bool>,
}

impl Model for Flags {
    ghost use Rattle.std.specs.Prelude.{List, Bool};

    ghost Value = { List Bool };

    ghost view = { λ flags. flags.flags.items };
}

impl Flags {
    /// Flags on the looks that were noted, and on no other; on each, where no numbers are kept. The only error is that
    /// memory runs out.
    pub fn of_looks(alloc: Global, looks: &Looks) -> Result<Flags, AllocError>
        ensures { IfOk result (λ flags. (look : Look) → is_flagged flags look
            ≡ is_noted (noted_in looks.now) (number_of look)) }
    {
        match looks.numbers() {
            Some(numbers) => Flags::of_numbers(alloc, numbers),
            None => Ok(Flags {
                flags: Vec::new(alloc),
            }),
        }
    }

    /// Flags on these numbers, and on no other. The only error is that memory runs out.
    fn of_numbers(alloc: Global, numbers: &[u16]) -> Result<Flags, AllocError>
        ensures { IfOk result (λ flags. (number : ℕ) → number < 65521
            → flag_at flags number ≡ list_any (λ other. other == number) numbers.now) }
    {
        let mut flags = Flags::clear(alloc, NUMBERS)?;
        for number in numbers {
            flags.set(*number);
        }
        Ok(flags)
    }

    /// No number below `count` is flagged. The only error is that memory runs out.
    fn clear(alloc: Global, count: usize) -> Result<Flags, AllocError>
        ensures { IfOk result (λ flags. (number : ℕ) → number < count → flag_at flags number ≡ false) }
    {
        let flags = Vec::from_elem(alloc, false, count)?;
        Ok(Flags { flags })
    }

    /// Flags a number.
    #[tactic(auto, using(crate::proofs::FlagLemmas::setting))]
    fn set(&mut self, number: u16)
        ensures { (other : ℕ) → flag_at self.new other ≡ (flag_at self.old other || number == other) }
    {
        let place = usize::from(number);
        if place < self.flags.len() {
            self.flags[place] = true;
        }
    }

    /// Whether one of these numbers is flagged.
    pub fn is_any(&self, numbers: &[u16]) -> bool
        ensures { result ≡ list_any (flag_at self.now) numbers.now }
    {
        for number in numbers {
            if self.is_flagged(*number) {
                return true;
            }
        }
        false
    }

    /// Whether a number is flagged.
    fn is_flagged(&self, number: u16) -> bool
        ensures { result ≡ flag_at self.now number }
    {
        match self.flags.get(usize::from(number)) {
            Some(flag) => *flag,
            None => true,
        }
    }
}
