//! How arguments are given, and which parameters they fill.

ghost use Rattle.std.specs.Prelude.{◌≡◌, OnOk, length, nat_eq};
ghost use Rattle.std.specs.List.{list_any};
ghost use Rattle.pyc_matching.specs.Matching as spec;
ghost use Rattle.pyc_matching.specs.Views.{fill_of, given_in, match_in};

use pyc_ast::Text;
use pyc_type_forms::Ty;
use std::alloc::{AllocError, Global};

/// How an argument is given.
#[derive(Clone, Copy)]
pub enum Given<'a> {
    ByPlace,
    /// By the name of its parameter.
    ByName(&'a Text),
}

/// What comes of an argument.
#[derive(Clone, Copy)]
pub enum Match<'a> {
    /// It fills the parameter with this index in the row of all parameters, of this type.
    Fills(usize, &'a Ty),
    /// It falls into `*` or `**`, of this type.
    Gathered(&'a Ty),
    /// No parameter is left for its place.
    TooMany,
    /// The parameter of its name is filled already.
    Repeated,
    /// There is no parameter of its name.
    Unexpected,
}

/// Which parameters are filled, by their indices in the row of all parameters.
#[derive(Drop)]
pub struct Fill {
    placed: Vec<usize>,
    named: Vec<usize>,
}

impl Fill {
    /// Before the first argument.
    pub fn new(alloc: Global) -> Fill
        ensures { fill_of result ≡ spec.nothing_filled }
    {
        Fill {
            placed: Vec::new(alloc),
            named: Vec::new(alloc),
        }
    }

    /// Takes one more argument, which came to this. The only error is that memory runs out.
    pub fn take(&mut self, given: Given<'_>, found: Match<'_>) -> Result<(), AllocError>
        ensures { OnOk result (fill_of self.new
            ≡ spec.fill_after (fill_of self.old) (given_in given.entry) (match_in found.entry)) }
    {
        match found {
            Match::Fills(index, _) => self.add(given, index),
            _ => Ok(()),
        }
    }

    /// Adds a parameter that an argument filled which is given in this way.
    fn add(&mut self, given: Given<'_>, index: usize) -> Result<(), AllocError>
        ensures { OnOk result (fill_of self.new ≡ spec.with_filled (fill_of self.old) (given_in given.entry) index) }
    {
        match given {
            Given::ByPlace => self.placed.push(index)?,
            Given::ByName(_) => self.named.push(index)?,
        }
        Ok(())
    }

    /// Whether the parameter with this index is filled.
    pub(crate) fn is_filled(&self, index: usize) -> bool
        ensures { result ≡ spec.is_filled (fill_of self.now) index }
    {
        contains(&self.placed, index) || contains(&self.named, index)
    }

    /// How many parameters are filled by place.
    pub(crate) fn places(&self) -> usize
        ensures { result ≡ length (fill_of self.now).placed }
    {
        self.placed.len()
    }
}

/// Whether an index is one of these.
fn contains(indices: &[usize], index: usize) -> bool
    ensures { result ≡ list_any (nat_eq index) indices.now }
{
    indices.iter().any(|other| index == *other)
}
