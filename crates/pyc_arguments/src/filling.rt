//! What the arguments of a call fill.

ghost use Rattle.std.specs.Prelude.{◌≡◌, OnOk, option_map};
ghost use Rattle.pyc_arguments.specs.Matched as spec;
ghost use Rattle.pyc_arguments.specs.Views.{filling_in};
ghost use Rattle.pyc_matching.specs.Views.{given_in, match_in};
ghost use Rattle.pyc_type_forms.specs.TypeView.{ty_of};

use pyc_matching::{Fill, Given, Match};
use pyc_type_forms::Ty;
use std::alloc::{AllocError, Global};

/// What arguments have filled: which parameters, and whether there were too many of them.
#[derive(Drop)]
pub(crate) struct Filling {
    pub(crate) fill: Fill,
    pub(crate) has_too_many: bool,
}

impl Filling {
    /// Before the first argument. It takes no memory.
    pub(crate) fn new(alloc: Global) -> Filling
        ensures { filling_in result ≡ spec.no_filling }
    {
        Filling {
            fill: Fill::new(alloc),
            has_too_many: false,
        }
    }

    /// Takes one more argument, which came to this. The only error is that memory runs out.
    pub(crate) fn take(&mut self, given: Given<'_>, found: Match<'_>) -> Result<(), AllocError>
        ensures { OnOk result (filling_in self.new
            ≡ spec.filling_after (filling_in self.old) (given_in given.entry) (match_in found.entry)) }
    {
        self.fill.take(given, found)?;
        self.has_too_many = self.has_too_many || is_too_many(found);
        Ok(())
    }
}

/// Whether no parameter is left for the place of an argument.
fn is_too_many(found: Match<'_>) -> bool
    ensures { result ≡ spec.is_too_many (match_in found.entry) }
{
    match found {
        Match::TooMany => true,
        _ => false,
    }
}

/// The type that is wanted of an argument: that of the parameter that it fills or that gathers it.
pub(crate) fn wanted<'a>(found: Match<'a>) -> Option<&'a Ty>
    ensures { option_map (λ ty. ty_of ty.now) result ≡ spec.wanted (match_in found.entry) }
{
    match found {
        Match::Fills(_, ty) => Some(ty),
        Match::Gathered(ty) => Some(ty),
        _ => None,
    }
}
