//! Which parameter an argument fills.

ghost use Rattle.std.specs.Prelude.{◌≡◌, Some, option_map};
ghost use Rattle.pyc_matching.specs.Matching as spec;
ghost use Rattle.pyc_matching.specs.Views.{fill_of, found_in, given_in, match_in};
ghost use Rattle.pyc_type_forms.specs.TypeView.{param_row};
ghost use Rattle.pyc_type_forms.specs.Types.{no_param};

use crate::lookup::{Found, find_plain_param, first_double_star, first_named, first_star};
use crate::{Fill, Given, Match};
use pyc_type_forms::Param;

/// What comes of an argument to these parameters, after those that filled so many. It takes no memory.
pub fn matched<'a>(fill: &Fill, params: &'a [Param], given: Given<'_>) -> Match<'a>
    ensures { match_in result ≡ spec.match_of (fill_of fill.now) (param_row params.now) (given_in given.entry) }
{
    match given {
        Given::ByPlace => placed_match(params, find_plain_param(params, fill.places())),
        Given::ByName(name) => named_match(fill, params, first_named(params, name)),
    }
}

/// What comes of an argument by place, where this is the next plain parameter.
fn placed_match<'a>(params: &'a [Param], next: Option<Found<'a>>) -> Match<'a>
    ensures { match_in result ≡ spec.placed_match (param_row params.now) (option_map found_in next.entry) }
{
    match next {
        Some(found) => Match::Fills(found.index, found.ty),
        None => gathered_or(Match::TooMany, first_star(params)),
    }
}

/// What comes of an argument by name, where this is the parameter of that name.
fn named_match<'a>(fill: &Fill, params: &'a [Param], named: Option<Found<'a>>) -> Match<'a>
    ensures { match_in result
        ≡ spec.named_match (fill_of fill.now) (param_row params.now) (option_map found_in named.entry) }
{
    match named {
        Some(found) => unless_filled(fill, found),
        None => gathered_or(Match::Unexpected, first_double_star(params)),
    }
}

/// What comes of an argument by the name of this parameter.
fn unless_filled<'a>(fill: &Fill, found: Found<'a>) -> Match<'a>
    ensures { match_in result
        ≡ spec.named_match (fill_of fill.now) no_param (Some (found_in found.entry)) }
{
    if fill.is_filled(found.index) {
        Match::Repeated
    } else {
        Match::Fills(found.index, found.ty)
    }
}

/// What comes of an argument that the parameter with `*` or `**` gathers, if there is one.
fn gathered_or<'a>(otherwise: Match<'a>, gathering: Option<Found<'a>>) -> Match<'a>
    ensures { match_in result ≡ spec.gathered_or (match_in otherwise.entry) (option_map found_in gathering.entry) }
{
    match gathering {
        Some(found) => Match::Gathered(found.ty),
        None => otherwise,
    }
}
