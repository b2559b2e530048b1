//! Two unions against one another, each pair of their items walked once.
//!
//! A walk for each direction would take a time that doubles with each level of unions in lists.

ghost use Rattle.std.specs.Prelude.{◌≡◌, ◌≤◌, false, length, not, replicate};
ghost use Rattle.std.specs.List.{list_all};
ghost use Rattle.pyc_type_forms.specs.TypeView.{ty_of, row};
ghost use Rattle.pyc_types.specs.Assignable.{is_union};
ghost use Rattle.pyc_types.specs.Cross as spec;
ghost use Rattle.pyc_types.specs.Ways.{ways, ways_of};

use super::walk;
use crate::ways::Ways;
use pyc_class_ids::Lins;
use pyc_type_forms::Ty;

/// How many items the second of two small unions may have.
const FEW_CROSSED: usize = 64;

/// How many items the second union may have: no union that is formed has more.
const MOST_CROSSED: usize = 1000;

/// Whether two unions can be crossed: neither is empty nor has a union as an item, and the second has not too many.
#[tactic(auto, using(crate::proofs::CrossLemmas::rows))]
pub(super) fn is_crossable(items: &[Ty], others: &[Ty]) -> bool
    ensures { result ≡ spec.is_crossable (row items.now) (row others.now) }
{
    !items.is_empty()
        && !others.is_empty()
        && others.len() <= MOST_CROSSED
        && is_flat(items)
        && is_flat(others)
}

/// Whether no type of a row is a union.
fn is_flat(items: &[Ty]) -> bool
    ensures { result ≡ list_all (λ item. not (is_union (ty_of item))) items.now }
{
    items.iter().all(|item| !is_union(item))
}

/// Whether a type is a union.
fn is_union(ty: &Ty) -> bool
    ensures { result ≡ is_union (ty_of ty.now) }
{
    matches!(ty, Ty::Union(_))
}

/// The ways between two unions of these items: each item there to some of the others, each of those back to some item.
#[cycle(walk)]
pub(super) fn cross_ways<L: Lins>(lins: &L, items: &[Ty], others: &[Ty]) -> Ways
    requires { length others.now ≤ 1000 }
    ensures { result ≡ spec.cross_ways (ways_of (L.orders lins.now) (row items.now)) (row others.now) }
{
    if others.len() <= FEW_CROSSED {
        cross_few(lins, items, others)
    } else {
        cross_many(lins, items, others)
    }
}

/// The ways between two unions, of which the second has few items: most unions are small, and stand in one another.
#[cycle(walk)]
#[inline(never)]
fn cross_few<L: Lins>(lins: &L, items: &[Ty], others: &[Ty]) -> Ways
    requires { length others.now ≤ 64 }
    ensures { result ≡ spec.cross_ways (ways_of (L.orders lins.now) (row items.now)) (row others.now) }
{
    let mut reached = [false; FEW_CROSSED];
    cross_marked(lins, items, others, &mut reached)
}

/// The ways between two unions, of which the second has any number of items that a formed one has.
#[cycle(walk)]
#[inline(never)]
fn cross_many<L: Lins>(lins: &L, items: &[Ty], others: &[Ty]) -> Ways
    requires { length others.now ≤ 1000 }
    ensures { result ≡ spec.cross_ways (ways_of (L.orders lins.now) (row items.now)) (row others.now) }
{
    let mut reached = [false; MOST_CROSSED];
    cross_marked(lins, items, others, &mut reached)
}

/// The ways between two unions, with marks for the items of the second that are reached: none as yet.
#[cycle(walk)]
#[tactic(auto, using(crate::proofs::CrossLemmas::crosses))]
fn cross_marked<L: Lins>(lins: &L, items: &[Ty], others: &[Ty], reached: &mut [bool]) -> Ways
    requires marks { length others.now ≤ length reached.old }
    requires unmarked { reached.old ≡ replicate (length reached.old) false }
    ensures { result ≡ spec.cross_ways (ways_of (L.orders lins.now) (row items.now)) (row others.now) }
{
    let mut there = true;
    for item in items {
        let goes = cross_row(lins, item, others, reached);
        there = there && goes;
    }
    Ways {
        there,
        back: is_all_reached(&reached[..others.len()]),
    }
}

/// Whether a type goes to some of these, each of which is marked as reached where it goes to the type.
#[cycle(walk)]
#[tactic(auto, using(crate::proofs::CrossLemmas::crosses))]
fn cross_row<L: Lins>(lins: &L, item: &Ty, others: &[Ty], reached: &mut [bool]) -> bool
    requires { length others.now ≤ length reached.old }
    ensures goes { result ≡ spec.goes_to_some (ways (L.orders lins.now) (ty_of item.now)) (row others.now) }
    ensures reached { reached.new ≡ spec.reach (ways (L.orders lins.now) (ty_of item.now)) (row others.now)
        reached.old }
{
    let mut goes = false;
    for i in 0..others.len() {
        let ways = walk(lins, item, &others[i]);
        goes = goes || ways.there;
        reached[i] = reached[i] || ways.back;
    }
    goes
}

/// Whether all are marked.
fn is_all_reached(marks: &[bool]) -> bool
    ensures { result ≡ list_all (λ mark. mark) marks.now }
{
    marks.iter().all(|mark| *mark)
}
