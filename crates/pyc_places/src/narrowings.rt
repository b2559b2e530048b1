//! Places that are narrowed.

ghost use Rattle.std.specs.Prelude.{◌≡◌, ◌++◌, ◌∷◌, [], true, not, filter, map, IfOk, option_map};
ghost use Rattle.pyc_ast.specs.ExprView.{expr_of};
ghost use Rattle.pyc_places.specs.NarrowingView.{narrowing_of};
ghost use Rattle.pyc_places.specs.Once.{are_once};
ghost use Rattle.pyc_places.specs.Places as places;
ghost use Rattle.pyc_places.specs.States as spec;
ghost use Rattle.pyc_type_forms.specs.TypeView.{ty_of};

use crate::places::{Place, is_at_or_below, is_place};
use pyc_ast::Expr;
use pyc_type_forms::Ty;
use std::alloc::{AllocError, Global};
use std::rc::Rc;

/// A place and the type to which it is narrowed.
#[derive(Debug, Drop)]
pub struct Narrowing {
    pub place: Place,
    pub ty: Ty,
}

/// Places that are narrowed, each once. They are shared, so that a copy costs a reference count for each.
#[derive(Debug)]
pub struct Narrowings {
    pub(crate) items: Vec<Rc<Narrowing>>,
    ghost once: { are_once (map (λ n. narrowing_of n.value) items.items) ≡ true },
}

/// Written out: the crates above call it, where what `derive` writes would be made and proved in each of them.
impl Drop for Narrowings {
    fn drop(self) {
        let Narrowings { items } = self;
        drop(items);
    }
}

impl Clone for Narrowings {
    ghost use Rattle.pyc_places.specs.StateView.{narrowings_in};

    ghost is_clone = { λ narrowings copy. narrowings_in copy ≡ narrowings_in narrowings };

    /// A clone shares the narrowings. The only error is that memory runs out.
    fn clone(&self) -> Result<Narrowings, AllocError> {
        let items = self.items.clone()?;
        Ok(Narrowings { items })
    }
}

impl Narrowings {
    ghost use Rattle.pyc_places.specs.StateView.{narrowings_in};

    /// No place is narrowed. It takes no memory.
    pub(crate) fn none(alloc: Global) -> Narrowings
        ensures { spec.reachable (narrowings_in result) ≡ spec.nothing_narrowed }
    {
        Narrowings {
            items: Vec::new(alloc),
        }
    }

    /// These, and a place that has this type; what was known of it is not.
    pub(crate) fn with(&self, alloc: Global, place: Place, ty: Ty) -> Result<Narrowings, AllocError>
        ensures { IfOk result (λ after. spec.reachable (narrowings_in after)
            ≡ spec.with_place place (ty_of ty) (spec.reachable (narrowings_in self.now))) }
    {
        let items = with_narrowing(alloc, &self.items, place, ty)?;
        Ok(Narrowings { items })
    }

    /// These without those of a place and of all below it.
    pub(crate) fn outside(&self, alloc: Global, place: &Place) -> Result<Narrowings, AllocError>
        ensures { IfOk result (λ kept. narrowings_in kept
            ≡ filter (λ n. not (places.is_at_or_below place.now n.place)) (narrowings_in self.now)) }
    {
        let items = outside_place(alloc, &self.items, place)?;
        Ok(Narrowings { items })
    }

    /// These without those of some places and of all below them.
    pub(crate) fn outside_all(
        &self,
        alloc: Global,
        places: &[Place],
    ) -> Result<Narrowings, AllocError>
        ensures { IfOk result (λ kept. narrowings_in kept
            ≡ filter (λ n. not (spec.is_among places.now n.place)) (narrowings_in self.now)) }
    {
        let items = outside_places(alloc, &self.items, places)?;
        Ok(Narrowings { items })
    }
}

/// The type of the first of some narrowings of a place.
pub(crate) fn type_of<'a>(narrowings: &'a [Rc<Narrowing>], place: &Place) -> Option<&'a Ty>
    ensures { option_map (λ ty. ty_of ty.now) result
        ≡ spec.type_of (map (λ n. narrowing_of n.value) narrowings.now) place.now }
{
    for narrowing in narrowings {
        if narrowing.place == *place {
            return Some(&narrowing.ty);
        }
    }
    None
}

/// The type of the first of some narrowings of the place that `e` is; none where `e` is no place.
pub(crate) fn type_at<'a>(narrowings: &'a [Rc<Narrowing>], e: &Expr) -> Option<&'a Ty>
    ensures { option_map (λ ty. ty_of ty.now) result
        ≡ spec.type_of_place (map (λ n. narrowing_of n.value) narrowings.now) (places.place_of (expr_of e.now)) }
{
    for narrowing in narrowings {
        if is_place(&narrowing.place, e) {
            return Some(&narrowing.ty);
        }
    }
    None
}

/// Some narrowings and one more, without those of its place.
fn with_narrowing(
    alloc: Global,
    narrowings: &[Rc<Narrowing>],
    place: Place,
    ty: Ty,
) -> Result<Vec<Rc<Narrowing>>, AllocError>
    ensures { IfOk result (λ items. map (λ n. narrowing_of n.value) items.items
        ≡ spec.without_place place (map (λ n. narrowing_of n.value) narrowings.now)
        ++ (record { place = place; ty = ty_of ty } ∷ [])) }
{
    let mut items = without_place(alloc, narrowings, &place)?;
    items.push(Rc::new(alloc, Narrowing { place, ty })?)?;
    Ok(items)
}

/// Some narrowings without those of a place.
fn without_place(
    alloc: Global,
    narrowings: &[Rc<Narrowing>],
    place: &Place,
) -> Result<Vec<Rc<Narrowing>>, AllocError>
    ensures { IfOk result (λ kept. map (λ n. narrowing_of n.value) kept.items
        ≡ spec.without_place place.now (map (λ n. narrowing_of n.value) narrowings.now)) }
{
    let mut kept = Vec::new(alloc);
    for narrowing in narrowings {
        if narrowing.place != *place {
            kept.push(narrowing.clone()?)?;
        }
    }
    Ok(kept)
}

/// Some narrowings without those of a place and of all below it.
fn outside_place(
    alloc: Global,
    narrowings: &[Rc<Narrowing>],
    place: &Place,
) -> Result<Vec<Rc<Narrowing>>, AllocError>
    ensures { IfOk result (λ kept. map (λ n. narrowing_of n.value) kept.items
        ≡ filter (λ n. not (places.is_at_or_below place.now n.place))
        (map (λ n. narrowing_of n.value) narrowings.now)) }
{
    let mut kept = Vec::new(alloc);
    for narrowing in narrowings {
        if !is_at_or_below(place, &narrowing.place) {
            kept.push(narrowing.clone()?)?;
        }
    }
    Ok(kept)
}

/// Some narrowings without those of places and of all below them.
fn outside_places(
    alloc: Global,
    narrowings: &[Rc<Narrowing>],
    places: &[Place],
) -> Result<Vec<Rc<Narrowing>>, AllocError>
    ensures { IfOk result (λ kept. map (λ n. narrowing_of n.value) kept.items
        ≡ filter (λ n. not (spec.is_among places.now n.place)) (map (λ n. narrowing_of n.value) narrowings.now)) }
{
    let mut kept = Vec::new(alloc);
    for narrowing in narrowings {
        if !is_among(places, &narrowing.place) {
            kept.push(narrowing.clone()?)?;
        }
    }
    Ok(kept)
}

/// Whether a place is one of some places, or below one.
fn is_among(places: &[Place], place: &Place) -> bool
    ensures { result ≡ spec.is_among places.now place.now }
{
    for upper in places {
        if is_at_or_below(upper, place) {
            return true;
        }
    }
    false
}
