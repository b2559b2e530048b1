//! The places that targets assign.

ghost use Rattle.std.specs.Prelude.{◌≡◌, ◌++◌, map, OnOk};
ghost use Rattle.std.specs.List.{flat_map};
ghost use Rattle.pyc_ast.specs.Targets.{target_elements};
ghost use Rattle.pyc_ast.specs.TargetView.{target_element_of, target_of};
ghost use Rattle.pyc_locals.specs.AssignedPlaces as spec;
ghost use Rattle.pyc_places.specs.TargetPlaces as single;

use pyc_ast::{Target, TargetElement, TargetForm};
use pyc_places::{Place, target_place};
use std::alloc::{AllocError, Global};

/// Adds the places that targets assign.
pub(crate) fn push_targets(
    alloc: Global,
    targets: &[Target],
    places: &mut Vec<Place>,
) -> Result<(), AllocError>
    ensures { OnOk result (places.new.items
        ≡ places.old.items ++ flat_map spec.places_in (map target_of targets.now)) }
{
    for target in targets {
        push_target(alloc, target, places)?;
    }
    Ok(())
}

/// Adds the places that a target assigns: itself, or those of the targets to which a value is unpacked. The only error
/// is that memory runs out.
#[cycle(targets)]
pub fn push_target(
    alloc: Global,
    target: &Target,
    places: &mut Vec<Place>,
) -> Result<(), AllocError>
    ensures { OnOk result (places.new.items ≡ places.old.items ++ spec.places_in (target_of target.now)) }
{
    match &target.form {
        TargetForm::Unpacking(elements) => push_elements(alloc, elements, places),
        _ => push_single(alloc, target, places),
    }
}

/// Adds the places that the targets of an unpacking assign.
#[cycle(targets)]
fn push_elements(
    alloc: Global,
    elements: &[TargetElement],
    places: &mut Vec<Place>,
) -> Result<(), AllocError>
    ensures { OnOk result (places.new.items
        ≡ places.old.items ++ spec.elements_places (target_elements (map target_element_of elements.now))) }
{
    for element in elements {
        push_target(alloc, &element.target, places)?;
    }
    Ok(())
}

/// Adds the place that a target is, if it is one.
fn push_single(alloc: Global, target: &Target, places: &mut Vec<Place>) -> Result<(), AllocError>
    ensures { OnOk result (places.new.items
        ≡ places.old.items ++ spec.if_place (single.target_place (target_of target.now))) }
{
    match target_place(alloc, target)? {
        Some(place) => Ok(places.push(place)?),
        None => Ok(()),
    }
}
