//! The places to which assignments assign.

ghost use Rattle.std.specs.Prelude.{◌≡◌, IfOk};
ghost use Rattle.pyc_ast.specs.TargetView.{target_of};
ghost use Rattle.pyc_places.specs.TargetPlaces as spec;

use crate::places::{Place, below, name_place, place_of};
use pyc_ast::{Target, TargetForm};
use std::alloc::{AllocError, Global};

/// The place that a target is: a name, or an attribute of a place; other targets are none. The only error is that
/// memory runs out.
pub fn target_place(alloc: Global, target: &Target) -> Result<Option<Place>, AllocError>
    ensures { IfOk result (λ place. place ≡ spec.target_place (target_of target.now)) }
{
    match &target.form {
        TargetForm::Name(name) => Ok(Some(name_place(alloc, name)?)),
        TargetForm::Attribute { value, name } => {
            let owner = place_of(alloc, value)?;
            Ok(below(owner, name)?)
        }
        _ => Ok(None),
    }
}
