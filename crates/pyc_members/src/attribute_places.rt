//! Where the first attribute of each name stands.

ghost use Rattle.std.specs.Prelude.{◌≡◌, ℕ, List, bytes_eq, map, IfOk, option_map};
ghost use Rattle.indexmap.specs.IndexMap.{get_by};
ghost use Rattle.pyc_members.specs.AttributePlaces as spec;
ghost use Rattle.pyc_members.specs.AttributeView.{attribute_of, attribute_form_of};

use crate::attribute::{AttributeForm, SelfAttribute};
use indexmap::IndexMap;
use pyc_ast::Text;
use std::alloc::{AllocError, Global};

/// The place of the first of each name among the attributes that are annotated, or among those that are not. The only
/// error is that memory runs out.
pub(crate) fn attribute_places(
    alloc: Global,
    attributes: &[SelfAttribute],
    are_annotated: bool,
) -> Result<IndexMap<Text, usize>, AllocError>
    ensures { IfOk result (λ places. (n : List ℕ) → get_by (bytes_eq n) places
        ≡ spec.attribute_place are_annotated (map attribute_of attributes.now) n) }
{
    let mut places = IndexMap::new(alloc);
    let mut left = attributes.len();
    while left > 0 {
        left -= 1;
        let attribute = &attributes[left];
        if is_of_kind(are_annotated, &attribute.form) {
            places.insert(attribute.name.clone()?, left)?;
        }
    }
    Ok(places)
}

/// The first of a name among the attributes that are annotated, or among those that are not, whose places these are. It
/// takes no memory.
pub(crate) fn attribute_at<'a>(
    places: &IndexMap<Text, usize>,
    attributes: &'a [SelfAttribute],
    are_annotated: bool,
    name: &Text,
) -> Option<&'a SelfAttribute>
    requires { (n : List ℕ) → get_by (bytes_eq n) places.now
        ≡ spec.attribute_place are_annotated (map attribute_of attributes.now) n }
    ensures { option_map (λ found. attribute_of found.now) result
        ≡ spec.first_attribute are_annotated (map attribute_of attributes.now) name.now }
{
    match places.get(name) {
        Some(place) => Some(&attributes[*place]),
        None => None,
    }
}

/// Whether an attribute of this form is annotated, or whether it is not.
fn is_of_kind(are_annotated: bool, form: &AttributeForm) -> bool
    ensures { result ≡ spec.is_of_kind are_annotated (attribute_form_of form.now) }
{
    let is_annotated = matches!(form, AttributeForm::Annotated(_));
    if are_annotated {
        is_annotated
    } else {
        !is_annotated
    }
}
