//! The first binding of each name.

ghost use Rattle.std.specs.Prelude.{◌≡◌, ℕ, List, bytes_eq, map, take, IfOk, option_map};
ghost use Rattle.indexmap.specs.IndexMap.{get_by};
ghost use Rattle.pyc_bindings.specs.BindingView.{binding_of};
ghost use Rattle.pyc_bindings.specs.FirstBindings as spec;
ghost use Rattle.pyc_bindings.specs.Redefinitions.{declaration};

use crate::binding::Binding;
use indexmap::IndexMap;
use pyc_ast::Text;
use std::alloc::{AllocError, Global};

/// The place of the first binding of each name among bindings. The only error is that memory runs out.
pub fn first_places(
    alloc: Global,
    bindings: &[Binding],
) -> Result<IndexMap<Text, usize>, AllocError>
    ensures { IfOk result (λ places. (n : List ℕ) → get_by (bytes_eq n) places
        ≡ spec.declaration_place (map binding_of bindings.now) n) }
{
    let mut places = IndexMap::new(alloc);
    let mut left = bindings.len();
    while left > 0 {
        left -= 1;
        places.insert(bindings[left].name.clone()?, left)?;
    }
    Ok(places)
}

/// The declaration of a name among bindings whose first places these are. It takes no memory.
pub fn declaration_at<'a>(
    places: &IndexMap<Text, usize>,
    bindings: &'a [Binding],
    name: &Text,
) -> Option<&'a Binding>
    requires { (n : List ℕ) → get_by (bytes_eq n) places.now
        ≡ spec.declaration_place (map binding_of bindings.now) n }
    ensures { option_map (λ found. binding_of found.now) result
        ≡ declaration (map binding_of bindings.now) name.now }
{
    match places.get(name) {
        Some(place) => Some(&bindings[*place]),
        None => None,
    }
}

/// The declaration of a name among so many of the first of bindings, where the first places among all of them are
/// these. It takes no memory.
pub fn declaration_before<'a>(
    places: &IndexMap<Text, usize>,
    bindings: &'a [Binding],
    count: usize,
    name: &Text,
) -> Option<&'a Binding>
    requires { (n : List ℕ) → get_by (bytes_eq n) places.now
        ≡ spec.declaration_place (map binding_of bindings.now) n }
    ensures { option_map (λ found. binding_of found.now) result
        ≡ declaration (take count (map binding_of bindings.now)) name.now }
{
    match places.get(name) {
        Some(place) if *place < count => Some(&bindings[*place]),
        _ => None,
    }
}
