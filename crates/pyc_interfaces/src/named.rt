//! What has a name, and may be one with another.

ghost use Rattle.std.specs.Prelude.{◌≡◌, ◌<◌, ℕ, Bool, List, IfSome, bytes_eq, length};
ghost use Rattle.std.specs.List.{position_from};
ghost use Rattle.pyc_bindings.specs.BindingView.{binding_of};
ghost use Rattle.pyc_interfaces.specs.SameInterfaces as spec;
ghost use Rattle.pyc_members.specs.AttributeView.{attribute_of};

use crate::same_bindings::same_binding;
use crate::same_classes::same_attribute;
use pyc_ast::Text;
use pyc_bindings::Binding;
use pyc_members::SelfAttribute;

/// What has a name.
pub(crate) trait Named {
    ghost name_in: { Self → List ℕ };

    ghost same: { Self → Self → Bool };

    /// Its name.
    fn name(&self) -> &Text
        ensures { result.now ≡ name_in self.now };

    /// Whether both are one without their positions.
    fn is_same(&self, other: &Self) -> bool
        ensures { result ≡ same self.now other.now };
}

impl Named for Binding {
    ghost name_in = { λ binding. binding.name };

    ghost same = { λ binding other. spec.same_binding (binding_of binding) (binding_of other) };

    fn name(&self) -> &Text {
        &self.name
    }

    fn is_same(&self, other: &Binding) -> bool {
        same_binding(self, other)
    }
}

impl Named for SelfAttribute {
    ghost name_in = { λ attribute. attribute.name };

    ghost same = { λ attribute other. spec.same_attribute (attribute_of attribute) (attribute_of other) };

    fn name(&self) -> &Text {
        &self.name
    }

    fn is_same(&self, other: &SelfAttribute) -> bool {
        same_attribute(self, other)
    }
}

/// The place of the first of these with a name.
pub(crate) fn place_of<T: Named>(name: &Text, items: &[T]) -> Option<usize>
    ensures first { result ≡ position_from (λ item. bytes_eq (T.name_in item) name.now) 0 items.now }
    ensures within { IfSome result (λ place. place < length items.now) }
{
    for i in 0..items.len() {
        if items[i].name() == name {
            return Some(i);
        }
    }
    None
}
