//! When two interfaces are the same.

ghost use Rattle.std.specs.Prelude.{◌≡◌, IsTrue};
ghost use Rattle.pyc_interfaces.specs.BareInterfaces.{bare_interface};
ghost use Rattle.pyc_interfaces.specs.SameInterfaces as spec;
ghost use Rattle.pyc_names.specs.InterfaceView.{interface_in};

use crate::same_bindings::same_bindings;
use crate::same_classes::same_classes;
use pyc_names::Interface;

/// Whether two interfaces are the same but for positions. It says no where an annotation, a base or a decorator
/// has a form that these seldom have. It takes no memory.
pub fn same_interface(a: &Interface, b: &Interface) -> bool
    ensures value { result ≡ spec.same_interface (interface_in a.now) (interface_in b.now) }
    ensures alike { IsTrue result → bare_interface (interface_in a.now) ≡ bare_interface (interface_in b.now) }
{
    is_same(a, b)
}

/// Whether two interfaces are the same.
#[tactic(auto, unfolding(crate::specs::SameInterfaces::same_interface))]
fn is_same(a: &Interface, b: &Interface) -> bool
    ensures { result ≡ spec.same_interface (interface_in a.now) (interface_in b.now) }
{
    a.name() == b.name()
        && a.is_package() == b.is_package()
        && a.is_stub() == b.is_stub()
        && a.has_fault() == b.has_fault()
        && same_bindings(a.bindings(), b.bindings())
        && same_classes(a.classes(), b.classes())
}
