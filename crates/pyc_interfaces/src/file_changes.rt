//! What differs between two files of a module.

ghost use Rattle.std.specs.Prelude.{◌≡◌, map, flat_map, OnOk};
ghost use Rattle.pyc_interfaces.specs.ChangedLooks as spec;
ghost use Rattle.pyc_members.specs.DeclaredClassView.{declared_class_in};
ghost use Rattle.pyc_names.specs.InterfaceView.{interface_in};
ghost use Rattle.pyc_names.specs.NotedLooks.{with_looks};
ghost use Rattle.pyc_names.specs.NotedLooksView.{noted_in};

use crate::class_changes::{ClassRows, note_class};
use crate::home::Home;
use crate::sameness::same_interface;
use pyc_members::DeclaredClass;
use pyc_names::{Interface, Looks, ModuleName, fixed_module};
use std::alloc::AllocError;
use std::rc::Rc;

/// A file of a module, and a later one.
#[derive(Clone, Copy, Drop)]
pub(crate) struct FilePair<'a> {
    pub(crate) module: &'a ModuleName,
    pub(crate) old: &'a Interface,
    pub(crate) new: &'a Interface,
}

impl FilePair<'_> {
    /// Notes what differs. The only error is that memory runs out.
    #[tactic(auto, using(pyc_names::proofs::NotedLemmas::noting))]
    pub(crate) fn note_changes(&self, looks: &mut Looks) -> Result<(), AllocError>
        ensures { OnOk result (noted_in looks.new ≡ with_looks (noted_in looks.old)
            (spec.file_changes self.now.module.now (interface_in self.now.old.now)
            (interface_in self.now.new.now))) }
    {
        self.note_names(looks)?;
        self.classes().note_changes(looks)?;
        self.note_module(looks)
    }

    /// The classes of both.
    fn classes(&self) -> ClassRows<'_>
        ensures module { result.module.now ≡ self.now.module.now }
        ensures old { map declared_class_in result.old.now ≡ (interface_in self.now.old.now).classes }
        ensures new { map declared_class_in result.new.now ≡ (interface_in self.now.new.now).classes }
    {
        ClassRows {
            module: self.module,
            old: self.old.classes(),
            new: self.new.classes(),
        }
    }

    /// Notes the names that differ: where one is a package, a stub or has a fault and the other not, all of both.
    #[tactic(auto, using(pyc_names::proofs::NotedLemmas::noting))]
    fn note_names(&self, looks: &mut Looks) -> Result<(), AllocError>
        ensures { OnOk result (noted_in looks.new ≡ with_looks (noted_in looks.old)
            (spec.name_changes self.now.module.now (interface_in self.now.old.now)
            (interface_in self.now.new.now))) }
    {
        if self.has_same_head() {
            let home = Home::Module(self.module);
            return home.note_binding_changes(self.old.bindings(), self.new.bindings(), looks);
        }
        note_names(self.module, self.old, looks)?;
        note_names(self.module, self.new, looks)
    }

    /// Notes the module, unless both are the same for those that look at it.
    #[tactic(auto, using(pyc_names::proofs::NotedLemmas::noting))]
    fn note_module(&self, looks: &mut Looks) -> Result<(), AllocError>
        ensures { OnOk result (noted_in looks.new ≡ with_looks (noted_in looks.old)
            (spec.module_change self.now.module.now (interface_in self.now.old.now)
            (interface_in self.now.new.now))) }
    {
        if self.is_same_as_module() {
            return Ok(());
        }
        looks.note_module(self.module.parts())
    }

    /// Whether both count alike but for what they bind and declare.
    fn has_same_head(&self) -> bool
        ensures { result ≡ spec.same_head (interface_in self.now.old.now) (interface_in self.now.new.now) }
    {
        self.old.is_package() == self.new.is_package()
            && self.old.is_stub() == self.new.is_stub()
            && self.old.has_fault() == self.new.has_fault()
    }

    /// Whether both are the same for those that look at the module.
    fn is_same_as_module(&self) -> bool
        ensures { result ≡ spec.same_as_module self.now.module.now (interface_in self.now.old.now)
            (interface_in self.now.new.now) }
    {
        self.old.has_fault() == self.new.has_fault()
            && (fixed_module(self.module.parts()).is_none() || same_interface(self.old, self.new))
    }
}

/// Notes all names that a file of a module binds. The only error is that memory runs out.
pub(crate) fn note_names(
    module: &ModuleName,
    file: &Interface,
    looks: &mut Looks,
) -> Result<(), AllocError>
    ensures { OnOk result (noted_in looks.new ≡ with_looks (noted_in looks.old)
        (spec.name_looks module.now (interface_in file.now))) }
{
    Home::Module(module).note_bindings(file.bindings(), looks)
}

/// Notes all that these classes of a module have of their own. The only error is that memory runs out.
pub(crate) fn note_classes(
    module: &ModuleName,
    classes: &[Rc<DeclaredClass>],
    looks: &mut Looks,
) -> Result<(), AllocError>
    ensures { OnOk result (noted_in looks.new ≡ with_looks (noted_in looks.old)
        (flat_map (spec.class_looks module.now) (map declared_class_in classes.now))) }
{
    for class in classes {
        note_class(module, class, looks)?;
    }
    Ok(())
}
