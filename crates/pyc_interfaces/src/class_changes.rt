//! What differs between the classes of two files of a module.

ghost use Rattle.std.specs.Prelude.{◌≡◌, flat_map, map, OnOk, option_map};
ghost use Rattle.pyc_iface.specs.Members as members;
ghost use Rattle.pyc_interfaces.specs.ChangedLooks as spec;
ghost use Rattle.pyc_members.specs.DeclaredClassView.{declared_class_in, declared_class_of};
ghost use Rattle.pyc_names.specs.NotedLooks.{with_looks};
ghost use Rattle.pyc_names.specs.NotedLooksView.{noted_in};

use crate::home::Home;
use pyc_ast::Text;
use pyc_members::DeclaredClass;
use pyc_names::{Looks, ModuleName};
use std::alloc::AllocError;
use std::rc::Rc;

/// The classes of a file of a module, and those of a later one.
#[derive(Clone, Copy, Drop)]
pub(crate) struct ClassRows<'a> {
    pub(crate) module: &'a ModuleName,
    pub(crate) old: &'a [Rc<DeclaredClass>],
    pub(crate) new: &'a [Rc<DeclaredClass>],
}

impl ClassRows<'_> {
    /// Notes what differs. The only error is that memory runs out.
    #[tactic(auto, using(pyc_names::proofs::NotedLemmas::noting))]
    pub(crate) fn note_changes(&self, looks: &mut Looks) -> Result<(), AllocError>
        ensures { OnOk result (noted_in looks.new ≡ with_looks (noted_in looks.old)
            (spec.classes_changes self.now.module.now (map declared_class_in self.now.old.now)
            (map declared_class_in self.now.new.now))) }
    {
        self.note_old(looks)?;
        self.note_added(looks)
    }

    /// Notes what differs in each old class.
    fn note_old(&self, looks: &mut Looks) -> Result<(), AllocError>
        ensures { OnOk result (noted_in looks.new ≡ with_looks (noted_in looks.old)
            (flat_map (λ class. spec.class_changes self.now.module.now class
            (members.class_named (map declared_class_in self.now.new.now) class.name))
            (map declared_class_in self.now.old.now))) }
    {
        for class in self.old {
            self.note_changes_of(class, looks)?;
        }
        Ok(())
    }

    /// Notes what differs between an old class and the later one of its name, if there is one.
    fn note_changes_of(&self, class: &DeclaredClass, looks: &mut Looks) -> Result<(), AllocError>
        ensures { OnOk result (noted_in looks.new ≡ with_looks (noted_in looks.old)
            (spec.class_changes self.now.module.now (declared_class_of class.now)
            (members.class_named (map declared_class_in self.now.new.now) class.now.name))) }
    {
        match class_named(self.new, &class.name) {
            Some(later) => note_body_changes(self.module, class, later, looks),
            None => note_class(self.module, class, looks),
        }
    }

    /// Notes all of each class that has no old one of its name.
    fn note_added(&self, looks: &mut Looks) -> Result<(), AllocError>
        ensures { OnOk result (noted_in looks.new ≡ with_looks (noted_in looks.old)
            (flat_map (λ class. spec.unless_named (map declared_class_in self.now.old.now) class.name
            (spec.class_looks self.now.module.now class)) (map declared_class_in self.now.new.now))) }
    {
        for class in self.new {
            self.note_if_added(class, looks)?;
        }
        Ok(())
    }

    /// Notes all of a class, unless there is an old one of its name.
    #[tactic(auto, using(pyc_names::proofs::NotedLemmas::noting))]
    fn note_if_added(&self, class: &DeclaredClass, looks: &mut Looks) -> Result<(), AllocError>
        ensures { OnOk result (noted_in looks.new ≡ with_looks (noted_in looks.old)
            (spec.unless_named (map declared_class_in self.now.old.now) class.now.name
            (spec.class_looks self.now.module.now (declared_class_of class.now)))) }
    {
        if class_named(self.old, &class.name).is_some() {
            return Ok(());
        }
        note_class(self.module, class, looks)
    }
}

/// The first of these classes with a name.
pub(crate) fn class_named<'a>(
    classes: &'a [Rc<DeclaredClass>],
    name: &Text,
) -> Option<&'a DeclaredClass>
    ensures { option_map (λ class. declared_class_of class.now) result
        ≡ members.class_named (map declared_class_in classes.now) name.now }
{
    for class in classes {
        if class.name == *name {
            return Some(class);
        }
    }
    None
}

/// Notes what differs between a class of a module and another one of its name.
fn note_body_changes(
    module: &ModuleName,
    class: &DeclaredClass,
    other: &DeclaredClass,
    looks: &mut Looks,
) -> Result<(), AllocError>
    ensures { OnOk result (noted_in looks.new ≡ with_looks (noted_in looks.old)
        (spec.body_changes (spec.class_name module.now (declared_class_of class.now))
        (declared_class_of class.now).body (declared_class_of other.now).body)) }
{
    let home = Home::Class(module, &class.name);
    home.note_binding_changes(&class.body.bindings, &other.body.bindings, looks)?;
    home.note_attribute_changes(&class.body.attributes, &other.body.attributes, looks)?;
    Ok(())
}

/// Notes all that a class of a module has of its own.
pub(crate) fn note_class(
    module: &ModuleName,
    class: &DeclaredClass,
    looks: &mut Looks,
) -> Result<(), AllocError>
    ensures { OnOk result (noted_in looks.new ≡ with_looks (noted_in looks.old)
        (spec.class_looks module.now (declared_class_of class.now))) }
{
    let home = Home::Class(module, &class.name);
    home.note_bindings(&class.body.bindings, looks)?;
    home.note_attributes(&class.body.attributes, looks)?;
    Ok(())
}
