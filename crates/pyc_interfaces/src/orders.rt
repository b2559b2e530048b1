//! What differs in the orders of classes.

ghost use Rattle.std.specs.Prelude.{◌≡◌, IfOk, OnOk, flat_map, map};
ghost use Rattle.pyc_class_ids.specs.Mro.{order_of};
ghost use Rattle.pyc_iface.specs.PlainWorldView.{world_in};
ghost use Rattle.pyc_interfaces.specs.ChangedLooks as spec;
ghost use Rattle.pyc_members.specs.DeclaredClassView.{declared_class_in};
ghost use Rattle.pyc_names.specs.InterfaceView.{interface_in, interfaces_in};
ghost use Rattle.pyc_names.specs.NotedLooks.{with_looks};
ghost use Rattle.pyc_names.specs.NotedLooksView.{noted_in};

use pyc_ast::Text;
use pyc_class_ids::{ClassId, Lin, Lins, UnknownMro};
use pyc_iface::PlainWorld;
use pyc_members::DeclaredClass;
use pyc_names::{Interface, Looks, ModuleName};
use std::alloc::{AllocError, Global};
use std::rc::Rc;

/// A world, and a later one.
#[derive(Clone, Copy, Drop)]
pub(crate) struct Worlds<'a> {
    pub(crate) old: &'a PlainWorld,
    pub(crate) new: &'a PlainWorld,
}

impl Worlds<'_> {
    /// Notes what differs in the orders of the classes that these files declare. The only error is that memory runs
    /// out.
    pub(crate) fn note_orders(
        &self,
        alloc: Global,
        files: &[Rc<Interface>],
        looks: &mut Looks,
    ) -> Result<(), AllocError>
        ensures { OnOk result (noted_in looks.new ≡ with_looks (noted_in looks.old)
            (flat_map (spec.order_changes (world_in self.now.old.now) (world_in self.now.new.now))
            (interfaces_in files.now))) }
    {
        for file in files {
            self.note_orders_of(alloc, file, looks)?;
        }
        Ok(())
    }

    /// Notes what differs in the orders of the classes that a file declares.
    fn note_orders_of(
        &self,
        alloc: Global,
        file: &Interface,
        looks: &mut Looks,
    ) -> Result<(), AllocError>
        ensures { OnOk result (noted_in looks.new ≡ with_looks (noted_in looks.old)
            (spec.order_changes (world_in self.now.old.now) (world_in self.now.new.now) (interface_in file.now))) }
    {
        self.note_class_orders(alloc, file.name(), file.classes(), looks)
    }

    /// Notes what differs in the orders of these classes of a module.
    fn note_class_orders(
        &self,
        alloc: Global,
        module: &ModuleName,
        classes: &[Rc<DeclaredClass>],
        looks: &mut Looks,
    ) -> Result<(), AllocError>
        ensures { OnOk result (noted_in looks.new ≡ with_looks (noted_in looks.old)
            (flat_map (λ class. spec.order_change (world_in self.now.old.now) (world_in self.now.new.now) module.now
            class.name) (map declared_class_in classes.now))) }
    {
        for class in classes {
            self.note_order(alloc, module, &class.name, looks)?;
        }
        Ok(())
    }

    /// Notes the order of the class of this name of a module, where it differs.
    #[tactic(auto, using(pyc_names::proofs::NotedLemmas::noting))]
    fn note_order(
        &self,
        alloc: Global,
        module: &ModuleName,
        name: &Text,
        looks: &mut Looks,
    ) -> Result<(), AllocError>
        ensures { OnOk result (noted_in looks.new ≡ with_looks (noted_in looks.old)
            (spec.order_change (world_in self.now.old.now) (world_in self.now.new.now) module.now name.now)) }
    {
        let class = ClassId::user(alloc, copy_parts(alloc, module.parts())?, name.clone()?)?;
        if same_order(self.old.lin(&class), self.new.lin(&class)) {
            return Ok(());
        }
        looks.note_order(module.parts(), name.as_str())
    }
}

/// A copy of the parts of a module's name, which shares them.
fn copy_parts(alloc: Global, parts: &[Text]) -> Result<Vec<Text>, AllocError>
    ensures { IfOk result (λ copy. copy.items ≡ parts.now) }
{
    let mut copy = Vec::with_capacity(alloc, parts.len())?;
    for part in parts {
        copy.push(part.clone()?)?;
    }
    Ok(copy)
}

/// Whether two orders are one.
fn same_order(order: Lin<'_>, other: Lin<'_>) -> bool
    ensures { result ≡ spec.same_order (order_of order.entry) (order_of other.entry) }
{
    order.classes == other.classes
        && same_reason(order.unknown, other.unknown)
        && order.has_call == other.has_call
}

/// Whether both orders are known, or neither for one reason.
fn same_reason(reason: Option<UnknownMro>, other: Option<UnknownMro>) -> bool
    ensures { result ≡ spec.same_reason reason other }
{
    match reason {
        None => matches!(other, None),
        Some(UnknownMro::Base) => matches!(other, Some(UnknownMro::Base)),
        Some(UnknownMro::Cycle) => matches!(other, Some(UnknownMro::Cycle)),
        Some(UnknownMro::Merge) => matches!(other, Some(UnknownMro::Merge)),
    }
}
