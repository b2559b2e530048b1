//! Types without repeats.

ghost use Rattle.std.specs.Prelude.{◌≡◌, ◌++◌, ◌∷◌, [], IfOk, OnOk, map};
ghost use Rattle.pyc_type_forms.specs.Distinct.{AreClasses};
ghost use Rattle.pyc_type_forms.specs.Types.{instance};
ghost use Rattle.pyc_type_forms.specs.TypeView.{ty_of};
ghost use Rattle.pyc_type_forms.specs.Unions as spec;

use crate::Ty;
use crate::unions::{add_if_new, add_new};
use indexmap::IndexSet;
use pyc_class_ids::ClassId;
use std::alloc::{AllocError, Global};

/// So many types are compared with one another; among more, the class of an instance is looked up.
const FEW: usize = 16;

/// Some types without repeats, in the order in which they are first seen. The only error is that memory runs out.
pub(crate) fn without_repeats(alloc: Global, types: &[Ty]) -> Result<Vec<Ty>, AllocError>
    ensures { IfOk result (λ kept. map ty_of kept.items ≡ spec.with_items [] (map ty_of types.now)) }
{
    if types.len() <= FEW {
        compared(alloc, types)
    } else {
        looked_up(alloc, types)
    }
}

/// Some types without repeats, each compared with those before it.
fn compared(alloc: Global, types: &[Ty]) -> Result<Vec<Ty>, AllocError>
    ensures { IfOk result (λ kept. map ty_of kept.items ≡ spec.with_items [] (map ty_of types.now)) }
{
    let mut kept = Vec::new(alloc);
    add_new(&mut kept, types)?;
    Ok(kept)
}

/// Some types without repeats, where the classes of the instances are looked up.
fn looked_up(alloc: Global, types: &[Ty]) -> Result<Vec<Ty>, AllocError>
    ensures { IfOk result (λ kept. map ty_of kept.items ≡ spec.with_items [] (map ty_of types.now)) }
{
    let mut kept = Vec::new(alloc);
    let mut classes = IndexSet::new(alloc);
    for ty in types {
        add_if_unknown(&mut kept, &mut classes, ty)?;
    }
    Ok(kept)
}

/// Adds a type, unless it is there. The classes are those of the instances.
fn add_if_unknown(
    kept: &mut Vec<Ty>,
    classes: &mut IndexSet<ClassId>,
    ty: &Ty,
) -> Result<(), AllocError>
    requires { AreClasses classes.old (map ty_of kept.old.items) }
    ensures kept { OnOk result (map ty_of kept.new.items ≡ spec.with_item (map ty_of kept.old.items) (ty_of ty.now)) }
    ensures classes { OnOk result (AreClasses classes.new (map ty_of kept.new.items)) }
{
    match ty {
        Ty::Instance(class) => add_instance_if_unknown(kept, classes, class),
        _ => {
            add_if_new(kept, ty)?;
            Ok(())
        }
    }
}

/// Adds the instances of a class, unless they are there.
fn add_instance_if_unknown(
    kept: &mut Vec<Ty>,
    classes: &mut IndexSet<ClassId>,
    class: &ClassId,
) -> Result<(), AllocError>
    requires { AreClasses classes.old (map ty_of kept.old.items) }
    ensures kept { OnOk result (map ty_of kept.new.items
        ≡ spec.with_item (map ty_of kept.old.items) (instance class.now)) }
    ensures classes { OnOk result (AreClasses classes.new (map ty_of kept.new.items)) }
{
    if classes.contains(class) {
        return Ok(());
    }
    classes.insert(class.clone()?)?;
    push_instance(kept, class)?;
    Ok(())
}

/// Adds the instances of a class.
fn push_instance(kept: &mut Vec<Ty>, class: &ClassId) -> Result<(), AllocError>
    ensures { OnOk result (map ty_of kept.new.items ≡ map ty_of kept.old.items ++ instance class.now ∷ []) }
{
    kept.push(Ty::Instance(class.clone()?))?;
    Ok(())
}
