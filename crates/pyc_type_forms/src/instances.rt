//! The type of the instances of a class.

ghost use Rattle.std.specs.Prelude.{◌≡◌, IfOk};
ghost use Rattle.pyc_type_forms.specs.TypeView.{ty_of};
ghost use Rattle.pyc_type_forms.specs.Instances.{instance_of};
ghost use Rattle.pyc_type_forms.specs.Types.{any, dict};

use crate::{DictTypes, Ty};
use pyc_class_ids::{ClassId, InstanceForm};
use std::alloc::{AllocError, Global};
use std::rc::Rc;

/// The type of the instances of a class; those of list, dict and tuple have parts of type Any. The only error is that
/// memory runs out.
pub fn instance_of(alloc: Global, class: &ClassId) -> Result<Ty, AllocError>
    ensures { IfOk result (λ ty. ty_of ty ≡ instance_of class.now) }
{
    match class.instance_form() {
        InstanceForm::List => Ok(Ty::List(Rc::new(alloc, Ty::Any)?)),
        InstanceForm::Dict => any_dict(alloc),
        InstanceForm::Tuple => Ok(Ty::TupleOf(Rc::new(alloc, Ty::Any)?)),
        InstanceForm::Plain => Ok(Ty::Instance(class.clone()?)),
    }
}

/// A dictionary with keys and values of type Any.
fn any_dict(alloc: Global) -> Result<Ty, AllocError>
    ensures { IfOk result (λ ty. ty_of ty ≡ dict any any) }
{
    let types = DictTypes {
        key: Ty::Any,
        value: Ty::Any,
    };
    Ok(Ty::Dict(Rc::new(alloc, types)?))
}
