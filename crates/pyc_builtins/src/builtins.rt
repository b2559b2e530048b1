//! The builtin classes, with their orders.

ghost use Rattle.std.specs.Prelude.{◌≡◌, IfOk, map};
ghost use Rattle.pyc_class_ids.specs.Class.{builtin};
ghost use Rattle.pyc_type_forms.specs.declared.types.Ty.TheVariants as form;
ghost use Rattle.pyc_builtins.specs.MroTable.{builtin_order, chains};

use crate::chains::{CHAINS, place_of};
use pyc_class_ids::{BuiltinClass, ClassId, Lin, Lins, UnknownMro};
use pyc_type_forms::Ty;
use std::alloc::{AllocError, Global};

/// The orders of the builtin classes. No other class is known.
#[derive(Drop)]
pub struct Builtins {
    classes: Vec<ClassId>,
    ghost classes_are: { classes.items ≡ map builtin chains },
}

impl Builtins {
    /// Makes the table of the builtin classes. The only error is that memory runs out.
    pub fn new(alloc: Global) -> Result<Builtins, AllocError> {
        Ok(Builtins {
            classes: classes_of(alloc, &CHAINS)?,
        })
    }

    /// The order of a builtin class: itself, then its base, and so on.
    fn order(&self, class: BuiltinClass) -> &[ClassId]
        ensures { result.now ≡ map builtin (builtin_order class) }
    {
        let (start, end) = place_of(class);
        &self.classes.as_slice()[start..end]
    }
}

impl Lins for Builtins {
    ghost use Rattle.pyc_builtins.specs.MroTable.{builtin_orders};

    ghost orders = { λ _. builtin_orders };

    /// The order of a class: known for a builtin class alone. Takes no memory.
    fn lin(&self, class: &ClassId) -> Lin<'_> {
        match class.as_builtin() {
            Some(builtin) => Lin {
                classes: self.order(builtin),
                unknown: None,
                has_call: false,
            },
            None => Lin {
                classes: &[],
                unknown: Some(UnknownMro::Base),
                has_call: false,
            },
        }
    }
}

/// The type of the instances of a builtin class of no form of its own.
pub(crate) fn instance_of(class: BuiltinClass) -> Ty
    ensures { result ≡ form.Instance (builtin class) }
{
    Ty::Instance(ClassId::builtin(class))
}

/// The classes of a row, in order.
fn classes_of(alloc: Global, row: &[BuiltinClass]) -> Result<Vec<ClassId>, AllocError>
    ensures { IfOk result (λ classes. classes.items ≡ map builtin row.now) }
{
    let mut classes = Vec::new(alloc);
    for class in row {
        classes.push(ClassId::builtin(*class))?;
    }
    Ok(classes)
}
