//! Tables of classes: a class is a number, its position in a table that lists the bases of each.

ghost use Rattle.std.specs.Prelude.{◌≡◌, IfOk};
ghost use Rattle.pyc_mro.specs.Tables as spec;
ghost use Rattle.pyc_mro.specs.TableView.{table_in};

use std::alloc::{AllocError, Global};

/// A written base of a class.
#[derive(Clone, Copy, Debug, PartialEq, Eq)]
pub enum Base {
    /// The class of this number.
    Class(usize),
    /// Any, or no class of known order.
    Unknown,
}

/// The bases of a class; what is no class of the table has none. Takes no memory.
pub(crate) fn bases_of(bases: &[Vec<Base>], class: usize) -> &[Base]
    ensures { result.now ≡ spec.bases_of (table_in bases.now) class }
{
    match bases.get(class) {
        Some(row) => row.as_slice(),
        None => &[],
    }
}

/// The classes among bases. The only error is that memory runs out.
pub(crate) fn classes_among(alloc: Global, bases: &[Base]) -> Result<Vec<usize>, AllocError>
    ensures { IfOk result (λ classes. classes.items ≡ spec.classes_among bases.now) }
{
    let mut classes = Vec::with_capacity(alloc, bases.len())?;
    for base in bases {
        if let Base::Class(class) = base {
            classes.push(*class)?;
        }
    }
    Ok(classes)
}
