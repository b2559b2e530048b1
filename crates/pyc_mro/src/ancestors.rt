//! The ancestors of a class.

ghost use Rattle.std.specs.Prelude.{◌≡◌, ◌<◌, IfOk, OnOk, length};
ghost use Rattle.pyc_mro.specs.Tables as spec;
ghost use Rattle.pyc_mro.specs.Marks.{mark_one, mark_all};
ghost use Rattle.pyc_mro.specs.TableView.{table_in};

use crate::table::{Base, bases_of};
use std::alloc::{AllocError, Global};

/// Whether a class is its own ancestor. The only error is that memory runs out.
pub(crate) fn is_own_ancestor(
    alloc: Global,
    bases: &[Vec<Base>],
    class: usize,
) -> Result<bool, AllocError>
    requires { class < length bases.now }
    ensures { IfOk result (λ found. found ≡ spec.is_own_ancestor (table_in bases.now) class) }
{
    let mut marks = Vec::from_elem(alloc, false, bases.len())?;
    let mut work = Vec::new(alloc);
    mark(bases_of(bases, class), &mut marks, &mut work)?;
    while let Some(next) = work.pop() {
        mark(bases_of(bases, next), &mut marks, &mut work)?;
    }
    Ok(marks[class])
}

/// Marks the classes among bases, and adds those that had no mark to the work. The only error is that memory runs out.
fn mark(bases: &[Base], marks: &mut [bool], work: &mut Vec<usize>) -> Result<(), AllocError>
    ensures { OnOk result (record { marks = marks.new; work = work.new.items }
        ≡ mark_all (spec.classes_among bases.now) (record { marks = marks.old; work = work.old.items })) }
{
    for base in bases {
        if let Base::Class(class) = base {
            mark_one(*class, marks, work)?;
        }
    }
    Ok(())
}

/// Marks a class that has no mark, and adds it to the work. The only error is that memory runs out.
fn mark_one(class: usize, marks: &mut [bool], work: &mut Vec<usize>) -> Result<(), AllocError>
    ensures { OnOk result (record { marks = marks.new; work = work.new.items }
        ≡ mark_one (record { marks = marks.old; work = work.old.items }) class) }
{
    if class < marks.len() && !marks[class] {
        marks[class] = true;
        work.push(class)?;
    }
    Ok(())
}
