//! What is remembered in a call of the `__call__` of classes that it came by.

ghost use Rattle.std.specs.Prelude.{◌≡◌, ◌<◌, ◌≤◌, ◌+◌, ◌^◌, IfOk, OnOk};
ghost use Rattle.pyc_calls.specs.Remembered as spec;
ghost use Rattle.pyc_calls.specs.Views.{count_of, given_in, how_far, memory_in};
ghost use Rattle.pyc_type_forms.specs.TypeView.{ty_of};

use indexmap::IndexMap;
use pyc_class_ids::ClassId;
use pyc_type_forms::Ty;
use std::alloc::{AllocError, Global};

/// What the `__call__` of each class gave that was met: none while it is under way.
pub(crate) type Memory = IndexMap<ClassId, Option<Ty>>;

/// How far the `__call__` of a class is.
#[derive(Debug, Drop)]
pub(crate) enum Progress {
    /// The call did not come by it.
    Fresh,
    UnderWay,
    Gave(Ty),
}

/// Before any class is met. It takes no memory.
pub(crate) fn nothing_met(alloc: Global) -> Memory
    ensures remembered { memory_in result ≡ spec.nothing_met }
    ensures none { count_of result ≡ 0 }
{
    IndexMap::new(alloc)
}

/// How far the `__call__` of a class is, by what is remembered. The only error is a full count of those that share a
/// type.
pub(crate) fn progress_of(memory: &Memory, class: &ClassId) -> Result<Progress, AllocError>
    ensures { IfOk result (λ found. how_far found ≡ spec.progress_of (memory_in memory.now) class.now) }
{
    match memory.get(class) {
        Some(given) => progress_in(given),
        None => Ok(Progress::Fresh),
    }
}

/// How far the `__call__` of a class is that gave this.
fn progress_in(given: &Option<Ty>) -> Result<Progress, AllocError>
    ensures { IfOk result (λ found. how_far found ≡ given_in given.now) }
{
    match given {
        Some(ty) => Ok(Progress::Gave(ty.clone()?)),
        None => Ok(Progress::UnderWay),
    }
}

/// Remembers that the `__call__` of a class is under way. The only error is that memory runs out.
pub(crate) fn begin(memory: &mut Memory, class: &ClassId) -> Result<(), AllocError>
    ensures remembered { OnOk result (memory_in memory.new
        ≡ spec.remembering (memory_in memory.old) class.now spec.under_way) }
    ensures counted { OnOk result (spec.progress_of (memory_in memory.old) class.now ≡ spec.fresh
        → count_of memory.new ≡ count_of memory.old + 1) }
    ensures small { OnOk result (count_of memory.new < 2 ^ 63) }
{
    memory.insert(class.clone()?, None)?;
    let _count = memory.len();
    Ok(())
}

/// Remembers what the `__call__` of a class gave. The only error is that memory runs out.
pub(crate) fn finish(memory: &mut Memory, class: &ClassId, given: &Ty) -> Result<(), AllocError>
    ensures remembered { OnOk result (memory_in memory.new
        ≡ spec.remembering (memory_in memory.old) class.now (spec.gave (ty_of given.now))) }
    ensures counted { OnOk result (count_of memory.old ≤ count_of memory.new) }
{
    memory.insert(class.clone()?, Some(given.clone()?))?;
    Ok(())
}
