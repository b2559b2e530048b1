//! How many files name each module.

ghost use Rattle.std.specs.Prelude.{◌≡◌, ◌+◌, ◌-◌, ◌^◌, ◌<◌, ℕ, List, IsOk, OnOk, if◌then◌else◌};
ghost use Rattle.indexmap.specs.IndexMap.{spare};
ghost use Rattle.pyc_names.specs.ModuleName.{same_module};
ghost use Rattle.pyc_workspace.specs.ModuleCounts.{counts_in};

use indexmap::IndexMap;
use pyc_names::ModuleName;
use std::alloc::AllocError;

/// How many files name each module that one names.
pub(crate) type ModuleCounts = IndexMap<ModuleName, usize>;

/// How many files name a module.
pub(crate) fn count_of(counts: &ModuleCounts, name: &ModuleName) -> usize
    ensures { result ≡ counts_in counts.now name.now }
{
    match counts.get(name) {
        Some(count) => *count,
        None => 0,
    }
}

/// Counts another file that names a module. It takes no memory where there is room for a module more.
pub(crate) fn count_one_more(counts: &mut ModuleCounts, name: ModuleName) -> Result<(), AllocError>
    requires { counts_in counts.old name + 1 < 2 ^ 64 }
    ensures after { OnOk result ((m : List (List ℕ)) → counts_in counts.new m
        ≡ counts_in counts.old m + (if same_module name m then 1 else 0)) }
    ensures roomy { 0 < spare counts.old → IsOk result }
{
    let count = count_of(counts, &name) + 1;
    counts.insert(name, count)?;
    Ok(())
}

/// Counts one file less of those that name a module.
pub(crate) fn count_one_less(counts: &mut ModuleCounts, name: &ModuleName)
    ensures { (m : List (List ℕ)) → counts_in counts.new m
        ≡ counts_in counts.old m - (if same_module name.now m then 1 else 0) }
{
    let count = count_of(counts, name);
    if count <= 1 {
        let _ = counts.swap_remove(name);
    } else if let Some(kept) = counts.get_mut(name) {
        *kept = count - 1;
    }
}
