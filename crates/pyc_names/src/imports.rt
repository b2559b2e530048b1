//! The module that an import names.

ghost use Rattle.std.specs.Prelude.{◌≡◌, ◌++◌, IfOk, OnOk, option_map};
ghost use Rattle.pyc_names.specs.Imports as spec;

use crate::ModuleName;
use pyc_ast::Text;
use std::alloc::{AllocError, Global};

/// The module that an import names in the file of a module, by the dots before its parts: without dots by its parts
/// alone; else from the package of the file, which for an `__init__.py` is its own folder, one level up for each dot
/// after the first. Above the root there is none. The only error is that memory runs out.
pub fn named_module(
    alloc: Global,
    own: &ModuleName,
    is_package: bool,
    dots: usize,
    path: &[Text],
) -> Result<Option<ModuleName>, AllocError>
    ensures { IfOk result (λ name. name ≡ spec.named_module is_package own.now dots path.now) }
{
    if dots == 0 {
        return Ok(Some(module_of_parts(alloc, &[], path)?));
    }
    match package_at(own.parts(), is_package, dots - 1) {
        Some(base) => Ok(Some(module_of_parts(alloc, base, path)?)),
        None => Ok(None),
    }
}

/// The package of a module's file, so many levels up; none above the root.
fn package_at(own: &[Text], is_package: bool, levels: usize) -> Option<&[Text]>
    ensures { option_map (λ base. base.now) result
        ≡ spec.without_last (spec.parts_left_out is_package levels) own.now }
{
    let parts = own.len().checked_sub(levels)?;
    if is_package {
        Some(&own[..parts])
    } else {
        Some(&own[..parts.checked_sub(1)?])
    }
}

/// The module with these parts as its name, one after another. The only error is that memory runs out.
pub fn module_of_parts(
    alloc: Global,
    base: &[Text],
    path: &[Text],
) -> Result<ModuleName, AllocError>
    ensures { IfOk result (λ name. name ≡ base.now ++ path.now) }
{
    let mut parts = Vec::new(alloc);
    push_all(&mut parts, base)?;
    push_all(&mut parts, path)?;
    Ok(ModuleName { parts })
}

/// Adds texts to others.
fn push_all(out: &mut Vec<Text>, texts: &[Text]) -> Result<(), AllocError>
    ensures { OnOk result (out.new.items ≡ out.old.items ++ texts.now) }
{
    for text in texts {
        out.push(text.clone()?)?;
    }
    Ok(())
}
