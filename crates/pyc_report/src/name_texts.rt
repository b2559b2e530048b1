//! Names as messages show them.

ghost use Rattle.std.specs.Prelude.{◌≡◌, ◌++◌, flat_map, OnOk, string_bytes};
ghost use Rattle.pyc_report.specs.NameTexts as spec;

use pyc_ast::Text;
use std::alloc::AllocError;

/// Adds names with a dot between each two. The only error is that memory runs out.
pub fn push_names(text: &mut String, names: &[Text]) -> Result<(), AllocError>
    ensures { OnOk result (string_bytes text.new ≡ string_bytes text.old ++ spec.joined_names names.now) }
{
    match names {
        [] => Ok(()),
        [first, rest @ ..] => {
            text.push_str(first.as_str())?;
            push_after_dots(text, rest)
        }
    }
}

/// Adds names, each after a dot.
fn push_after_dots(text: &mut String, names: &[Text]) -> Result<(), AllocError>
    ensures { OnOk result (string_bytes text.new
        ≡ string_bytes text.old ++ flat_map spec.after_dot names.now) }
{
    for name in names {
        text.push_str(".")?;
        text.push_str(name.as_str())?;
    }
    Ok(())
}
