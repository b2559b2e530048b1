//! How messages show modules.

ghost use Rattle.std.specs.Prelude.{◌≡◌, ◌++◌, IfOk, string_bytes};
ghost use Rattle.pyc_imports.specs.ImportReadings as spec;

use pyc_ast::Text;
use pyc_report::push_names;
use std::alloc::{AllocError, Global};

/// A module as it is written in an import: so many dots, and the parts of its name.
#[tactic(auto, unfolding(crate::specs::ImportReadings::written_module))]
pub(crate) fn written_module(
    alloc: Global,
    dots: usize,
    path: &[Text],
) -> Result<String, AllocError>
    ensures { IfOk result (λ text. string_bytes text ≡ spec.written_module dots path.now) }
{
    let mut text = dots_text(alloc, dots)?;
    push_names(&mut text, path)?;
    Ok(text)
}

/// So many dots.
#[tactic(auto, using(crate::proofs::TextLemmas::dots_more))]
fn dots_text(alloc: Global, dots: usize) -> Result<String, AllocError>
    ensures { IfOk result (λ text. string_bytes text ≡ spec.dots dots) }
{
    let mut text = String::new(alloc);
    for dot in 0..dots {
        text.push_str(".")?;
    }
    Ok(text)
}
