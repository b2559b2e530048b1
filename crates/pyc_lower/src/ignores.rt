//! Ignore comments with their codes as texts.

ghost use Rattle.std.specs.Prelude.{◌≡◌, IfOk, map};
ghost use Rattle.pyc_ast.specs.Modules.{codes_of, ignore_of};
ghost use Rattle.pyc_lex.specs.View.{codes_in, ignore_in};
ghost use Rattle.pyc_lower.specs.Ignores as spec;
ghost use Rattle.pyc_lower_atom.specs.Origins as origin;

use pyc_ast::{Codes, Ignore, Text};
use pyc_lex::{Codes as Found, Ignore as FoundIgnore};
use pyc_lower_expression::text_at;
use pyc_token::Span;
use std::alloc::{AllocError, Global};

/// The texts at spans of a source.
fn texts(alloc: Global, source: &[u8], spans: &[Span]) -> Result<Vec<Text>, AllocError>
    ensures { IfOk result (λ found. found.items ≡ map (origin.text_at source.now) spans.now) }
{
    let mut found = Vec::with_capacity(alloc, spans.len())?;
    for span in spans {
        found.push(Text::new(alloc, text_at(source, *span))?)?;
    }
    Ok(found)
}

/// The codes of an ignore comment of a source.
fn codes(alloc: Global, source: &[u8], codes: &Found) -> Result<Codes, AllocError>
    ensures { IfOk result (λ found. codes_of found ≡ spec.codes_in source.now (codes_in codes.now)) }
{
    match codes {
        Found::All => Ok(Codes::All),
        Found::Listed(spans) => Ok(Codes::Listed(texts(alloc, source, spans)?)),
    }
}

/// The ignore comments of a source, in its order.
pub fn ignores(
    alloc: Global,
    source: &[u8],
    ignores: &[FoundIgnore],
) -> Result<Vec<Ignore>, AllocError>
    ensures { IfOk result
        (λ found. map ignore_of found.items ≡ map (spec.ignore_in source.now) (map ignore_in ignores.now)) }
{
    let mut found = Vec::with_capacity(alloc, ignores.len())?;
    for ignore in ignores {
        found.push(Ignore {
            line: ignore.line,
            codes: codes(alloc, source, &ignore.codes)?,
        })?;
    }
    Ok(found)
}
