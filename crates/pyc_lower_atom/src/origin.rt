//! What a token of the grammar is in an abstract tree: its text and its position.

ghost use Rattle.std.specs.Prelude.{◌≡◌};
ghost use Rattle.pyc_lower_atom.specs.Origins as spec;
ghost use Rattle.pyc_lower_atom.specs.Origins.{held, text_at, position_at};
ghost use Rattle.pyc_lower_atom.specs.OriginView.{origin_of};

use pyc_ast::Position;
use pyc_token::{Span, Token};
use std::str;

/// Where the tokens of a tree come from: the source that their spans are of, and, where that is the text of a string,
/// the position of the string.
#[derive(Clone, Copy)]
pub struct Origin<'a> {
    pub source: &'a [u8],
    pub string: Option<Position>,
}

/// The text of a source at a span, nothing where the span is none of text. It takes no memory.
#[tactic(auto, unfolding(crate::specs::Origins::text_at))]
pub fn text_at(source: &[u8], span: Span) -> &str
    ensures { result.now ≡ text_at source.now span }
{
    let Some(bytes) = source.get(span.start..span.end) else {
        return "";
    };
    match str::from_utf8(bytes) {
        Ok(text) => text,
        Err(_) => "",
    }
}

/// A number of lines or columns as a position holds it.
fn held(number: usize) -> u32
    ensures { result ≡ held number }
{
    u32::try_from(number).unwrap_or(u32::MAX)
}

impl<'a> Origin<'a> {
    /// The position of a token; the parts of a string's text stand where the string does.
    pub fn position(self, token: Token) -> Position
        ensures { result ≡ position_at (origin_of self.entry) token }
    {
        match self.string {
            Some(string) => string,
            None => Position {
                line: held(token.line),
                column: held(token.column),
            },
        }
    }

    /// The text of a token.
    pub fn text(self, token: Token) -> &'a str
        ensures { result.now ≡ text_at (origin_of self.entry).source token.span }
    {
        text_at(self.source, token.span)
    }
}
