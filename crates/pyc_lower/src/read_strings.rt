//! Strings that are read before the trees in which they stand.

ghost use Rattle.std.specs.Prelude.{◌≡◌, IfSome, option_map};
ghost use Rattle.std.specs.Bool.{OnTrue};
ghost use Rattle.pyc_ast.specs.ExprView.{expr_of};

use pyc_ast::{Expr, Position};
use pyc_lex::LogicalLine;
use pyc_lower_expression::{Lowering, Names, Quotes, is_plain};
use pyc_token::{Delimiter, Kind, Token};
use std::alloc::{AllocError, Global};
use std::cell::Cell;
use std::marker::PhantomData;

/// How many bytes a string has at least that is read before the tree in which it stands: the tree of a shorter one is
/// low.
const LONG: usize = 64;

/// A string, and the expression that it spells to a reader of this type.
#[derive(Drop)]
pub struct ReadString<'t, Q: Quotes> {
    text: &'t str,
    at: Position,
    expr: Option<Expr>,
    reader: PhantomData<Q>,
    ghost is_read: { ∥ option_map expr_of expr ≡ Q.spelled text.now at ∥₁ },
}

impl<Q: Quotes> ReadString<'_, Q> {
    /// Whether this is the string of that text and position.
    fn is_at(&self, text: &str, at: Position) -> bool
        ensures text { OnTrue result (self.now.text.now ≡ text.now) }
        ensures at { OnTrue result (self.now.at ≡ at) }
    {
        self.at == at && self.text == text
    }

    /// The expression that the string spells.
    fn into_expr(self) -> Option<Expr>
        ensures { option_map expr_of result ≡ Q.spelled self.entry.text.now self.entry.at }
    {
        self.expr
    }
}

/// Whether a token is a long string without prefix.
fn is_long(token: Token) -> bool {
    is_plain(token.kind) && token.span.end.saturating_sub(token.span.start) >= LONG
}

/// Whether a long string stands among the tokens of a line.
fn holds_long(tokens: &[Token]) -> bool {
    tokens.iter().any(|token| is_long(*token))
}

/// Whether an annotation may stand among the tokens of a line of a file: behind a colon or an arrow, or as the first of
/// two arguments.
fn may_annotate(tokens: &[Token]) -> bool {
    tokens.iter().any(|token| {
        matches!(
            token.kind,
            Kind::Delimiter(Delimiter::Colon | Delimiter::Arrow | Delimiter::Comma)
        )
    })
}

/// Reads the string of a token. The only error is that memory runs out.
fn read_string<'t, Q: Quotes>(
    lowering: &Lowering<'t, Q>,
    token: Token,
    names: &mut Names,
) -> Result<ReadString<'t, Q>, AllocError> {
    let text = lowering.origin.text(token);
    let at = lowering.origin.position(token);
    let expr = lowering.quotes.read(lowering.alloc, names, text, at)?;
    Ok(ReadString {
        text,
        at,
        expr,
        reader: PhantomData,
    })
}

/// Reads the long strings among the tokens of a line behind those of the lines before. The only error is that memory
/// runs out.
fn push_strings<'t, Q: Quotes>(
    lowering: &Lowering<'t, Q>,
    tokens: &[Token],
    names: &mut Names,
    strings: &mut Vec<ReadString<'t, Q>>,
) -> Result<(), AllocError> {
    for token in tokens {
        if is_long(*token) {
            strings.push(read_string(lowering, *token, names)?)?;
        }
    }
    Ok(())
}

/// The long strings of these lines that may be annotations, the last one first. The only error is that memory runs out.
pub fn strings_of_lines<'t, Q: Quotes>(
    lowering: &Lowering<'t, Q>,
    lines: &[LogicalLine],
    names: &mut Names,
) -> Result<Vec<ReadString<'t, Q>>, AllocError> {
    let mut strings = Vec::new(lowering.alloc);
    for line in lines {
        let tokens = &line.tokens;
        if holds_long(tokens) && (lowering.origin.string.is_some() || may_annotate(tokens)) {
            push_strings(lowering, tokens, names, &mut strings)?;
        }
    }
    strings.reverse();
    Ok(strings)
}

/// A reader of strings to whom the long ones of some lines were read before, so that no high tree is gone through below
/// another. Each is given away once, and with it those that stand before it.
#[derive(Drop)]
pub struct ReadStrings<'q, 't, 's, Q: Quotes> {
    pub quotes: &'q Q,
    pub strings: &'s Cell<Vec<ReadString<'t, Q>>>,
}

/// Takes the string of that text and position from strings of which the last stands first, where it is among them, with
/// those before it, and gives the expression that it spells.
fn take_string<Q: Quotes>(
    strings: &mut Vec<ReadString<'_, Q>>,
    text: &str,
    at: Position,
) -> Option<Option<Expr>>
    ensures { IfSome result (λ expr. option_map expr_of expr ≡ Q.spelled text.now at) }
{
    for index in (0..strings.len()).rev() {
        if strings[index].is_at(text, at) {
            let string = strings.swap_remove(index);
            strings.truncate(index);
            return Some(string.into_expr());
        }
    }
    None
}

impl<Q: Quotes> ReadStrings<'_, '_, '_, Q> {
    /// Takes the string of that text and position, where it was read, and gives the expression that it spells.
    fn take(&self, alloc: Global, text: &str, at: Position) -> Option<Option<Expr>>
        ensures { IfSome result (λ expr. option_map expr_of expr ≡ Q.spelled text.now at) }
    {
        let mut strings = self.strings.replace(Vec::new(alloc));
        let found = take_string(&mut strings, text, at);
        self.strings.replace(strings);
        found
    }
}

impl<Q: Quotes> Quotes for ReadStrings<'_, '_, '_, Q> {
    ghost spelled = { Q.spelled };

    fn read(
        &self,
        alloc: Global,
        names: &mut Names,
        text: &str,
        at: Position,
    ) -> Result<Option<Expr>, AllocError> {
        if text.len() >= LONG {
            if let Some(expr) = self.take(alloc, text, at) {
                return Ok(expr);
            }
        }
        self.quotes.read(alloc, names, text, at)
    }
}
