//! Reads the logical lines of a source in one pass.

ghost use Rattle.std.specs.Prelude.{◌≡◌, ◌≢◌, ◌<◌, ◌≤◌, ◌+◌, ◌^◌, length, map, All, AllPairs, IfOk, IfErr, Ok, Err};
ghost use Rattle.std.specs.Prelude.{slice_range};
ghost use Rattle.pyc_lex.specs.Lines as spec;
ghost use Rattle.pyc_lex.specs.Lines.{lines_of};
ghost use Rattle.pyc_lex.specs.View.{AnswersScan, lexis_in};
ghost use Rattle.pyc_token.specs.Cuts.{cuts};
ghost use Rattle.pyc_lex.specs.Limits.{IsBefore, IsWithinLimits};
ghost use Rattle.pyc_lex.specs.Texts.{tokens_of, token_texts, slice_at, IsTextSpan, listed_spans};

use crate::fault::LexFault;
use crate::logical_lines::Scan;
use crate::reader::Reader;
use pyc_token::{Span, cut_first_lexeme};
use std::alloc::Global;
use std::str;

/// The text of a token: the bytes of a source at its span. It takes no memory. The call is for users of the library:
/// the program does not make it.
pub fn ident(bytes: &[u8], span: Span) -> &str
    requires { IsTextSpan bytes.now span }
    ensures { result.now ≡ slice_range bytes.now span.start span.end }
{
    match str::from_utf8(&bytes[span.start..span.end]) {
        Ok(text) => text,
        Err(_) => unreachable!(),
    }
}

/// How many bytes the byte order mark takes at the front.
#[tactic(auto, unfolding(crate::specs::Lines::mark_len))]
fn mark_len(bytes: &[u8]) -> usize
    ensures value { result ≡ spec.mark_len bytes.now }
    ensures within { result ≤ length bytes.now }
{
    if bytes.starts_with(b"\xef\xbb\xbf") {
        3
    } else {
        0
    }
}

/// Reads all lexemes of a text that begins at a byte of the source.
fn read(alloc: Global, from: usize, text: &str) -> Result<Scan, LexFault>
    requires { from + length text.now < 2 ^ 63 }
    ensures { AnswersScan (spec.and_then (spec.read (spec.start_at from) (cuts text.now)) spec.finished) result }
{
    let mut reader = Reader::new(alloc, from)?;
    let mut rest = text;
    for _turn in 0..text.len() {
        if rest.is_empty() {
            break;
        }
        match cut_first_lexeme(rest) {
            Ok((lexeme, len)) => {
                let (front, left) = rest.split_at(len);
                reader.step(alloc, lexeme, front)?;
                rest = left;
            }
            Err(fault) => return Err(reader.fault(fault)),
        }
    }
    reader.finish(alloc)
}

/// The logical lines of a source with their tokens and its ignore comments, or its first lexical fault in text order; a
/// source that is not UTF-8 has that fault before all others, and a bracket that is left open comes last. `Memory`
/// comes only from a growth that was refused.
pub fn scan(alloc: Global, bytes: &[u8]) -> Result<Scan, LexFault>
    ensures lines { IfOk result (λ scan. lines_of bytes.now ≡ Ok (lexis_in scan)) }
    ensures fault { IfErr result (λ fault. fault ≢ LexFault.Memory → lines_of bytes.now ≡ Err fault) }

    // Each token's text is its slice of the source.
    ensures texts { IfOk result
        (λ scan. map (slice_at bytes.now) (tokens_of (lexis_in scan).lines) ≡ token_texts bytes.now) }
    ensures spans { IfOk result
        (λ scan. All (λ line. All (λ token. IsTextSpan bytes.now token.span) line.tokens.items) scan.lines.items) }

    // Each code of an ignore comment is a slice of the source too.
    ensures codes { IfOk result
        (λ scan. All (λ ignore. All (IsTextSpan bytes.now) (listed_spans ignore.codes)) (lexis_in scan).ignores) }

    // Lines and tokens are in text order, and no two tokens overlap.
    ensures order { IfOk result (λ scan. AllPairs IsBefore (tokens_of (lexis_in scan).lines)) }
    ensures limits { IfOk result (λ scan. All IsWithinLimits (lexis_in scan).lines) }
{
    let Ok(source) = str::from_utf8(bytes) else {
        return Err(LexFault::NotUtf8);
    };
    let from = mark_len(bytes);
    let (_, text) = source.split_at(from);
    read(alloc, from, text)
}
