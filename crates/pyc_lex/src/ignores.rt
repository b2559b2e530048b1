//! Comments that suppress errors.

ghost use Rattle.std.specs.Prelude.{◌≡◌, ◌<◌, ◌≤◌, ◌+◌, ◌^◌, length, reverse, IfOk, IfSome, option_map, drop};
ghost use Rattle.std.specs.List.{prefix_len};
ghost use Rattle.pyc_lex.specs.Ignores as spec;
ghost use Rattle.pyc_lex.specs.View.{codes_in, spans_in, rest_in};

use crate::logical_lines::Codes;
use pyc_token::{Span, byte_at};
use std::alloc::{AllocError, Global};

/// A text within the source, and the byte that it begins at.
#[derive(Clone, Copy)]
struct Rest<'a> {
    from: usize,
    text: &'a [u8],
}

/// How many spaces a text begins with.
fn space_len(text: &[u8]) -> usize
    ensures value { result ≡ prefix_len spec.is_space text.now }
    ensures within { result ≤ length text.now }
{
    text.iter().take_while(|byte| **byte == b' ').count()
}

/// How many spaces a text ends with.
fn end_space_len(text: &[u8]) -> usize
    ensures value { result ≡ prefix_len spec.is_space (reverse text.now) }
    ensures within { result ≤ length text.now }
{
    text.iter().rev().take_while(|byte| **byte == b' ').count()
}

/// How many bytes a list of codes takes, up to a bracket or a `#`.
fn list_len(text: &[u8]) -> usize
    ensures value { result ≡ prefix_len spec.is_list_byte text.now }
    ensures within { result ≤ length text.now }
{
    text.iter()
        .take_while(|byte| !(**byte == b'[' || **byte == b']' || **byte == b'#'))
        .count()
}

/// How many bytes a code takes, up to a comma.
fn code_len(text: &[u8]) -> usize
    ensures value { result ≡ prefix_len spec.is_code_byte text.now }
    ensures within { result ≤ length text.now }
{
    text.iter().take_while(|byte| **byte != b',').count()
}

/// The span of a text that begins at a byte, without the spaces at its ends.
fn trim_spaces(from: usize, text: &[u8]) -> Option<Span>
    requires { from + length text.now < 2 ^ 64 }
    ensures { result ≡ spec.trim_spaces from text.now }
{
    let lead = space_len(text);
    if lead == text.len() {
        return None;
    }
    Some(Span {
        start: from + lead,
        end: from + (text.len() - end_space_len(text)),
    })
}

/// The codes of a list that begins at a byte.
fn codes_at(alloc: Global, from: usize, text: &[u8]) -> Result<Option<Vec<Span>>, AllocError>
    requires { from + length text.now < 2 ^ 63 }
    ensures { IfOk result (λ spans. option_map spans_in spans ≡ spec.codes_at (length text.now + 1) from text.now) }
{
    let mut spans = Vec::new(alloc);
    let mut at = from;
    let mut rest = text;
    for _turn in 0..text.len() + 1 {
        let len = code_len(rest);
        let (code, left) = rest.split_at(len);
        let Some(span) = trim_spaces(at, code) else {
            return Ok(None);
        };
        spans.push(span)?;
        if left.is_empty() {
            return Ok(Some(spans));
        }
        let (_, left) = left.split_at(1);
        at += len + 1;
        rest = left;
    }
    Ok(None)
}

/// Whether an ignore may end here.
fn ends_ignore(text: &[u8]) -> bool
    ensures { result ≡ spec.ends_ignore text.now }
{
    text.is_empty()
        || byte_at(text, 0) == b' '
        || byte_at(text, 0) == b'\t'
        || byte_at(text, 0) == b'#'
}

/// The codes in brackets.
fn codes_in_brackets(alloc: Global, from: usize, text: &[u8]) -> Result<Option<Codes>, AllocError>
    requires within { from + length text.now < 2 ^ 63 }
    requires opens { 0 < length text.now }
    ensures { IfOk result (λ codes. option_map codes_in codes ≡ spec.codes_in_brackets from text.now) }
{
    let (_, inside) = text.split_at(1);
    let len = list_len(inside);
    if byte_at(inside, len) != b']' {
        return Ok(None);
    }
    let (list, rest) = inside.split_at(len);
    let (_, rest) = rest.split_at(1);
    if !ends_ignore(rest) {
        return Ok(None);
    }
    Ok(codes_at(alloc, from + 1, list)?.map(Codes::Listed))
}

/// The codes that follow `ignore`.
fn codes_after(alloc: Global, from: usize, text: &[u8]) -> Result<Option<Codes>, AllocError>
    requires { from + length text.now < 2 ^ 63 }
    ensures { IfOk result (λ codes. option_map codes_in codes ≡ spec.codes_after from text.now) }
{
    if byte_at(text, 0) == b'[' {
        return codes_in_brackets(alloc, from, text);
    }
    if ends_ignore(text) {
        Ok(Some(Codes::All))
    } else {
        Ok(None)
    }
}

/// The rest of a text after the spaces at its front and a word, if the word stands there.
fn after_word<'a>(word: &[u8], at: Rest<'a>) -> Option<Rest<'a>>
    requires { at.from + length at.text.now < 2 ^ 63 }
    ensures value { option_map rest_in result ≡ spec.after_word word.now (spec.after_spaces (rest_in at.entry)) }
    ensures within { IfSome result
        (λ rest. rest.from + length rest.text.now ≤ at.entry.from + length at.entry.text.now) }
{
    let len = space_len(at.text);
    let (_, text) = at.text.split_at(len);
    if !text.starts_with(word) {
        return None;
    }
    let (_, text) = text.split_at(word.len());
    Some(Rest {
        from: at.from + len + word.len(),
        text,
    })
}

/// What a comment that begins at a byte suppresses.
#[tactic(auto, unfolding(crate::specs::Ignores::suppressed))]
pub(crate) fn suppressed(
    alloc: Global,
    from: usize,
    comment: &[u8],
) -> Result<Option<Codes>, AllocError>
    requires within { from + length comment.now < 2 ^ 63 }
    requires hash { 0 < length comment.now }
    ensures { IfOk result (λ codes. option_map codes_in codes ≡ spec.suppressed from comment.now) }
{
    let (_, text) = comment.split_at(1);
    let Some(rest) = after_word(
        b"type:",
        Rest {
            from: from + 1,
            text,
        },
    ) else {
        return Ok(None);
    };
    let Some(rest) = after_word(b"ignore", rest) else {
        return Ok(None);
    };
    codes_after(alloc, rest.from, rest.text)
}
