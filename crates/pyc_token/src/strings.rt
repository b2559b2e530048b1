//! Strings.

ghost use Rattle.std.specs.Prelude.{◌≡◌, ◌≤◌, ◌<◌, nat_eq, true, length, slice_index, IfSome};
ghost use Rattle.std.specs.List.{prefix_len, starts_with};
ghost use Rattle.pyc_token.specs.Characters.{is_quote};
ghost use Rattle.pyc_token.specs.Strings as spec;

use crate::characters::{byte_at, is_line_end, line_end_len};
use crate::tokens::Prefix;

/// Whether a name is this word, which is in lower case, in either case.
fn is_spelled(name: &[u8], word: &[u8]) -> bool
    ensures { result ≡ spec.is_spelled name.now word.now }
{
    name.eq_ignore_ascii_case(word)
}

/// The prefix that is spelled so, in either case.
pub(crate) fn prefix_of(name: &[u8]) -> Option<Prefix>
    ensures { result ≡ spec.prefix_of name.now }
{
    if is_spelled(name, b"r") {
        Some(Prefix::Raw)
    } else if is_spelled(name, b"u") {
        Some(Prefix::Unicode)
    } else if is_spelled(name, b"b") {
        Some(Prefix::Bytes)
    } else if is_spelled(name, b"f") {
        Some(Prefix::Format)
    } else if is_spelled(name, b"br") || is_spelled(name, b"rb") {
        Some(Prefix::RawBytes)
    } else if is_spelled(name, b"fr") || is_spelled(name, b"rf") {
        Some(Prefix::RawFormat)
    } else {
        None
    }
}

/// Whether a string with this prefix is an f-string.
pub(crate) fn is_format(prefix: Prefix) -> bool
    ensures { result ≡ spec.is_format prefix }
{
    matches!(prefix, Prefix::Format | Prefix::RawFormat)
}

/// How many quotes open and close the string at the front.
fn quotes_len(text: &[u8]) -> usize
    requires { is_quote (slice_index text.now 0) ≡ true }
    ensures value { result ≡ spec.quotes_len text.now }
    ensures within { result ≤ length text.now }
{
    let quote = byte_at(text, 0);
    if byte_at(text, 1) == quote && byte_at(text, 2) == quote {
        3
    } else {
        1
    }
}

/// How many bytes go together within a string.
fn unit_len(text: &[u8]) -> usize
    requires { 0 < length text.now }
    ensures value { result ≡ spec.unit_len text.now }
    ensures least { 1 ≤ result }
{
    if text[0] != b'\\' {
        return 1;
    }
    let (_, rest) = text.split_at(1);
    1 + line_end_len(rest)
}

/// Whether a byte is a bare line end that ends the line of a string in single quotes.
fn is_cut_off(quotes: &[u8], byte: u8) -> bool
    ensures { result ≡ spec.is_cut_off quotes.now byte }
{
    quotes.len() == 1 && is_line_end(byte)
}

/// Whether a text begins with these quotes; its first byte alone reports it of most.
fn begins_with(text: &[u8], quotes: &[u8]) -> bool
    requires { 0 < length quotes.now }
    ensures { result ≡ starts_with nat_eq text.now quotes.now }
{
    byte_at(quotes, 0) == byte_at(text, 0) && text.starts_with(quotes)
}

/// How many bytes at the front of a text go by themselves within a string of such quotes.
fn inner_len(quote: u8, text: &[u8]) -> usize
    ensures value { result ≡ prefix_len (spec.is_inner quote) text.now }
    ensures within { result ≤ length text.now }
{
    text.iter()
        .take_while(|byte| quote != **byte && **byte != b'\\' && !is_line_end(**byte))
        .count()
}

/// How many bytes a string goes on for after its opening quotes, its closing quotes included, or none where it is open.
fn string_rest_len(quotes: &[u8], text: &[u8]) -> Option<usize>
    requires { 0 < length quotes.now }
    ensures value { result ≡ spec.string_rest_len (length text.now) quotes.now text.now }
    ensures within { IfSome result (λ len. len ≤ length text.now) }
{
    let quote = byte_at(quotes, 0);
    let mut rest = text;
    for _turn in 0..text.len() {
        let (_, left) = rest.split_at(inner_len(quote, rest));
        rest = left;
        if rest.is_empty() {
            break;
        }
        if begins_with(rest, quotes) {
            return Some(text.len() - rest.len() + quotes.len());
        }
        if is_cut_off(quotes, rest[0]) {
            return None;
        }
        let len = unit_len(rest);
        if len > rest.len() {
            return None;
        }
        let (_, left) = rest.split_at(len);
        rest = left;
    }
    None
}

/// How many bytes the string at the front takes, or none where it is open.
#[tactic(auto, unfolding(crate::specs::Strings::string_len))]
pub(crate) fn string_len(text: &[u8]) -> Option<usize>
    requires { is_quote (slice_index text.now 0) ≡ true }
    ensures value { result ≡ spec.string_len text.now }
    ensures within { IfSome result (λ len. (1 ≤ len) × (len ≤ length text.now)) }
{
    let (quotes, inside) = text.split_at(quotes_len(text));
    Some(quotes.len() + string_rest_len(quotes, inside)?)
}

/// Whether a field of the f-string with this text is left open: a `{` that is none of a `{{` and has no `}` after it.
#[tactic(auto, unfolding(crate::specs::Strings::has_open_field))]
pub(crate) fn has_open_field(text: &[u8]) -> bool
    ensures { result ≡ spec.has_open_field text.now }
{
    let mut is_open = false;
    let mut follows_brace = false;
    for byte in text {
        match byte {
            b'{' => follows_brace = !follows_brace,
            b'}' => {
                is_open = false;
                follows_brace = false;
            }
            _ => {
                is_open = is_open || follows_brace;
                follows_brace = false;
            }
        }
    }
    is_open || follows_brace
}
