//! The source that stands in a string.

ghost use Rattle.std.specs.Prelude.{◌≡◌, ◌≤◌, length};
ghost use Rattle.std.specs.List.{prefix_len, suffix_len};
ghost use Rattle.pyc_lex.specs.Ignores.{is_space};
ghost use Rattle.pyc_lower.specs.Strings as spec;
ghost use Rattle.pyc_token.specs.Strings as token;

use pyc_token::byte_at;

/// Whether a backslash stands in a text.
fn has_backslash(text: &[u8]) -> bool
    ensures { result ≡ spec.has_backslash text.now }
{
    text.contains(&b'\\')
}

/// How many quotes open and close a string without prefix.
fn quotes_len(text: &[u8]) -> usize
    ensures { result ≡ token.quotes_len text.now }
{
    let quote = byte_at(text, 0);
    if byte_at(text, 1) == quote && byte_at(text, 2) == quote {
        3
    } else {
        1
    }
}

/// What stands between the quotes of a string without prefix.
fn string_annotation_part(text: &[u8]) -> &[u8]
    ensures { result.now ≡ spec.string_annotation_part text.now }
{
    let quotes = quotes_len(text);
    text.get(quotes..text.len().saturating_sub(quotes))
        .unwrap_or(&[])
}

/// How many spaces a text begins with.
fn space_len(text: &[u8]) -> usize
    ensures value { result ≡ prefix_len is_space text.now }
    ensures within { result ≤ length text.now }
{
    text.iter().take_while(|byte| **byte == b' ').count()
}

/// How many spaces a text ends with.
fn end_space_len(text: &[u8]) -> usize
    ensures value { result ≡ suffix_len is_space text.now }
    ensures within { result ≤ length text.now }
{
    text.iter().rev().take_while(|byte| **byte == b' ').count()
}

/// A text without the spaces at its ends.
fn without_spaces(text: &[u8]) -> &[u8]
    ensures { result.now ≡ spec.without_spaces text.now }
{
    let (_, rest) = text.split_at(space_len(text));
    let (inside, _) = rest.split_at(rest.len() - end_space_len(rest));
    inside
}

/// The source that stands in a string without prefix: a slice of its text.
#[tactic(auto, unfolding(crate::specs::Strings::content))]
pub fn content(text: &[u8]) -> &[u8]
    ensures { result.now ≡ spec.content text.now }
{
    without_spaces(string_annotation_part(text))
}

/// Whether a byte order mark stands at the front of a text.
fn has_mark(text: &[u8]) -> bool
    ensures { result ≡ spec.has_mark text.now }
{
    text.starts_with(b"\xef\xbb\xbf")
}

/// Whether a string spells nothing whatever stands in it: with a backslash, or with a byte order mark at the front of
/// its content.
pub fn is_skipped(text: &[u8]) -> bool
    ensures { result ≡ spec.is_skipped text.now }
{
    has_backslash(text) || has_mark(content(text))
}
