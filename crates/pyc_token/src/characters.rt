//! Classes of bytes.

ghost use Rattle.std.specs.Prelude.{◌≡◌, ◌≤◌, length, slice_index};
ghost use Rattle.std.specs.List.{prefix_len};
ghost use Rattle.pyc_token.specs.Characters as spec;

/// The byte at an index, or 0 past the end.
pub fn byte_at(text: &[u8], index: usize) -> u8
    ensures { result ≡ slice_index text.now index }
{
    if index < text.len() { text[index] } else { 0 }
}

/// Whether a byte is a space, a tab or a form feed.
pub(crate) fn is_blank(byte: u8) -> bool
    ensures { result ≡ spec.is_blank byte }
{
    byte == b' ' || byte == b'\t' || byte == b'\x0c'
}

/// Whether a byte is a line feed or a carriage return.
pub(crate) fn is_line_end(byte: u8) -> bool
    ensures { result ≡ spec.is_line_end byte }
{
    byte == b'\n' || byte == b'\r'
}

/// Whether a byte is a quote of either sort.
pub(crate) fn is_quote(byte: u8) -> bool
    ensures { result ≡ spec.is_quote byte }
{
    byte == b'\'' || byte == b'"'
}

/// How many bytes a line end takes.
pub(crate) fn line_end_len(text: &[u8]) -> usize
    ensures { result ≡ spec.line_end_len text.now }
{
    if byte_at(text, 0) == b'\r' && byte_at(text, 1) == b'\n' {
        2
    } else {
        1
    }
}

/// How many blanks a text begins with.
pub(crate) fn blank_len(text: &[u8]) -> usize
    ensures value { result ≡ prefix_len spec.is_blank text.now }
    ensures within { result ≤ length text.now }
{
    text.iter().take_while(|byte| is_blank(**byte)).count()
}

/// How many bytes a comment takes, up to the end of its line.
pub(crate) fn comment_len(text: &[u8]) -> usize
    ensures value { result ≡ prefix_len spec.is_comment_byte text.now }
    ensures within { result ≤ length text.now }
{
    text.iter().take_while(|byte| !is_line_end(**byte)).count()
}
