//! Physical lines and columns.

ghost use Rattle.std.specs.Prelude.{◌≡◌, ◌<◌, ◌≤◌, ◌+◌, ◌^◌, length, slice_index};
ghost use Rattle.std.specs.List.{prefix_len};
ghost use Rattle.pyc_lex.specs.Positions as spec;

use pyc_token::byte_at;

/// A physical line and a column in characters, both from 1.
#[derive(Clone, Copy, Debug, PartialEq, Eq)]
pub(crate) struct Position {
    pub line: usize,
    pub column: usize,
}

/// How many printed characters of ASCII a text begins with.
fn printed_len(text: &[u8]) -> usize
    ensures value { result ≡ prefix_len spec.is_printed text.now }
    ensures within { result ≤ length text.now }
{
    text.iter()
        .take_while(|byte| (b' '..=b'~').contains(*byte))
        .count()
}

impl Position {
    /// The position after the byte of a text at an index.
    fn past(self, text: &[u8], index: usize) -> Position
        requires within { index < length text.now }
        requires line { self.line + 1 < 2 ^ 64 }
        requires column { self.column + 1 < 2 ^ 64 }
        ensures { result ≡ spec.position_past self (slice_index text.now index) (slice_index text.now (index + 1)) }
    {
        let byte = text[index];
        // Most bytes are of this sort, and for these the next one is not looked at.
        if (b' '..=b'~').contains(&byte) {
            Position {
                line: self.line,
                column: self.column + 1,
            }
        } else if byte == b'\n' || byte == b'\r' && byte_at(text, index + 1) != b'\n' {
            Position {
                line: self.line + 1,
                column: 1,
            }
        } else if !(128..=191).contains(&byte) {
            Position {
                line: self.line,
                column: self.column + 1,
            }
        } else {
            self
        }
    }

    /// The position after a text.
    pub fn after(self, text: &[u8]) -> Position
        requires line { self.line + length text.now < 2 ^ 64 }
        requires column { self.column + length text.now < 2 ^ 64 }
        requires from_one { 1 ≤ self.column }
        ensures value { result ≡ spec.position_after self text.now }
        ensures line { result.line ≤ self.line + length text.now }
        ensures column { result.column ≤ self.column + length text.now }
        ensures from_one { 1 ≤ result.column }
    {
        let front = printed_len(text);
        let mut position = Position {
            line: self.line,
            column: self.column + front,
        };
        for index in front..text.len() {
            position = position.past(text, index);
        }
        position
    }
}
