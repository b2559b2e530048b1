//! The text of a word of the command line.

ghost use Rattle.std.specs.Prelude.{◌≡◌, true, false, IfOk, Contains, string_bytes};
ghost use Rattle.std.specs.Str.{is_utf8};
ghost use Rattle.pyc_console.specs.Text.{word_text};

use std::alloc::{AllocError, Global};

// stands for what is no text in a word; no file may have it in its path
const SUBSTITUTE: char = '\u{1a}';

/// The text of a word, whose bytes may be no text. U+001A stands for each run of bytes that is not UTF-8, so that a
/// file with such a name is refused for its path, and the others are checked.
pub fn word_text(alloc: Global, bytes: &[u8]) -> Result<String, AllocError>
    ensures text { IfOk result (λ text. string_bytes text ≡ word_text bytes.now) }
    ensures same { is_utf8 bytes.now ≡ true → IfOk result (λ text. string_bytes text ≡ bytes.now) }
    ensures marked { is_utf8 bytes.now ≡ false → IfOk result (λ text. Contains (string_bytes text) 0x1A) }
{
    let mut text = String::new(alloc);
    for chunk in bytes.utf8_chunks() {
        text.push_str(chunk.valid())?;
        if !chunk.invalid().is_empty() {
            text.push(SUBSTITUTE)?;
        }
    }
    Ok(text)
}
