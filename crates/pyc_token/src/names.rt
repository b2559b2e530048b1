//! Names and keywords.

ghost use Rattle.std.specs.Prelude.{◌≡◌, ◌<◌, ◌≤◌, bytes_eq, length, map, IfOk};
ghost use Rattle.std.specs.List.{prefix_len};
ghost use Rattle.pyc_token.specs.Names as spec;

use crate::characters::byte_at;
use crate::tokens::{Keyword, Kind, Word};
use std::alloc::{AllocError, Global};
use unicode_ident::is_xid_continue;
use unicode_normalization::to_nfkc;

/// The keywords of two letters.
const OF_TWO: [(&[u8], Keyword); 5] = [
    (b"as", Keyword::As),
    (b"if", Keyword::If),
    (b"in", Keyword::In),
    (b"is", Keyword::Is),
    (b"or", Keyword::Or),
];

/// The keywords of three letters.
const OF_THREE: [(&[u8], Keyword); 6] = [
    (b"and", Keyword::And),
    (b"def", Keyword::Def),
    (b"del", Keyword::Del),
    (b"for", Keyword::For),
    (b"not", Keyword::Not),
    (b"try", Keyword::Try),
];

/// The keywords of four letters.
const OF_FOUR: [(&[u8], Keyword); 7] = [
    (b"None", Keyword::None),
    (b"True", Keyword::True),
    (b"elif", Keyword::Elif),
    (b"else", Keyword::Else),
    (b"from", Keyword::From),
    (b"pass", Keyword::Pass),
    (b"with", Keyword::With),
];

/// The keywords of five letters.
const OF_FIVE: [(&[u8], Keyword); 8] = [
    (b"False", Keyword::False),
    (b"async", Keyword::Async),
    (b"await", Keyword::Await),
    (b"break", Keyword::Break),
    (b"class", Keyword::Class),
    (b"raise", Keyword::Raise),
    (b"while", Keyword::While),
    (b"yield", Keyword::Yield),
];

/// The keywords of six letters.
const OF_SIX: [(&[u8], Keyword); 6] = [
    (b"assert", Keyword::Assert),
    (b"except", Keyword::Except),
    (b"global", Keyword::Global),
    (b"import", Keyword::Import),
    (b"lambda", Keyword::Lambda),
    (b"return", Keyword::Return),
];

/// The keywords of seven letters.
const OF_SEVEN: [(&[u8], Keyword); 1] = [(b"finally", Keyword::Finally)];

/// The keywords of eight letters.
const OF_EIGHT: [(&[u8], Keyword); 2] = [
    (b"continue", Keyword::Continue),
    (b"nonlocal", Keyword::Nonlocal),
];

/// How many bytes of ASCII at the front a name goes on with.
fn ascii_name_len(text: &[u8]) -> usize
    ensures value { result ≡ prefix_len spec.is_ascii_name_byte text.now }
    ensures within { result ≤ length text.now }
{
    text.iter()
        .take_while(|byte| byte.is_ascii_alphanumeric() || **byte == b'_')
        .count()
}

/// How many bytes at the front are characters that a name goes on with.
fn character_name_len(text: &str) -> usize
    ensures { result ≡ spec.name_len text.now }
{
    let mut len = 0;
    for character in text.chars() {
        if !is_xid_continue(character) {
            return len;
        }
        len += character.len_utf8();
    }
    len
}

/// How many bytes the name at the front takes.
pub(crate) fn name_len(text: &str) -> usize
    ensures value { result ≡ spec.name_len text.now }
    ensures within { result ≤ length text.now }
{
    let bytes = text.as_bytes();
    let len = ascii_name_len(bytes);
    if byte_at(bytes, len).is_ascii() {
        return len;
    }
    let (_, rest) = text.split_at(len);
    len + character_name_len(rest)
}

/// Whether two spellings are the same; their first bytes alone tell it of most.
fn is_same(one: &[u8], other: &[u8]) -> bool
    ensures { result ≡ bytes_eq one.now other.now }
{
    byte_at(one, 0) == byte_at(other, 0) && one == other
}

/// The keyword that the table has under this spelling.
fn keyword_in(mut table: &[(&[u8], Keyword)], name: &[u8]) -> Option<Keyword>
    ensures { result ≡ spec.keyword_in (map (λ entry. (entry.0.now, entry.1)) table.entry.now) name.now }
{
    while let [entry, rest @ ..] = table {
        if is_same(entry.0, name) {
            return Some(entry.1);
        }
        table = rest;
    }
    None
}

/// The keyword that is spelled so.
fn keyword_of(name: &[u8]) -> Option<Keyword>
    ensures { result ≡ spec.keyword_of name.now }
{
    match name.len() {
        2 => keyword_in(&OF_TWO, name),
        3 => keyword_in(&OF_THREE, name),
        4 => keyword_in(&OF_FOUR, name),
        5 => keyword_in(&OF_FIVE, name),
        6 => keyword_in(&OF_SIX, name),
        7 => keyword_in(&OF_SEVEN, name),
        8 => keyword_in(&OF_EIGHT, name),
        _ => None,
    }
}

/// Which of the words that are keywords in some places alone is spelled so.
fn word_in(name: &[u8]) -> Word
    ensures { result ≡ spec.word_in name.now }
{
    if name == b"match".as_slice() {
        Word::Match
    } else if name == b"case".as_slice() {
        Word::Case
    } else if name == b"type".as_slice() {
        Word::Type
    } else {
        Word::Other
    }
}

/// Which of those words a name is.
#[tactic(auto, unfolding(crate::specs::Names::word_of))]
fn word_of(alloc: Global, name: &str) -> Result<Word, AllocError>
    ensures { IfOk result (λ word. word ≡ spec.word_of name.now) }
{
    if name.is_ascii() {
        return Ok(word_in(name.as_bytes()));
    }
    let normal = to_nfkc(alloc, name)?;
    Ok(word_in(normal.as_bytes()))
}

/// The kind of a name: a keyword as it is spelled, else a name.
#[tactic(auto, unfolding(crate::specs::Names::kind_of_name))]
pub fn kind_of_name(alloc: Global, name: &str) -> Result<Kind, AllocError>
    ensures { IfOk result (λ kind. kind ≡ spec.kind_of_name name.now) }
{
    match keyword_of(name.as_bytes()) {
        Some(keyword) => Ok(Kind::Keyword(keyword)),
        None => Ok(Kind::Name(word_of(alloc, name)?)),
    }
}
