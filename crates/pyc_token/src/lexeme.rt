//! Cuts the longest lexeme off the front of a text.

ghost use Rattle.std.specs.Prelude.{◌≡◌, ◌<◌, ◌≤◌, ◌+◌, length, slice_index, drop, true};
ghost use Rattle.pyc_token.specs.Characters.{is_quote as is_quote_byte};
ghost use Rattle.pyc_token.specs.Characters.{is_name_start, line_end_len};
ghost use Rattle.pyc_token.specs.Numbers.{number_at};
ghost use Rattle.pyc_token.specs.Operators.{operator_at};
ghost use Rattle.std.specs.Str.{chars};
ghost use Rattle.pyc_token.specs.Cuts as spec;

use crate::characters::{
    blank_len, byte_at, comment_len, is_blank, is_line_end, is_quote, line_end_len,
};
use crate::names::name_len;
use crate::numbers::number_at;
use crate::operators::operator_at;
use crate::strings::{has_open_field, is_format, prefix_of, string_len};
use crate::tokens::{Kind, Prefix};
use unicode_ident::is_xid_start;

/// What a run of bytes is.
#[derive(Clone, Copy, Debug, PartialEq, Eq)]
pub enum Lexeme {
    /// A name, which may be a keyword.
    Name,
    /// A token of another kind.
    Token(Kind),
    Blank,
    Comment,
    LineEnd,
    /// A backslash with the line end after it.
    Joined,
}

/// Why no lexeme stands at the front of a text.
#[derive(Clone, Copy, Debug, PartialEq, Eq)]
pub enum CutFault {
    BadCharacter,
    OpenString,
}

/// A lexeme and its length in bytes.
type FirstLexeme = Result<(Lexeme, usize), CutFault>;

/// The string whose token has this text.
fn string_token(prefix: Prefix, text: &[u8]) -> FirstLexeme
    ensures { result ≡ spec.string_token prefix (length text.now) text.now }
{
    if is_format(prefix) && has_open_field(text) {
        Err(CutFault::OpenString)
    } else {
        Ok((Lexeme::Token(Kind::String(prefix)), text.len()))
    }
}

/// The string at the front, whose prefix takes so many bytes.
#[tactic(auto, unfolding(crate::specs::Cuts::string_front))]
fn string_front(prefix: Prefix, before: usize, text: &[u8]) -> FirstLexeme
    requires { is_quote_byte (slice_index text.now before) ≡ true }
    ensures { result ≡ spec.string_front prefix before text.now }
{
    let (_, string) = text.split_at(before);
    match string_len(string) {
        Some(len) => {
            let (token, _) = text.split_at(before + len);
            string_token(prefix, token)
        }
        None => Err(CutFault::OpenString),
    }
}

/// The longest name, or the string whose prefix it is.
#[tactic(auto, unfolding(crate::specs::Cuts::name_front))]
fn name_front(text: &str) -> FirstLexeme
    ensures { result ≡ spec.name_front text.now }
{
    let len = name_len(text);
    let bytes = text.as_bytes();
    if !is_quote(byte_at(bytes, len)) {
        return Ok((Lexeme::Name, len));
    }
    let (name, _) = bytes.split_at(len);
    match prefix_of(name) {
        Some(prefix) => string_front(prefix, len, bytes),
        None => Ok((Lexeme::Name, len)),
    }
}

/// The operator at the front.
fn operator_front(text: &[u8]) -> FirstLexeme
    ensures { result ≡ spec.operator_front (operator_at text.now) }
{
    match operator_at(text) {
        Some((kind, len)) => Ok((Lexeme::Token(kind), len)),
        None => Err(CutFault::BadCharacter),
    }
}

/// Whether a name starts here.
fn begins_name(text: &str) -> bool
    requires { 0 < length text.now }
    ensures { result ≡ is_name_start (slice_index (chars text.now) 0) }
{
    let first = text.as_bytes()[0];
    if first.is_ascii() {
        return first.is_ascii_alphabetic() || first == b'_';
    }
    match text.chars().next() {
        Some(character) => is_xid_start(character),
        None => false,
    }
}

/// Whether a number begins here.
fn begins_number(text: &[u8]) -> bool
    ensures { result ≡ spec.begins_number text.now }
{
    byte_at(text, 0).is_ascii_digit()
        || byte_at(text, 0) == b'.' && byte_at(text, 1).is_ascii_digit()
}

/// Whether a backslash and a line end stand here.
fn begins_line_join(text: &[u8]) -> bool
    ensures { result ≡ spec.begins_line_join text.now }
{
    byte_at(text, 0) == b'\\' && is_line_end(byte_at(text, 1))
}

/// How many bytes the backslash and the line end take.
fn line_join_len(text: &[u8]) -> usize
    requires { spec.begins_line_join text.now ≡ true }
    ensures value { result ≡ 1 + line_end_len (drop 1 text.now) }
    ensures within { result ≤ length text.now }
{
    let (_, rest) = text.split_at(1);
    1 + line_end_len(rest)
}

/// The number at the front.
fn number_front(text: &[u8]) -> FirstLexeme
    ensures { result ≡ spec.number_front (number_at text.now) }
{
    let (number, len) = number_at(text);
    Ok((Lexeme::Token(Kind::Number(number)), len))
}

/// The longest lexeme at the front of a text.
#[tactic(auto, unfolding(crate::specs::Cuts::cut_first_lexeme))]
pub fn cut_first_lexeme(text: &str) -> FirstLexeme
    requires { 0 < length text.now }
    ensures { result ≡ spec.cut_first_lexeme text.now }
{
    let bytes = text.as_bytes();
    let first = bytes[0];
    if is_blank(first) {
        Ok((Lexeme::Blank, blank_len(bytes)))
    } else if is_line_end(first) {
        Ok((Lexeme::LineEnd, line_end_len(bytes)))
    } else if first == b'#' {
        Ok((Lexeme::Comment, comment_len(bytes)))
    } else if begins_line_join(bytes) {
        Ok((Lexeme::Joined, line_join_len(bytes)))
    } else if is_quote(first) {
        string_front(Prefix::Plain, 0, bytes)
    } else if begins_number(bytes) {
        number_front(bytes)
    } else if begins_name(text) {
        name_front(text)
    } else {
        operator_front(bytes)
    }
}
