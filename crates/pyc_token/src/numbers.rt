//! Numbers.

ghost use Rattle.std.specs.Prelude.{◌≡◌, ◌≤◌, ◌+◌, ◌<◌, ◌==◌, ◌||◌, length, slice_index, drop};
ghost use Rattle.pyc_token.specs.Numbers as spec;

use crate::characters::byte_at;
use crate::tokens::Number;

/// The base of a number.
#[derive(Clone, Copy, Debug, PartialEq, Eq)]
pub(crate) enum Base {
    Two,
    Eight,
    Ten,
    Sixteen,
}

/// Whether a byte is a digit of a base.
fn is_digit_of(base: Base, byte: u8) -> bool
    ensures { result ≡ spec.is_digit_of base byte }
{
    match base {
        Base::Two => byte == b'0' || byte == b'1',
        Base::Eight => b'0' <= byte && byte <= b'7',
        Base::Ten => byte.is_ascii_digit(),
        Base::Sixteen => byte.is_ascii_hexdigit(),
    }
}

/// How many bytes a row of digits takes in which an underscore may stand before each digit.
fn digit_row_len(base: Base, text: &[u8]) -> usize
    ensures value { result ≡ spec.digit_row_len base text.now }
    ensures within { result ≤ length text.now }
{
    for index in 0..text.len() {
        let byte = text[index];
        if !(is_digit_of(base, byte)
            || byte == b'_' && is_digit_of(base, byte_at(text, index + 1)))
        {
            return index;
        }
    }
    text.len()
}

/// How many bytes decimal digits take, with single underscores between them.
fn digits_len(text: &[u8]) -> usize
    ensures value { result ≡ spec.digits_len text.now }
    ensures within { result ≤ length text.now }
{
    if byte_at(text, 0).is_ascii_digit() {
        digit_row_len(Base::Ten, text)
    } else {
        0
    }
}

/// The base that a letter after `0` names.
fn base_of_letter(byte: u8) -> Option<Base>
    ensures { result ≡ spec.base_of_letter byte }
{
    match byte {
        b'x' | b'X' => Some(Base::Sixteen),
        b'o' | b'O' => Some(Base::Eight),
        b'b' | b'B' => Some(Base::Two),
        _ => None,
    }
}

/// How many bytes a point and the digits after it take.
fn fraction_len(text: &[u8]) -> usize
    ensures value { result ≡ spec.fraction_len text.now }
    ensures within { result ≤ length text.now }
{
    if byte_at(text, 0) != b'.' {
        return 0;
    }
    let (_, rest) = text.split_at(1);
    1 + digits_len(rest)
}

/// How many bytes the sign of an exponent takes.
fn sign_len(text: &[u8]) -> usize
    ensures value { result ≡ spec.sign_len text.now }
    ensures within { result ≤ length text.now }
{
    if byte_at(text, 0) == b'+' || byte_at(text, 0) == b'-' {
        1
    } else {
        0
    }
}

/// How many bytes an exponent takes, or 0 where there is none.
fn exponent_len(text: &[u8]) -> usize
    ensures value { result ≡ spec.exponent_len text.now }
    ensures within { result ≤ length text.now }
{
    if byte_at(text, 0) != b'e' && byte_at(text, 0) != b'E' {
        return 0;
    }
    let (_, rest) = text.split_at(1);
    let before = 1 + sign_len(rest);
    let (_, rest) = text.split_at(before);
    match digits_len(rest) {
        0 => 0,
        digits => before + digits,
    }
}

/// How many bytes the letter of an imaginary number takes.
fn imaginary_len(text: &[u8]) -> usize
    ensures value { result ≡ spec.imaginary_len text.now }
    ensures within { result ≤ length text.now }
{
    if byte_at(text, 0) == b'j' || byte_at(text, 0) == b'J' {
        1
    } else {
        0
    }
}

/// What a number is, from the lengths of its fraction and exponent and of its letter.
fn number_of(part: usize, letter: usize) -> Number
    ensures { result ≡ spec.number_of part letter }
{
    if letter > 0 {
        Number::Imaginary
    } else if part > 0 {
        Number::Float
    } else {
        Number::Integer
    }
}

/// The decimal number at the front and its length.
#[tactic(auto, unfolding(crate::specs::Numbers::decimal_number))]
fn decimal_number(text: &[u8]) -> (Number, usize)
    ensures value { result ≡ spec.decimal_number text.now }
    ensures within { result.1 ≤ length text.now }
{
    let whole = digits_len(text);
    let (_, rest) = text.split_at(whole);
    let fraction = fraction_len(rest);
    let (_, rest) = rest.split_at(fraction);
    let exponent = exponent_len(rest);
    let (_, rest) = rest.split_at(exponent);
    let letter = imaginary_len(rest);
    (
        number_of(fraction + exponent, letter),
        whole + fraction + exponent + letter,
    )
}

/// The number of a named base at the front and its length, where digits follow.
fn number_in(base: Base, text: &[u8]) -> (Number, usize)
    requires { 2 ≤ length text.now }
    ensures value { result ≡ spec.number_in base text.now }
    ensures within { result.1 ≤ length text.now }
{
    let (_, rest) = text.split_at(2);
    match digit_row_len(base, rest) {
        0 => decimal_number(text),
        digits => (Number::Integer, 2 + digits),
    }
}

/// The number at the front and its length in bytes.
#[tactic(auto, unfolding(crate::specs::Numbers::number_at))]
pub(crate) fn number_at(text: &[u8]) -> (Number, usize)
    ensures value { result ≡ spec.number_at text.now }
    ensures within { result.1 ≤ length text.now }
{
    if byte_at(text, 0) != b'0' {
        return decimal_number(text);
    }
    match base_of_letter(byte_at(text, 1)) {
        Some(base) => number_in(base, text),
        None => decimal_number(text),
    }
}
