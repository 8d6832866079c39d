//! Floats, which are unsupported literals (Rust Reference, Floating-point literals).
ghost use Rattle.std.specs.Prelude.{◌≡◌, ◌≤◌, ◌+◌, ◌==◌, ◌||◌, length};
ghost use Rattle.std.specs.List.{list_any, prefix_len};
ghost use Rattle.std.specs.Char.{is_ascii_digit};
ghost use Rattle.educe_tokens_pieces.specs.Floats.{is_decimal_part, behind_digits, is_float_type, is_float_suffix, unsigned, is_exponent_number, is_exponent, ends_float, is_fraction, is_float_tail, ends_with_dot};
ghost use Rattle.educe_tokens_pieces.specs.Numbers.{is_exponent_mark, is_sign, end_len, fraction_len, tail_len};

use crate::integers::{begins_digit, makes_float};
use crate::words::continue_len;

/// How many decimal digits and `_` stand at the front.
pub(crate) fn digits_len(text: &[char]) -> usize
    ensures value { result ≡ prefix_len is_decimal_part text.now }
    ensures within { result ≤ length text.now }
{
    text.iter()
        .take_while(|c| c.is_ascii_digit() || **c == '_')
        .count()
}

/// What stands behind the digits and `_` at the front.
fn behind_digits(text: &[char]) -> &[char]
    ensures { result.now ≡ behind_digits text.now }
{
    &text[digits_len(text)..]
}

/// `f32` or `f64`.
#[tactic(auto, unfolding(crate::specs::Floats::is_float_type))]
fn is_float_type(suffix: &[char]) -> bool
    ensures { result ≡ is_float_type suffix.now }
{
    matches!(suffix, ['f', '3', '2'] | ['f', '6', '4'])
}

fn is_float_suffix(suffix: &[char]) -> bool
    ensures { result ≡ is_float_suffix suffix.now }
{
    suffix.is_empty() || is_float_type(suffix)
}

fn is_sign(c: char) -> bool
    ensures { result ≡ is_sign c }
{
    matches!(c, '+' | '-')
}

fn is_exponent_mark(c: char) -> bool
    ensures { result ≡ is_exponent_mark c }
{
    matches!(c, 'e' | 'E')
}

/// The text without the sign in front, if there is one.
fn unsigned(text: &[char]) -> &[char]
    ensures { result.now ≡ unsigned text.now }
{
    match text {
        [sign, rest @ ..] if is_sign(*sign) => rest,
        _ => text,
    }
}

fn has_digit(digits: &[char]) -> bool
    ensures { result ≡ list_any is_ascii_digit digits.now }
{
    digits.iter().any(|c| c.is_ascii_digit())
}

/// Digits and `_`, a digit among them, and a suffix or none.
fn is_exponent_number(text: &[char]) -> bool
    ensures { result ≡ is_exponent_number text.now }
{
    has_digit(&text[..digits_len(text)]) && is_float_suffix(behind_digits(text))
}

/// `e` or `E`, a sign or none, and the number.
fn is_exponent(text: &[char]) -> bool
    ensures { result ≡ is_exponent text.now }
{
    match text {
        [mark, rest @ ..] => is_exponent_mark(*mark) && is_exponent_number(unsigned(rest)),
        _ => false,
    }
}

/// What ends a float whose last digits stand before it: nothing, a suffix, or an exponent.
fn ends_float(text: &[char]) -> bool
    ensures { result ≡ ends_float text.now }
{
    is_float_suffix(text) || is_exponent(text)
}

/// A digit, more of them and `_`, and an end.
fn is_fraction(text: &[char]) -> bool
    ensures { result ≡ is_fraction text.now }
{
    begins_digit(text) && ends_float(behind_digits(text))
}

/// What makes the digits before it a float: a `.` alone, a `.` and a fraction, or an end that is
/// not empty.
pub(crate) fn is_float_tail(tail: &[char]) -> bool
    ensures { result ≡ is_float_tail tail.now }
{
    match tail {
        ['.', rest @ ..] => rest.is_empty() || is_fraction(rest),
        [_, ..] => ends_float(tail),
        _ => false,
    }
}

/// The float is digits and a `.` alone.
pub(crate) fn ends_with_dot(spelling: &[char]) -> bool
    ensures { result ≡ ends_with_dot spelling.now }
{
    matches!(behind_digits(spelling), ['.'])
}

/// How many characters belong to the end of a float.
fn end_len(text: &[char]) -> usize
    ensures value { result ≡ end_len text.now }
    ensures within { result ≤ length text.now }
{
    match text {
        [mark, sign, rest @ ..] if is_exponent_mark(*mark) && is_sign(*sign) => 2
            + continue_len(rest),
        _ => continue_len(text),
    }
}

/// How many belong to the digits behind a `.` and the end behind them.
fn fraction_len(text: &[char]) -> usize
    ensures value { result ≡ fraction_len text.now }
    ensures within { result ≤ length text.now }
{
    let digits = digits_len(text);
    digits + end_len(&text[digits..])
}

/// How many characters belong to what may make the digits before it a float.
pub(crate) fn tail_len(text: &[char]) -> usize
    ensures value { result ≡ tail_len text.now }
    ensures within { result ≤ length text.now }
{
    match text {
        [_, rest @ ..] if makes_float(text) => 1 + fraction_len(rest),
        _ => end_len(text),
    }
}
