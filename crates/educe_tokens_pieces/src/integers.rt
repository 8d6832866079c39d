//! Integers (Rust Reference, Integer literals).
ghost use Rattle.std.specs.Prelude.{◌≡◌, ◌≤◌, ◌<◌, ◌^◌, ◌==◌, ◌||◌, IsTrue, Some, [], ◌∷◌, length, chars};
ghost use Rattle.std.specs.Option.{SomeIff};
ghost use Rattle.std.specs.List.{list_all};
ghost use Rattle.std.specs.Char.{is_ascii_digit};
ghost use Rattle.educe_tokens_pieces.specs.Chars.{begins};
ghost use Rattle.educe_tokens_pieces.specs.Integers.{radix, mark_length, base_behind, base_of, is_digit_or_mark, unmarked, digit_count, digits_of, suffix_of, is_integer_type, has_int_form, fits_u128, is_int, int_value_of, makes_float};
ghost use Rattle.educe_tokens_pieces.specs.Numbers.{is_int_suffix, has_digit, with_digit, digits_number};

use crate::chars::is_word_start;

/// The base in which an integer is written.
#[derive(Clone, Copy)]
pub enum Base {
    Binary,
    Octal,
    Decimal,
    Hexadecimal,
}

pub(crate) fn begins_digit(text: &[char]) -> bool
    ensures { result ≡ begins is_ascii_digit text.now }
{
    matches!(text, [c, ..] if c.is_ascii_digit())
}

/// Whether the rest turns the digits before it into a float: a `.`, not followed by `.`, `_` or
/// XID_Start (Rust Reference, Floating-point literals).
pub(crate) fn makes_float(rest: &[char]) -> bool
    ensures { result ≡ makes_float rest.now }
{
    match rest {
        ['.'] => true,
        ['.', second, ..] => !(*second == '.' || is_word_start(*second)),
        _ => false,
    }
}

fn radix(base: Base) -> u32
    ensures { result ≡ radix base }
{
    match base {
        Base::Binary => 2,
        Base::Octal => 8,
        Base::Decimal => 10,
        Base::Hexadecimal => 16,
    }
}

/// The length of the radix prefix: none for decimal integers.
fn mark_length(base: Base) -> usize
    ensures { result ≡ mark_length base }
{
    match base {
        Base::Decimal => 0,
        _ => 2,
    }
}

/// The base that the character after a leading `0` selects.
fn base_behind(mark: char) -> Base
    ensures { result ≡ base_behind (mark ∷ []) }
{
    match mark {
        'b' => Base::Binary,
        'o' => Base::Octal,
        'x' => Base::Hexadecimal,
        _ => Base::Decimal,
    }
}

/// The base of an integer, by its radix prefix.
fn base_of(spelling: &[char]) -> Base
    ensures { result ≡ base_of spelling.now }
{
    match spelling {
        ['0', mark, ..] => base_behind(*mark),
        _ => Base::Decimal,
    }
}

fn is_digit_or_mark(base: Base, c: char) -> bool
    ensures { result ≡ is_digit_or_mark base c }
{
    c.is_digit(radix(base)) || c == '_'
}

/// The spelling after its radix prefix.
fn unmarked(spelling: &[char]) -> &[char]
    ensures { result.now ≡ unmarked spelling.now }
{
    &spelling[mark_length(base_of(spelling))..]
}

/// The number of digits and `_` after the radix prefix.
fn digit_count(spelling: &[char]) -> usize
    ensures value { result ≡ digit_count spelling.now }
    ensures within { result ≤ length (unmarked spelling.now) }
{
    let base = base_of(spelling);
    unmarked(spelling)
        .iter()
        .take_while(|c| is_digit_or_mark(base, **c))
        .count()
}

/// The digits of an integer, `_` among them.
fn digits_of(spelling: &[char]) -> &[char]
    ensures { result.now ≡ digits_of spelling.now }
{
    &unmarked(spelling)[..digit_count(spelling)]
}

/// What follows the digits of an integer.
pub(crate) fn suffix_of(spelling: &[char]) -> &[char]
    ensures { result.now ≡ suffix_of spelling.now }
{
    &unmarked(spelling)[digit_count(spelling)..]
}

/// A type of integers, as `u8`.
#[tactic(auto, unfolding(crate::specs::Integers::is_integer_type))]
fn is_integer_type(suffix: &[char]) -> bool
    ensures { result ≡ is_integer_type suffix.now }
{
    match suffix {
        ['u' | 'i', size @ ..] => matches!(
            size,
            ['8'] | ['1', '6'] | ['3', '2'] | ['6', '4'] | ['1', '2', '8'] | ['s', 'i', 'z', 'e']
        ),
        _ => false,
    }
}

/// Whether the suffix is empty or an integer type.
fn is_int_suffix(suffix: &[char]) -> bool
    ensures { result ≡ is_int_suffix suffix.now }
{
    suffix.is_empty() || is_integer_type(suffix)
}

/// Whether at least one digit of the base is in the list.
fn has_digit(base: Base, digits: &[char]) -> bool
    ensures { result ≡ has_digit base digits.now }
{
    let radix = radix(base);
    digits.iter().any(|c| c.is_digit(radix))
}

/// Whether the spelling has the form of an integer, of any size.
pub(crate) fn has_int_form(spelling: &[char]) -> bool
    ensures { result ≡ has_int_form spelling.now }
{
    begins_digit(spelling)
        && has_digit(base_of(spelling), digits_of(spelling))
        && is_int_suffix(suffix_of(spelling))
}

/// The value with one more digit, or with one more `_`, if it fits in `u128`.
fn with_digit(base: Base, value: u128, c: char) -> Option<u128>
    requires { IsTrue (is_digit_or_mark base c) }
    ensures { SomeIff result (with_digit base value c < 2 ^ 128) (with_digit base value c) }
{
    if c == '_' {
        Some(value)
    } else {
        let digit = c.to_digit(radix(base))?;
        value
            .checked_mul(u128::from(radix(base)))?
            .checked_add(u128::from(digit))
    }
}

/// The number that digits write, `_` ignored, if it fits in `u128`.
fn digits_number(base: Base, digits: &[char]) -> Option<u128>
    requires { IsTrue (list_all (is_digit_or_mark base) digits.now) }
    ensures { SomeIff result (digits_number base digits.now < 2 ^ 128) (digits_number base digits.now) }
{
    let mut value: u128 = 0;
    for c in digits {
        value = with_digit(base, value, *c)?;
    }
    Some(value)
}

/// Whether the value of the integer fits in `u128`.
pub(crate) fn fits_u128(spelling: &[char]) -> bool
    ensures { result ≡ fits_u128 spelling.now }
{
    digits_number(base_of(spelling), digits_of(spelling)).is_some()
}

/// The base of an integer, by the radix prefix among its bytes.
fn base_of_bytes(bytes: &[u8]) -> Base
    ensures { result ≡ base_of bytes.now }
{
    match bytes {
        [b'0', mark, ..] => base_behind(char::from(*mark)),
        _ => Base::Decimal,
    }
}

/// The value of an integer literal, at most 2^128 - 1 (Rust Reference, Integer literals). It is
/// never None for the spelling of an integer token.
pub fn int_value(text: &str) -> Option<u128>
    requires { IsTrue (is_int (chars text.now)) }
    ensures { result ≡ Some (int_value_of (chars text.now)) }
{
    let base = base_of_bytes(text.as_bytes());
    let mut value: u128 = 0;
    for c in text
        .chars()
        .skip(mark_length(base))
        .take_while(|c| is_digit_or_mark(base, *c))
    {
        value = with_digit(base, value, c)?;
    }
    Some(value)
}
