//! Integers of 64 bits.
ghost use Rattle.std.specs.Prelude.{◌≡◌, ◌<◌};
ghost use Rattle.educe_tokens.specs.Lexes.{lexeme_of};
ghost use Rattle.educe_attrs_values.specs.Integers as spec;

use educe_syntax::Terminal;
use educe_tokens::{Spelling, Token, int_value};

/// The magnitude of the least integer of 64 bits.
const LIMIT: u128 = 1 << 63;

/// The integer with this magnitude, negated or not, if it is an `i64`.
fn integer_of(negated: bool, magnitude: u128) -> Option<i64>
    ensures { result ≡ spec.integer_of negated magnitude }
{
    if negated {
        if magnitude <= LIMIT {
            Some((-(magnitude as i128)) as i64)
        } else {
            None
        }
    } else if magnitude < LIMIT {
        Some(magnitude as i64)
    } else {
        None
    }
}

/// The value of an integer literal, negated or not; none where it is no `i64`, or the token is no
/// integer (Rust Reference, Integer literals).
fn integer_value(negated: bool, token: &Token) -> Option<i64>
    ensures { result ≡ spec.integer_value negated (lexeme_of token.now) }
{
    let magnitude = int_value(token)?;
    integer_of(negated, magnitude)
}

/// The integer that tokens write: a literal, or `-` and a literal.
pub fn signed_in(tokens: &[Token]) -> Option<i64>
    ensures { result ≡ spec.signed_in tokens.now }
{
    match tokens {
        [number] => integer_value(false, number),
        [minus, number] if Terminal::Sign('-').accepts(minus) => integer_value(true, number),
        _ => None,
    }
}

/// The integer that a text writes: an optional sign and decimal digits.
pub fn decimal_in(text: &str) -> Option<i64>
    ensures { result ≡ spec.decimal_in text.now }
{
    text.parse::<i64>().ok()
}
