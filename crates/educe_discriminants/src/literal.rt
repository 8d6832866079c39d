//! The values of explicit discriminants.
ghost use Rattle.std.specs.Prelude.{◌≡◌};
ghost use Rattle.educe_discriminants.specs.Literals as spec;

use crate::number::Number;
use educe_tokens::{Token, int_value};

/// The value of the tokens, if they are an integer literal or a minus and one; a suffix is ignored
/// (Rust Reference, Integer literal expressions; Negation operators).
pub fn literal_number(tokens: &[Token]) -> Option<Number>
    ensures { result ≡ spec.literal_number tokens.now }
{
    match tokens {
        [number] => Some(Number::new(int_value(number)?)),
        [minus, number] => {
            if minus.spelling.spells("-") {
                Some(Number::negated(int_value(number)?))
            } else {
                None
            }
        }
        _ => None,
    }
}
