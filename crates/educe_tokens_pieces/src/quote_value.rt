//! The values of string literals that are not raw (Rust Reference, String literals).
ghost use Rattle.std.specs.Prelude.{◌≡◌, ◌++◌, IsTrue, IfOk, OnOk, List, drop, string_bytes, option_to_list};
ghost use Rattle.std.specs.Str.{chars};
ghost use Rattle.educe_tokens_pieces.specs.Quotes.{IsBody, Part, value_of};
ghost use Rattle.educe_tokens_pieces.specs.Machine.{given, is_str};
ghost use Rattle.educe_tokens_pieces.specs.declared.quotes.Within.{Within};
ghost use Rattle.educe_tokens_pieces.specs.declared.quotes.Quote.{Quote};

use crate::quotes::{Next, Quote, Within, gives, step};
use std::alloc::{AllocError, Global};

fn push_given(value: &mut String, given: Option<char>) -> Result<(), AllocError>
    ensures { OnOk result (chars (string_bytes value.new) ≡ chars (string_bytes value.old) ++ option_to_list given) }
{
    match given {
        Some(c) => value.push(c),
        None => Ok(()),
    }
}

/// The value of a string literal that is not raw; for any other text, the value of its characters
/// up to the first error. Fails only when out of memory (Rust Reference, String literals).
pub fn str_value(alloc: Global, literal: &str) -> Result<String, AllocError>
    ensures given { IfOk result (λ s. chars (string_bytes s) ≡ given (Within.Open Quote.Str) (drop 1 (chars literal.now))) }
    ensures value { IfOk result (λ s. (parts : List Part) → IsBody Quote.Str (drop 1 (chars literal.now)) parts →
        chars (string_bytes s) ≡ value_of parts) }
    ensures parts { IsTrue (is_str (chars literal.now)) →
        IfOk result (λ s. (parts : List Part) × IsBody Quote.Str (drop 1 (chars literal.now)) parts ×
        (chars (string_bytes s) ≡ value_of parts)) }
{
    let mut value = String::new(alloc);
    let mut within = Within::Open(Quote::Str);
    for c in literal.chars().skip(1) {
        match step(within, c) {
            Next::Go(more) => {
                push_given(&mut value, gives(within, c))?;
                within = more;
            }
            Next::End | Next::Stop => return Ok(value),
        }
    }
    Ok(value)
}
