//! The texts of strings (Rust Reference, String literals).
ghost use Rattle.std.specs.Prelude.{◌≡◌, IfOk, chars};
ghost use Rattle.std.specs.Option.{option_map};
ghost use Rattle.std.specs.String.{string_bytes};
ghost use Rattle.educe_attrs_values.specs.Texts as spec;

use educe_tokens::{LiteralKind, Spelling, Token, TokenKind, string_value};
use std::alloc::{AllocError, Global};

/// The text of a string.
fn string_text(alloc: Global, token: &Token) -> Result<Option<String>, AllocError>
    requires { token.now.kind ≡ TokenKind.Literal LiteralKind.Str }
    ensures { IfOk result (λ text.
        option_map (λ s. chars (string_bytes s)) text ≡ spec.text_in token.now) }
{
    string_value(alloc, token)
}

/// The text of a string; another token has none.
fn text_in(alloc: Global, token: &Token) -> Result<Option<String>, AllocError>
    ensures { IfOk result (λ text.
        option_map (λ s. chars (string_bytes s)) text ≡ spec.text_in token.now) }
{
    match token.kind {
        TokenKind::Literal(LiteralKind::Str) => string_text(alloc, token),
        _ => Ok(None),
    }
}

/// The characters of the text of a string.
fn spelled_text(alloc: Global, token: &Token) -> Result<Option<Spelling>, AllocError>
    ensures { IfOk result (λ text. text ≡ spec.text_in token.now) }
{
    match text_in(alloc, token)? {
        Some(text) => Ok(Some(Spelling::from_str(alloc, text.as_str())?)),
        None => Ok(None),
    }
}

/// The text of the string that is the only token.
pub fn only_text(alloc: Global, tokens: &[Token]) -> Result<Option<Spelling>, AllocError>
    ensures { IfOk result (λ text. text ≡ spec.only_text tokens.now) }
{
    match tokens {
        [token] => spelled_text(alloc, token),
        _ => Ok(None),
    }
}
