//! The values of literals and of documentation.
ghost use Rattle.std.specs.Prelude.{◌≡◌, ◌==◌, IsTrue, IfOk, IfSome, IfNone, chars};
ghost use Rattle.educe_tokens_pieces.specs.Chars.{begins};
ghost use Rattle.educe_tokens_pieces.specs.Pieces.{spells};
ghost use Rattle.std.specs.Option.{option_map};
ghost use Rattle.std.specs.String.{string_bytes};
ghost use Rattle.educe_tokens.specs.Lexes.{lexeme_of};
ghost use Rattle.educe_tokens.specs.IntValue.{int_value};
ghost use Rattle.educe_tokens.specs.StringValue.{IsString, IsStringValue, text_in};

use crate::token::Token;
use educe_tokens_pieces::{LiteralKind, TokenKind, doc_value, raw_value, str_value};
use std::alloc::{AllocError, Global};

/// The value of an integer literal, its suffix aside, and none of any other token (Rust Reference,
/// Integer literals).
pub fn int_value(token: &Token) -> Option<u128>
    ensures { result ≡ int_value (lexeme_of token.now) }
{
    match token.kind {
        TokenKind::Literal(LiteralKind::Int) => educe_tokens_pieces::int_value(
            token.spelling.as_str(),
        ),
        _ => None,
    }
}

/// The value of a string literal with its escapes resolved, or the text of documentation without
/// `///`, `/**` and `*/`; any other token has none (Rust Reference, String literals, Doc comments).
pub fn string_value(alloc: Global, token: &Token) -> Result<Option<String>, AllocError>
    ensures some { IfOk result (λ value. IfSome value (λ text.
        IsStringValue (lexeme_of token.now) (chars (string_bytes text)))) }
    ensures none { IfOk result (λ value. IfNone value (IsString token.now.kind → ⊥)) }
    // The value is a function of the token.
    ensures value { IfOk result (λ value. option_map (λ text. chars (string_bytes text)) value ≡ text_in token.now) }
{
    match token.kind {
        TokenKind::Literal(LiteralKind::Str) => {
            Ok(Some(literal_value(alloc, token.spelling.as_str())?))
        }
        TokenKind::Doc => {
            let text = doc_value(token.spelling.as_str());
            Ok(Some(String::from_str(alloc, text)?))
        }
        _ => Ok(None),
    }
}

/// Whether a literal begins as a raw one does.
fn begins_raw(literal: &str) -> bool
    ensures { result ≡ begins (λ c. c == 114) (chars literal.now) }
{
    match literal.chars().next() {
        Some(first) => first == 'r',
        None => false,
    }
}

/// The value of a string literal, raw or not.
fn literal_value(alloc: Global, literal: &str) -> Result<String, AllocError>
    requires { IsTrue (spells (TokenKind.Literal LiteralKind.Str) (chars literal.now)) }
    ensures { IfOk result (λ text. IsStringValue
        (record { kind = TokenKind.Literal LiteralKind.Str; spelling = chars literal.now })
        (chars (string_bytes text))) }
{
    if begins_raw(literal) {
        String::from_str(alloc, raw_value(literal))
    } else {
        str_value(alloc, literal)
    }
}
