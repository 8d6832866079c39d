//! Taking tokens off the front of a slice.
ghost use Rattle.std.specs.Prelude.{◌≡◌, [], ◌∷◌, chars};
ghost use Rattle.std.specs.Str.{bytes_eq};
ghost use Rattle.educe_tokens.specs.Brackets as brackets;
ghost use Rattle.educe_text.specs.Prefixes as spec;
ghost use Rattle.educe_text.specs.Slices.{seen};

use educe_tokens::{Bracket, LiteralKind, Spelling, Token, TokenKind};

fn same_literal(own: LiteralKind, other: LiteralKind) -> bool
    ensures { result ≡ spec.same_literal own other }
{
    match (own, other) {
        (LiteralKind::Int, LiteralKind::Int) => true,
        (LiteralKind::Str, LiteralKind::Str) => true,
        (LiteralKind::ByteStr, LiteralKind::ByteStr) => true,
        (LiteralKind::Char, LiteralKind::Char) => true,
        (LiteralKind::Byte, LiteralKind::Byte) => true,
        _ => false,
    }
}

fn same_truth(own: bool, other: bool) -> bool
    ensures { result ≡ spec.same_truth own other }
{
    if own { other } else { !other }
}

fn same_bracket(own: Bracket, other: Bracket) -> bool
    ensures { result ≡ brackets.same_bracket own other }
{
    match (own, other) {
        (Bracket::Round, Bracket::Round) => true,
        (Bracket::Square, Bracket::Square) => true,
        (Bracket::Curly, Bracket::Curly) => true,
        _ => false,
    }
}

/// Whether both kinds are the same, jointness included.
fn same_kind(own: TokenKind, other: TokenKind) -> bool
    ensures { result ≡ spec.same_kind own other }
{
    match (own, other) {
        (TokenKind::Ident, TokenKind::Ident) => true,
        (TokenKind::Lifetime, TokenKind::Lifetime) => true,
        (TokenKind::Literal(l), TokenKind::Literal(m)) => same_literal(l, m),
        (TokenKind::Punct(c, i), TokenKind::Punct(d, j)) => c == d && same_truth(i, j),
        (TokenKind::Start(b), TokenKind::Start(c)) => same_bracket(b, c),
        (TokenKind::Stop(b), TokenKind::Stop(c)) => same_bracket(b, c),
        (TokenKind::Doc, TokenKind::Doc) => true,
        _ => false,
    }
}

fn is_text(spelling: &Spelling, text: &str) -> bool
    ensures { result ≡ bytes_eq spelling.now (chars text.now) }
{
    spelling.is(text)
}

/// The tokens behind the first, if that has this kind, jointness included, and this spelling.
#[tactic(auto, unfolding(crate::specs::Prefixes::strip_lexemes))]
pub fn strip_token<'a>(tokens: &'a [Token], kind: TokenKind, text: &str) -> Option<&'a [Token]>
    ensures { seen result ≡ spec.strip_lexemes (record { kind = kind; spelling = chars text.now } ∷ []) tokens.now }
{
    if tokens.is_empty() {
        return None;
    }
    let token = &tokens[0];
    if same_kind(kind, token.kind) && is_text(&token.spelling, text) {
        Some(&tokens[1..])
    } else {
        None
    }
}
