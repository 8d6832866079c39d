//! Keys of token lists: numbers that are equal exactly where the tokens are, spans and jointness aside.
ghost use Rattle.std.specs.Prelude.{◌≡◌, ℕ, suc, List, ◌++◌, map, IfOk, OnOk, chars};
ghost use Rattle.educe_tokens.specs.Same.{AreSameTokens};
ghost use Rattle.educe_tokens_interner.specs.Keys as spec;
ghost use Rattle.educe_tokens_interner.specs.Interned.{Tells};

use educe_tokens::{Bracket, LiteralKind, Spelling, Token, TokenKind};
use std::alloc::{AllocError, Global};

/// The number of a kind; jointness makes no difference.
fn kind_number(kind: TokenKind) -> u32
    ensures { result ≡ spec.kind_number kind }
{
    match kind {
        TokenKind::Ident => 0,
        TokenKind::Lifetime => 1,
        TokenKind::Literal(LiteralKind::Int) => 2,
        TokenKind::Literal(LiteralKind::Str) => 3,
        TokenKind::Literal(LiteralKind::ByteStr) => 4,
        TokenKind::Literal(LiteralKind::Char) => 5,
        TokenKind::Literal(LiteralKind::Byte) => 6,
        TokenKind::Punct(_, _) => 7,
        TokenKind::Start(Bracket::Round) => 8,
        TokenKind::Start(Bracket::Square) => 9,
        TokenKind::Start(Bracket::Curly) => 10,
        TokenKind::Stop(Bracket::Round) => 11,
        TokenKind::Stop(Bracket::Square) => 12,
        TokenKind::Stop(Bracket::Curly) => 13,
        TokenKind::Doc => 14,
    }
}

/// The character of a punct.
fn kind_char(kind: TokenKind) -> u32
    ensures { result ≡ spec.kind_char kind }
{
    match kind {
        TokenKind::Punct(c, _) => c as u32,
        TokenKind::Ident
        | TokenKind::Lifetime
        | TokenKind::Literal(_)
        | TokenKind::Start(_)
        | TokenKind::Stop(_)
        | TokenKind::Doc => 0,
    }
}

/// Appends the characters of a text, each as the number behind its own.
fn append_chars(text: &str, key: &mut Vec<u32>) -> Result<(), AllocError>
    ensures ok { OnOk result (key.new.items ≡ key.old.items ++ map suc (chars text.now)) }
{
    for c in text.chars() {
        key.push(c as u32 + 1)?;
    }
    Ok(())
}

/// Appends the numbers of a word.
fn append_word(kind: TokenKind, text: &Spelling, key: &mut Vec<u32>) -> Result<(), AllocError>
    ensures ok { OnOk result (key.new.items ≡ key.old.items ++ spec.word_key kind text.now) }
{
    key.push(kind_number(kind))?;
    key.push(kind_char(kind))?;
    append_chars(text.as_str(), key)?;
    key.push(0)?;
    Ok(())
}

/// Appends the numbers of a token.
#[tactic(auto, unfolding(crate::specs::Keys::token_key))]
fn append_token(token: &Token, key: &mut Vec<u32>) -> Result<(), AllocError>
    ensures ok { OnOk result (key.new.items ≡ key.old.items ++ spec.token_key token.now) }
{
    append_word(token.kind, &token.spelling, key)
}

/// The key of a list of tokens, spans and jointness aside: lists of equal tokens have the same key.
pub(crate) fn key_of_tokens(alloc: Global, tokens: &[Token]) -> Result<Vec<u32>, AllocError>
    ensures { IfOk result (λ key. key.items ≡ spec.tokens_key tokens.now) }
{
    let mut key = Vec::new(alloc);
    for token in tokens {
        append_token(token, &mut key)?;
    }
    Ok(key)
}

/// Whether both lists have the same tokens, spans and jointness aside.
pub fn are_same(alloc: Global, one: &[Token], other: &[Token]) -> Result<bool, AllocError>
    ensures { IfOk result (λ yes. Tells yes (AreSameTokens one.now other.now)) }
{
    let first = key_of_tokens(alloc, one)?;
    let second = key_of_tokens(alloc, other)?;
    Ok(first.as_slice() == second.as_slice())
}
