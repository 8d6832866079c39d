//! The words of tokens: names without `r#`, lifetimes without `'`, and the runs of XID_Continue in
//! strings and documentation (Rust Reference, Identifiers; Lifetimes and loop labels; String
//! literals; Doc comments).
ghost use Rattle.std.specs.Prelude.{◌≡◌, ◌↔◌, ◌∷◌, not, IsTrue, IfOk, chars};
ghost use Rattle.std.specs.List.{list_any};
ghost use Rattle.std.specs.Str.{bytes_eq};
ghost use Rattle.unicode_ident.specs.Ident.{is_xid_continue};
ghost use Rattle.educe_tokens.specs.Lexes.{lexeme_of};
ghost use Rattle.educe_names.specs.Words.{HasWord, IsRunOf, IsWordOf, parts};

use educe_tokens::{Spelling, Token, TokenKind, string_value};
use educe_tree::unraw;
use std::alloc::{AllocError, Global};
use unicode_ident::is_xid_continue;

/// Whether the word is one of the tokens': a name without `r#`, a lifetime without `'`, or a
/// maximal run of XID_Continue in the value of a string or of documentation. Fails only when out of
/// memory.
pub fn has_word(alloc: Global, tokens: &[Token], name: &str) -> Result<bool, AllocError>
    ensures { IfOk result (λ found. IsTrue found ↔ HasWord tokens.now (chars name.now)) }
{
    for token in tokens {
        if is_word_of(alloc, token, name)? {
            return Ok(true);
        }
    }
    Ok(false)
}

/// Whether the word is one of the token's.
fn is_word_of(alloc: Global, token: &Token, word: &str) -> Result<bool, AllocError>
    ensures { IfOk result (λ found. IsTrue found ↔ IsWordOf (chars word.now) (lexeme_of token.now)) }
{
    match token.kind {
        TokenKind::Ident => Ok(unraw(&token.spelling) == word),
        TokenKind::Lifetime => Ok(is_lifetime(&token.spelling, word)),
        TokenKind::Punct(_, _) | TokenKind::Start(_) | TokenKind::Stop(_) => Ok(false),
        _ => match string_value(alloc, token)? {
            Some(value) => is_run(alloc, &value, word),
            None => Ok(false),
        },
    }
}

/// Whether the text is `'` and the word.
fn is_lifetime(text: &Spelling, word: &str) -> bool
    ensures { IsTrue result ↔ (text.now ≡ 39 ∷ chars word.now) }
{
    match text.as_str().strip_prefix('\'') {
        Some(name) => name == word,
        None => false,
    }
}

/// Whether the word is a run of the text that goes on no further to either side.
fn is_run(alloc: Global, text: &str, word: &str) -> Result<bool, AllocError>
    ensures { IfOk result (λ found. IsTrue found ↔ IsRunOf (chars word.now) (chars text.now)) }
{
    let text: Vec<char> = text.chars().collect(alloc)?;
    let word: Vec<char> = word.chars().collect(alloc)?;
    Ok(has_run(&text, &word))
}

/// Whether the characters of the word are a maximal run of the characters of the text.
fn has_run(text: &[char], word: &[char]) -> bool
    ensures { IsTrue result ↔ IsRunOf word.now text.now }
{
    if word.is_empty() {
        false
    } else {
        is_part(text, word)
    }
}

/// Whether a character doesn't go on with a word.
fn ends_run(c: &char) -> bool
    ensures { result ≡ not (is_xid_continue c.now) }
{
    !is_xid_continue(*c)
}

/// Whether the word is one of the parts between characters that don't go on with a word.
fn is_part(text: &[char], word: &[char]) -> bool
    ensures { result ≡ list_any (λ part. bytes_eq part word.now) (parts text.now) }
{
    text.split(|c| ends_run(c)).any(|part| part == word)
}
