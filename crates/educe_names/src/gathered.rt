//! The words of tokens, one after the other.
ghost use Rattle.std.specs.Prelude.{◌≡◌, ◌∷◌, ◌++◌, OnOk};
ghost use Rattle.educe_tokens.specs.Lexes.{lexeme_of};
ghost use Rattle.educe_names.specs.Held.{Gains, some_word};
ghost use Rattle.educe_names.specs.Words.{IsRunOf, IsWordOf};

use crate::letters::{Letters, strip_first};
use educe_tokens::{Seq, Spelling, Token, TokenKind, string_value};
use educe_tree::unraw;
use std::alloc::{AllocError, Global};
use std::mem;
use unicode_ident::is_xid_continue;

/// Adds the words of a token.
pub fn add_words(alloc: Global, words: &mut Seq<Letters>, token: &Token) -> Result<(), AllocError>
    ensures { OnOk result (Gains words.old words.new (λ word. IsWordOf word (lexeme_of token.now))) }
{
    match token.kind {
        TokenKind::Ident => words.push(Letters::from_str(alloc, unraw(&token.spelling))?),
        TokenKind::Lifetime => add_lifetime(alloc, words, &token.spelling),
        TokenKind::Punct(_, _) | TokenKind::Start(_) | TokenKind::Stop(_) => Ok(()),
        _ => match string_value(alloc, token)? {
            Some(value) => {
                let letters = Letters::from_str(alloc, &value)?;
                add_runs(alloc, words, letters.as_slice())
            }
            None => Ok(()),
        },
    }
}

/// Adds the name behind the `'` of a lifetime.
fn add_lifetime(alloc: Global, words: &mut Seq<Letters>, text: &Spelling) -> Result<(), AllocError>
    ensures { OnOk result (Gains words.old words.new (λ word. text.now ≡ 39 ∷ word)) }
{
    let letters = Letters::from_str(alloc, text.as_str())?;
    match strip_first(letters.as_slice(), '\'') {
        Some(name) => words.push(Letters::from_slice(alloc, name)?),
        None => Ok(()),
    }
}

/// Adds the runs of a text.
fn add_runs(alloc: Global, words: &mut Seq<Letters>, text: &[char]) -> Result<(), AllocError>
    ensures { OnOk result (Gains words.old words.new (λ word. IsRunOf word text.now)) }
{
    let mut run = Vec::new(alloc);
    for c in text {
        if is_xid_continue(*c) {
            run.push(*c)?;
        } else {
            add_run(words, mem::replace(&mut run, Vec::new(alloc)))?;
        }
    }
    add_run(words, run)
}

/// Adds a run, unless it is empty.
fn add_run(words: &mut Seq<Letters>, run: Vec<char>) -> Result<(), AllocError>
    ensures { OnOk result (words.new ≡ words.old ++ some_word run.items) }
{
    if run.is_empty() {
        return Ok(());
    }
    words.push(Letters::new(run))
}
