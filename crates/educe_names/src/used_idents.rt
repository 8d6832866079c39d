//! Held words, and the choice of names that are none of them.
ghost use Rattle.std.specs.Prelude.{◌≡◌, [], ◌∷◌, ◌++◌, IfOk, OnErr, chars, string_bytes};
ghost use Rattle.educe_tokens.specs.Spells.{IsWord};
ghost use Rattle.educe_names.specs.Chosen.{underscored, IsFree, IsChosen, IsPrefix};
ghost use Rattle.educe_names.specs.Held.{AreWordsOf};

use crate::fewest::{Clash, fewest};
use crate::input_words::InputWords;
use crate::letters::Letters;
use educe_tokens::{Seq, Span, Spelling, Token};
use educe_tree::Ident;
use std::alloc::{AllocError, Global};
use std::marker::Model;

/// The words that generated code may not declare: those of an input, and behind them the names that
/// were chosen, in the order of the choices. A contract sees them as a list.
#[derive(Drop)]
pub struct UsedIdents {
    words: InputWords,
    chosen: Seq<Letters>,
}

impl Model for UsedIdents {
    ghost use Rattle.std.specs.Prelude.{ℕ, List, ◌++◌};

    ghost Value = { List (List ℕ) };

    ghost view = { λ used. used.words ++ used.chosen };
}

impl UsedIdents {
    /// The words of tokens: names without `r#`, lifetimes without `'`, and the runs of XID_Continue
    /// in the values of strings and of documentation.
    pub fn new(alloc: Global, tokens: &[Token]) -> Result<UsedIdents, AllocError>
        ensures { IfOk result (λ used. AreWordsOf tokens.now used) }
    {
        let words = InputWords::new(alloc, tokens)?;
        UsedIdents::over(alloc, &words)
    }

    /// The words of an input, which were gathered before. They share the list, and no word is copied.
    pub fn over(alloc: Global, words: &InputWords) -> Result<UsedIdents, AllocError>
        ensures { IfOk result (λ used. used ≡ words.now) }
    {
        let words = words.share()?;
        Ok(UsedIdents {
            words,
            chosen: Seq::new(alloc),
        })
    }

    /// An identifier that is not held: the name after as few `_` as that takes. It is held from
    /// then on, and has no place in the source.
    pub fn select(&mut self, alloc: Global, name: &str) -> Result<Ident, AllocError>
        requires { IsWord (chars name.now) }
        ensures chosen { IfOk result (λ ident. IsChosen self.old (chars name.now) ident.text) }
        ensures nowhere { IfOk result (λ ident. ident.span ≡ Span.NONE) }
        ensures held { IfOk result (λ ident. self.new ≡ self.old ++ ident.text ∷ []) }
        ensures err { OnErr result (self.new ≡ self.old) }
    {
        let free = self.free_text(alloc, Clash::Whole, name)?;
        let text = Spelling::from_str(alloc, &free)?;
        let ident = Ident {
            text,
            span: Span::NONE,
        };
        self.chosen.push(Letters::from_str(alloc, &free)?)?;
        Ok(ident)
    }

    /// A text that is a prefix of no held word: the name after as few `_` as that takes. It is not
    /// held itself, so that several names may be made of it.
    pub fn select_prefix(&self, alloc: Global, name: &str) -> Result<String, AllocError>
        ensures chosen { IfOk result (λ prefix.
            IsPrefix self.now (chars name.now) (chars (string_bytes prefix))) }
        ensures word { IsWord (chars name.now) →
            IfOk result (λ prefix. IsWord (chars (string_bytes prefix))) }
    {
        self.free_text(alloc, Clash::Front, name)
    }

    /// The name behind the fewest `_` with which it clashes with nothing that is held.
    fn free_text(&self, alloc: Global, how: Clash, name: &str) -> Result<String, AllocError>
        ensures { IfOk result (λ text.
            IsFree how self.now (chars name.now) (chars (string_bytes text))) }
    {
        let letters = Letters::from_str(alloc, name)?;
        let count = fewest(
            alloc,
            how,
            self.words.as_slice(),
            self.chosen.as_slice(),
            letters.as_slice(),
        )?;
        underscored(alloc, count, name)
    }
}

/// The name behind so many `_`.
fn underscored(alloc: Global, count: usize, name: &str) -> Result<String, AllocError>
    ensures { IfOk result (λ text.
        chars (string_bytes text) ≡ underscored count (chars name.now)) }
{
    let mut text = String::new(alloc);
    for _turn in 0..count {
        text.push('_')?;
    }
    text.push_str(name)?;
    Ok(text)
}
