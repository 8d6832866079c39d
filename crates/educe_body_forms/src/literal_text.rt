//! The texts of string literals.
ghost use Rattle.std.specs.Prelude.{◌≡◌, [], ◌++◌, IsTrue, IfOk, codes};
ghost use Rattle.std.specs.Option.{option_copied};
ghost use Rattle.educe_tokens.specs.LiteralKind.TheVariants.{Str};
ghost use Rattle.educe_tokens.specs.TokenKind.TheVariants as token;
ghost use Rattle.educe_tokens.specs.Pieces.{spells};
ghost use Rattle.educe_body_forms.specs.LiteralTexts.{optional_text, path_text};
ghost use Rattle.educe_body_forms.specs.Quotes.{in_quotes};

use educe_tokens::{Spelling, Word};
use educe_tree::Ident;
use std::alloc::{AllocError, Global};

/// A text that stands in a string literal as it is (Rust Reference, String literals).
#[derive(Drop)]
pub struct LiteralText {
    pub text: Spelling,
    pub ghost spelled: { IsTrue (spells (token.Literal Str) (in_quotes text)) },
}

impl LiteralText {
    /// The empty text.
    pub fn empty(alloc: Global) -> Result<LiteralText, AllocError>
        ensures { IfOk result (λ made. made.text ≡ []) }
    {
        let text = Spelling::from_str(alloc, "")?;
        Ok(LiteralText { text })
    }

    /// The text of an identifier or an integer, as it was written.
    pub fn of_word(alloc: Global, word: &Word) -> Result<LiteralText, AllocError>
        ensures { IfOk result (λ made. made.text ≡ word.now.text) }
    {
        let text = word.text.duplicate(alloc)?;
        Ok(LiteralText { text })
    }

    /// The text of a name, as it was written.
    pub fn of_name(alloc: Global, name: &Ident) -> Result<LiteralText, AllocError>
        ensures { IfOk result (λ made. made.text ≡ name.now.text) }
    {
        let text = name.text.duplicate(alloc)?;
        Ok(LiteralText { text })
    }

    /// The texts of two names, with `::` between.
    pub fn of_path(alloc: Global, first: &Ident, last: &Ident) -> Result<LiteralText, AllocError>
        ensures { IfOk result (λ made. made.text ≡ first.now.text ++ codes "::" ++ last.now.text) }
    {
        let whole = format!(in alloc; "{}::{}", first.text.as_str(), last.text.as_str())?;
        let text = Spelling::from_str(alloc, &whole)?;
        Ok(LiteralText { text })
    }

    /// The texts of the names that there are, with `::` between two.
    pub fn of_names(
        alloc: Global,
        first: Option<&Ident>,
        last: Option<&Ident>,
    ) -> Result<LiteralText, AllocError>
        ensures { let found = path_text (optional_text (option_copied first.entry)) (optional_text (option_copied last.entry)) in
            IfOk result (λ made. made.text ≡ found) }
    {
        match first {
            None => LiteralText::of_optional(alloc, last),
            Some(first) => match last {
                None => LiteralText::of_name(alloc, first),
                Some(last) => LiteralText::of_path(alloc, first, last),
            },
        }
    }

    /// The text of a name, if there is one.
    fn of_optional(alloc: Global, name: Option<&Ident>) -> Result<LiteralText, AllocError>
        ensures { IfOk result (λ made. made.text ≡ optional_text (option_copied name.entry)) }
    {
        match name {
            None => LiteralText::empty(alloc),
            Some(name) => LiteralText::of_name(alloc, name),
        }
    }

    /// An equal text in memory of its own.
    pub fn duplicate(&self, alloc: Global) -> Result<LiteralText, AllocError>
        ensures { IfOk result (λ made. made ≡ self.now) }
    {
        let text = self.text.duplicate(alloc)?;
        Ok(LiteralText { text })
    }
}
