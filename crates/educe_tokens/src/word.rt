//! Texts that are printed as one token.
ghost use Rattle.std.specs.Prelude.{◌≡◌, IsTrue, IfOk, chars};
ghost use Rattle.std.specs.Char.{is_ascii_digit};
ghost use Rattle.educe_tokens_pieces.specs.Chars.{begins};
ghost use Rattle.educe_tokens_pieces.specs.Pieces.{is_name_or_index};
ghost use Rattle.educe_tokens.specs.Quote.{is_ascii_name, word_lexeme};

use crate::seq::Seq;
use crate::spelling::Spelling;
use educe_tokens_pieces::{LiteralKind, TokenKind};
use std::alloc::{AllocError, Global};

/// A text that is one identifier or one integer: a name, or the index of a tuple's field.
#[derive(Drop)]
pub struct Word {
    pub text: Spelling,
    pub ghost spelled: { IsTrue (is_name_or_index text) },
}

/// Names in their order.
pub type Names = Seq<Word>;

impl Word {
    /// The text as a word.
    pub fn new(text: Spelling) -> Word
        requires { IsTrue (is_name_or_index text) }
        ensures { result.text ≡ text }
    {
        Word { text }
    }

    /// A name of ASCII characters as a word.
    #[tactic(auto, using(crate::proofs::Quoting::ascii_name_is))]
    pub fn from_name(alloc: Global, name: &str) -> Result<Word, AllocError>
        requires { IsTrue (is_ascii_name name.now) }
        ensures { IfOk result (λ word. word.text ≡ name.now) }
    {
        let text = Spelling::from_str(alloc, name)?;
        Ok(Word { text })
    }

    /// The text as a string slice.
    pub fn as_str(&self) -> &str
        ensures { chars result.now ≡ self.now.text }
    {
        self.text.as_str()
    }

    /// The kind of the token: an identifier or an integer.
    pub fn kind(&self) -> TokenKind
        ensures { result ≡ (word_lexeme self.now.text).kind }
    {
        if begins_digit(self.as_str()) {
            TokenKind::Literal(LiteralKind::Int)
        } else {
            TokenKind::Ident
        }
    }

    /// An equal word in memory of its own.
    pub fn duplicate(&self, alloc: Global) -> Result<Word, AllocError>
        ensures { IfOk result (λ word. word ≡ self.now) }
    {
        let text = self.text.duplicate(alloc)?;
        Ok(Word { text })
    }
}

/// Whether a text begins with a decimal digit.
fn begins_digit(text: &str) -> bool
    ensures { result ≡ begins is_ascii_digit (chars text.now) }
{
    match text.chars().next() {
        Some(first) => first.is_ascii_digit(),
        None => false,
    }
}
