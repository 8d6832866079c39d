//! Appending to a token list.
ghost use Rattle.std.specs.Prelude.{IsTrue, OnOk, [], ◌∷◌, map};
ghost use Rattle.educe_tokens_pieces.specs.Pieces.{spells};
ghost use Rattle.educe_tokens.specs.Appends.{Appends, AppendsAt, AppendsNowhere, HasPrefix};
ghost use Rattle.educe_tokens.specs.Quote.{word_lexeme};
ghost use Rattle.educe_tokens.specs.WrittenLexemes.{written_lexemes};

use crate::span::Span;
use crate::spelling::Spelling;
use crate::stream::TokenStream;
use crate::token::Token;
use crate::word::Word;
use crate::written::Written;
use educe_tokens_pieces::TokenKind;
use std::alloc::{AllocError, Global};

/// Appends copies of tokens as they were written, their spans kept.
pub fn append_written(
    _alloc: Global,
    tokens: &mut TokenStream,
    written: &Written,
) -> Result<(), AllocError>
    ensures ok { OnOk result (Appends (written_lexemes written.now) tokens.old tokens.new) }
    ensures places { OnOk result (AppendsAt (map (λ t. t.span) written.now.tokens) tokens.old tokens.new) }
    ensures prefix { HasPrefix tokens.old tokens.new }
{
    let written = written.duplicate()?;
    tokens.push_written(written)
}

/// Appends the one token that a word is, whose span is `Span::NONE`.
pub fn push_word(alloc: Global, tokens: &mut TokenStream, word: &Word) -> Result<(), AllocError>
    ensures ok { OnOk result (Appends (word_lexeme word.now.text ∷ []) tokens.old tokens.new) }
    ensures nowhere { OnOk result (AppendsNowhere tokens.old tokens.new) }
    ensures prefix { HasPrefix tokens.old tokens.new }
{
    push_spelled(tokens, word.kind(), word.text.duplicate(alloc)?)
}

/// Appends the token of this kind that the text spells.
pub(crate) fn push_spelled(
    tokens: &mut TokenStream,
    kind: TokenKind,
    spelling: Spelling,
) -> Result<(), AllocError>
    requires { IsTrue (spells kind spelling) }
    ensures ok { OnOk result (Appends (record { kind = kind; spelling = spelling } ∷ []) tokens.old tokens.new) }
    ensures nowhere { OnOk result (AppendsNowhere tokens.old tokens.new) }
    ensures prefix { HasPrefix tokens.old tokens.new }
{
    let span = Span::NONE;
    tokens.push(Token {
        kind,
        span,
        spelling,
    })?;
    Ok(())
}
