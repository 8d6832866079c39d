//! The tokens of a text, and their printed text.
ghost use Rattle.std.specs.Prelude.{◌≡◌, IfOk, IfErr, chars, string_bytes};
ghost use Rattle.educe_tokens.specs.Lexes.{Lexes, lexemes};
ghost use Rattle.educe_tokens.specs.Text.{text_of};
ghost use Rattle.educe_tokens.specs.Causes.{IsLexicalCause};

use educe_tokens::{
    EduceError, SOURCE_LIMIT, Seq, Token, TokenSlice, TokenStream, have_no_doc, lex, text,
};
use std::alloc::Global;
use std::test::Fail;

/// What `lex` answers for a text, which is to be within the limit.
pub fn lex_answer(alloc: Global, text: &str) -> Result<Result<Seq<Token>, EduceError>, Fail>
    ensures lexes { IfOk result (λ answer. IfOk answer (λ tokens. Lexes (chars text.now) tokens)) }
    ensures err { IfOk result (λ answer. IfErr answer (λ e. IsLexicalCause (chars text.now) e)) }
{
    if text.len() > SOURCE_LIMIT {
        return Err(Fail::from("too long"));
    }
    Ok(lex(alloc, text))
}

/// The tokens of a text.
pub fn lexed(alloc: Global, text: &str) -> Result<Seq<Token>, Fail>
    ensures { IfOk result (λ tokens. Lexes (chars text.now) tokens) }
{
    match lex_answer(alloc, text)? {
        Ok(tokens) => Ok(tokens),
        Err(_) => Err(Fail::from(text)),
    }
}

/// The tokens of a text, as a list that several owners share.
pub fn lexed_slice(alloc: Global, text: &str) -> Result<TokenSlice, Fail>
    ensures { IfOk result (λ tokens. Lexes (chars text.now) tokens) }
{
    Ok(TokenSlice::new(alloc, lexed(alloc, text)?)?)
}

/// The printed text of the tokens of a text, which is to be within the limit and without
/// documentation.
pub fn printed_source(alloc: Global, source: &str) -> Result<String, Fail>
    ensures { IfOk result (λ written. (tokens : _) × Lexes (chars source.now) tokens
        × (chars (string_bytes written) ≡ text_of (lexemes tokens))) }
{
    if source.len() > SOURCE_LIMIT {
        return Err(Fail::from("too long"));
    }
    let Ok(tokens) = lex(alloc, source) else {
        return Err(Fail::from(source));
    };
    if !have_no_doc(&tokens) {
        return Err(Fail::from("documentation"));
    }
    let mut printed = TokenStream::new(alloc);
    printed.append(tokens)?;
    Ok(text(alloc, &printed)?)
}
