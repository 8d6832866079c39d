//! Printing from templates.
ghost use Rattle.std.specs.Prelude.{◌≡◌, IsTrue, OnOk, [], ◌∷◌, chars};
ghost use Rattle.educe_tokens_pieces.specs.Pieces.{spells};
ghost use Rattle.educe_tokens.specs.Appends.{Appends, AppendsNowhere, HasPrefix};
ghost use Rattle.educe_tokens.specs.Quote.{is_name_start, mark_kind, word_lexemes, is_template_word, quoted, is_template};

use crate::kept_template::KeptTemplate;
use crate::seq::Seq;
use crate::span::Span;
use crate::spelling::Spelling;
use crate::stream::TokenStream;
use crate::token::Token;
use educe_tokens_pieces::{Bracket, TokenKind};
use std::alloc::{AllocError, Global};

/// Appends the tokens of a template, whose spans are `Span::NONE`.
pub fn quote(
    _alloc: Global,
    tokens: &mut TokenStream,
    template: &'static str,
) -> Result<(), AllocError>
    requires { IsTrue (is_template template.now) }
    ensures ok { OnOk result (Appends (quoted template.now) tokens.old tokens.new) }
    ensures nowhere { OnOk result (AppendsNowhere tokens.old tokens.new) }
    ensures prefix { HasPrefix tokens.old tokens.new }
{
    tokens.push_template(KeptTemplate { text: template })
}

/// Appends the tokens of a template one by one, whose spans are `Span::NONE`.
pub(crate) fn push_words(
    alloc: Global,
    tokens: &mut Seq<Token>,
    template: &str,
) -> Result<(), AllocError>
    requires { IsTrue (is_template template.now) }
    ensures ok { OnOk result (Appends (quoted template.now) tokens.old tokens.new) }
    ensures nowhere { OnOk result (AppendsNowhere tokens.old tokens.new) }
{
    for word in template.split(' ') {
        quote_word(alloc, tokens, word)?;
    }
    Ok(())
}

/// Appends the tokens of a word of a template.
fn quote_word(alloc: Global, tokens: &mut Seq<Token>, word: &str) -> Result<(), AllocError>
    requires { IsTrue (is_template_word word.now) }
    ensures ok { OnOk result (Appends (word_lexemes word.now) tokens.old tokens.new) }
    ensures nowhere { OnOk result (AppendsNowhere tokens.old tokens.new) }
    ensures prefix { HasPrefix tokens.old tokens.new }
{
    match word.as_bytes() {
        [first, ..] if is_name_start(*first) => { push_text(alloc, tokens, TokenKind::Ident, word) }
        [only] => push_text(alloc, tokens, mark_kind(*only), word),
        [first, second] => {
            let front = TokenKind::Punct(*first as char, true);
            push_text(alloc, tokens, front, &word[..1])?;
            let back = TokenKind::Punct(*second as char, false);
            push_text(alloc, tokens, back, &word[1..])
        }
        _ => Ok(()),
    }
}

/// Appends the token of this kind that the text spells.
fn push_text(
    alloc: Global,
    tokens: &mut Seq<Token>,
    kind: TokenKind,
    text: &str,
) -> Result<(), AllocError>
    requires { IsTrue (spells kind (chars text.now)) }
    ensures ok { OnOk result (Appends (record { kind = kind; spelling = chars text.now } ∷ []) tokens.old tokens.new) }
    ensures nowhere { OnOk result (AppendsNowhere tokens.old tokens.new) }
    ensures prefix { HasPrefix tokens.old tokens.new }
{
    let spelling = Spelling::from_str(alloc, text)?;
    let span = Span::NONE;
    tokens.push(Token {
        kind,
        span,
        spelling,
    })
}

/// Whether a word that begins with this byte is an identifier.
fn is_name_start(byte: u8) -> bool
    ensures { result ≡ is_name_start byte }
{
    byte.is_ascii_alphabetic() || byte == b'_'
}

/// What a bracket or a punct by itself is.
fn mark_kind(byte: u8) -> TokenKind
    ensures { result ≡ mark_kind byte }
{
    match byte {
        b'(' => TokenKind::Start(Bracket::Round),
        b')' => TokenKind::Stop(Bracket::Round),
        b'[' => TokenKind::Start(Bracket::Square),
        b']' => TokenKind::Stop(Bracket::Square),
        b'{' => TokenKind::Start(Bracket::Curly),
        b'}' => TokenKind::Stop(Bracket::Curly),
        _ => TokenKind::Punct(byte as char, false),
    }
}
