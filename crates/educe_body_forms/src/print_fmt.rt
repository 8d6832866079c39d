//! The tokens that stand before the block of each `fmt`, and those that no template holds.
ghost use Rattle.std.specs.Prelude.{IsTrue, OnOk, [], ◌∷◌};
ghost use Rattle.std.specs.Char.{is_ascii};
ghost use Rattle.std.specs.List.{list_all};
ghost use Rattle.educe_tokens.specs.Appends.{Appends, HasPrefix};
ghost use Rattle.educe_tokens.specs.LiteralKind.TheVariants.{Int};
ghost use Rattle.educe_tokens.specs.TokenKind.TheVariants as token;
ghost use Rattle.educe_tokens.specs.Pieces.{spells};
ghost use Rattle.educe_body_forms.specs.Lifetimes.{is_ascii_lifetime};
ghost use Rattle.educe_body_forms.specs.Printouts.{Printout, Prints, name, in_round};
ghost use Rattle.educe_body_forms.specs.ShownPrintouts.{literal_printout, formatter_type, formatter_param, fmt_params, fmt_result, fmt_head};

use crate::literal_text::LiteralText;
use educe_tokens::{LiteralKind, Span, Spelling, Token, TokenKind, TokenStream, quote};
use educe_tree::{Ident, ToTokens};
use std::alloc::{AllocError, Global};

/// A name, as it is printed where it is declared.
pub trait PrintedName {
    // What the name is printed as.
    ghost printed: { Self → Printout };

    /// Appends the name.
    fn push_name(&self, alloc: Global, tokens: &mut TokenStream) -> Result<(), AllocError>
        ensures ok { OnOk result (Prints (printed self.now) tokens.old tokens.new) }
        ensures prefix { HasPrefix tokens.old tokens.new };
}

impl PrintedName for Ident {
    ghost printed = { name };

    fn push_name(&self, alloc: Global, tokens: &mut TokenStream) -> Result<(), AllocError> {
        self.to_tokens(alloc, tokens)
    }
}

/// Appends the token of this kind that a text spells, at no place.
fn push_spelling(
    tokens: &mut TokenStream,
    kind: TokenKind,
    spelling: Spelling,
) -> Result<(), AllocError>
    requires { IsTrue (spells kind spelling) }
    ensures ok { OnOk result (Appends (record { kind = kind; spelling = spelling } ∷ []) tokens.old tokens.new) }
    ensures prefix { HasPrefix tokens.old tokens.new }
{
    tokens.push(Token {
        kind,
        span: Span::NONE,
        spelling,
    })?;
    Ok(())
}

/// Appends the token of this kind that a text of ASCII characters spells.
fn push_ascii(
    alloc: Global,
    tokens: &mut TokenStream,
    kind: TokenKind,
    text: &str,
) -> Result<(), AllocError>
    requires ascii { IsTrue (list_all is_ascii text.now) }
    requires spelled { IsTrue (spells kind text.now) }
    ensures ok { OnOk result (Appends (record { kind = kind; spelling = text.now } ∷ []) tokens.old tokens.new) }
    ensures prefix { HasPrefix tokens.old tokens.new }
{
    let spelling = Spelling::from_str(alloc, text)?;
    push_spelling(tokens, kind, spelling)
}

/// Appends an integer.
pub(crate) fn push_number(
    alloc: Global,
    tokens: &mut TokenStream,
    text: &str,
) -> Result<(), AllocError>
    requires ascii { IsTrue (list_all is_ascii text.now) }
    requires spelled { IsTrue (spells (token.Literal Int) text.now) }
    ensures ok { OnOk result (Appends (record { kind = token.Literal Int; spelling = text.now } ∷ []) tokens.old tokens.new) }
    ensures prefix { HasPrefix tokens.old tokens.new }
{
    push_ascii(alloc, tokens, TokenKind::Literal(LiteralKind::Int), text)
}

/// Appends a lifetime of ASCII characters.
#[tactic(auto, using(crate::specs::Lifetimes::ascii_lifetime_spells))]
pub(crate) fn push_lifetime(
    alloc: Global,
    tokens: &mut TokenStream,
    text: &str,
) -> Result<(), AllocError>
    requires ascii { IsTrue (list_all is_ascii text.now) }
    requires spelled { IsTrue (is_ascii_lifetime text.now) }
    ensures ok { OnOk result (Appends (record { kind = token.Lifetime; spelling = text.now } ∷ []) tokens.old tokens.new) }
    ensures prefix { HasPrefix tokens.old tokens.new }
{
    push_ascii(alloc, tokens, TokenKind::Lifetime, text)
}

/// Appends a text as a string literal.
pub(crate) fn push_literal(
    alloc: Global,
    tokens: &mut TokenStream,
    text: &LiteralText,
) -> Result<(), AllocError>
    ensures ok { OnOk result (Prints (literal_printout text.now) tokens.old tokens.new) }
    ensures prefix { HasPrefix tokens.old tokens.new }
{
    let whole = format!(in alloc; "\"{}\"", text.text.as_str())?;
    let spelling = Spelling::from_str(alloc, &whole)?;
    push_spelling(tokens, TokenKind::Literal(LiteralKind::Str), spelling)
}

/// Appends the type of a formatter that `fmt` is handed.
pub fn push_formatter_type(alloc: Global, tokens: &mut TokenStream) -> Result<(), AllocError>
    ensures ok { OnOk result (Prints formatter_type tokens.old tokens.new) }
    ensures prefix { HasPrefix tokens.old tokens.new }
{
    quote(alloc, tokens, "& mut :: core :: fmt :: Formatter")?;
    quote(alloc, tokens, "<")?;
    push_lifetime(alloc, tokens, "'_")?;
    quote(alloc, tokens, ">")
}

/// Appends a parameter that is a formatter.
pub fn push_formatter_param<N: PrintedName>(
    alloc: Global,
    tokens: &mut TokenStream,
    formatter: &N,
) -> Result<(), AllocError>
    ensures ok { let found = formatter_param (N.printed formatter.now) in
        OnOk result (Prints found tokens.old tokens.new) }
    ensures prefix { HasPrefix tokens.old tokens.new }
{
    formatter.push_name(alloc, tokens)?;
    quote(alloc, tokens, ":")?;
    push_formatter_type(alloc, tokens)
}

/// Appends the result of `fmt`.
pub fn push_fmt_result(alloc: Global, tokens: &mut TokenStream) -> Result<(), AllocError>
    ensures ok { OnOk result (Prints fmt_result tokens.old tokens.new) }
    ensures prefix { HasPrefix tokens.old tokens.new }
{
    quote(alloc, tokens, "-> :: core :: fmt :: Result")
}

/// Appends the parameters of `fmt` in round brackets.
fn push_fmt_params<N: PrintedName>(
    alloc: Global,
    tokens: &mut TokenStream,
    formatter: &N,
) -> Result<(), AllocError>
    ensures ok { let found = in_round (fmt_params (N.printed formatter.now)) in
        OnOk result (Prints found tokens.old tokens.new) }
    ensures prefix { HasPrefix tokens.old tokens.new }
{
    quote(alloc, tokens, "(")?;
    quote(alloc, tokens, "& self ,")?;
    push_formatter_param(alloc, tokens, formatter)?;
    quote(alloc, tokens, ")")
}

/// Appends what stands before the block of `fmt`.
pub fn push_fmt_head<N: PrintedName>(
    alloc: Global,
    tokens: &mut TokenStream,
    formatter: &N,
) -> Result<(), AllocError>
    ensures ok { let found = fmt_head (N.printed formatter.now) in
        OnOk result (Prints found tokens.old tokens.new) }
    ensures prefix { HasPrefix tokens.old tokens.new }
{
    quote(alloc, tokens, "fn fmt")?;
    push_fmt_params(alloc, tokens, formatter)?;
    push_fmt_result(alloc, tokens)
}
