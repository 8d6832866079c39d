//! Default values, as generated code writes them (documentation of `educe`, Default).
ghost use Rattle.std.specs.Prelude.{◌≡◌, IfOk, OnOk};
ghost use Rattle.std.specs.Option.{option_copied};
ghost use Rattle.educe_tokens.specs.Appends.{Appends};
ghost use Rattle.educe_tokens.specs.WrittenLexemes.{written_lexemes};
ghost use Rattle.educe_attrs_generated.specs.Adjusted as spec;

use crate::primitive::{is_bytes, is_integer, is_primitive, is_text};
use educe_attrs_values::is_word;
use educe_syntax::{Expr, ExprForm, Ty};
use educe_tokens::{LiteralKind, Token, TokenKind, TokenStream, Written, append_written, quote};
use std::alloc::{AllocError, Global};

/// Whether the token is a literal.
fn is_literal(kind: TokenKind) -> bool
    ensures { result ≡ spec.is_literal kind }
{
    matches!(kind, TokenKind::Literal(_))
}

/// Whether the token is `true` or `false`.
#[tactic(auto, using(crate::proofs::Words::chars_true, crate::proofs::Words::chars_false))]
fn is_truth(token: &Token) -> bool
    ensures { result ≡ spec.is_truth token.now }
{
    is_word(token, "true") || is_word(token, "false")
}

/// Whether the type is that of literals of this kind.
#[tactic(auto, using(crate::proofs::Words::chars_char, educe_discriminants::proofs::Words::chars_u8))]
fn fits_literal(kind: LiteralKind, ty: &[Token]) -> bool
    ensures { result ≡ spec.fits_literal kind ty.now }
{
    match kind {
        LiteralKind::Int => is_integer(ty),
        LiteralKind::Str => is_text(ty),
        LiteralKind::ByteStr => is_bytes(ty),
        LiteralKind::Char => is_primitive(ty, "char"),
        LiteralKind::Byte => is_primitive(ty, "u8"),
    }
}

/// Whether the type is that of a literal, or of a truth value, which is an identifier.
#[tactic(auto, using(crate::proofs::Words::chars_bool))]
fn fits_kind(kind: TokenKind, ty: &[Token]) -> bool
    ensures { result ≡ spec.fits_kind kind ty.now }
{
    match kind {
        TokenKind::Literal(literal) => fits_literal(literal, ty),
        TokenKind::Ident => is_primitive(ty, "bool"),
        _ => false,
    }
}

/// Whether there is a type that a token of this kind fits.
fn fits(kind: TokenKind, ty: Option<&Ty>) -> bool
    ensures { result ≡ spec.fits kind (option_copied ty.entry) }
{
    match ty {
        Some(ty) => fits_kind(kind, ty.written.tokens().as_slice()),
        None => false,
    }
}

/// Whether the value is one literal or truth value that does not fit the type.
fn is_converted(tokens: &[Token], ty: Option<&Ty>) -> bool
    ensures { result ≡ spec.is_converted tokens.now (option_copied ty.entry) }
{
    match tokens {
        [token] => (is_literal(token.kind) || is_truth(token)) && !fits(token.kind, ty),
        _ => false,
    }
}

/// Appends the call that converts a value.
fn push_into(alloc: Global, tokens: &mut TokenStream, value: &Written) -> Result<(), AllocError>
    ensures { OnOk result (Appends (spec.into (written_lexemes value.now)) tokens.old tokens.new) }
{
    quote(alloc, tokens, ":: core :: convert :: Into :: into (")?;
    append_written(alloc, tokens, value)?;
    quote(alloc, tokens, ")")
}

/// The call that converts a value.
fn converted(alloc: Global, value: &Written) -> Result<Written, AllocError>
    ensures { IfOk result (λ written. written_lexemes written ≡ spec.into (written_lexemes value.now)) }
{
    let mut tokens = TokenStream::new(alloc);
    push_into(alloc, &mut tokens, value)?;
    Ok(Written::new(tokens.into_slice(alloc)?))
}

/// The default value for a field of the type: one literal or truth value is converted by
/// `Into::into`, unless the type is that of the value itself (documentation of `educe`, Default).
/// The value of a whole type has no type to compare with.
pub fn auto_adjust_expr(alloc: Global, expr: Expr, ty: Option<&Ty>) -> Result<Expr, AllocError>
    ensures { IfOk result (λ answer. spec.IsAdjusted expr (option_copied ty.entry) answer) }
{
    if !is_converted(expr.written.tokens().as_slice(), ty) {
        return Ok(expr);
    }
    let written = converted(alloc, &expr.written)?;
    Ok(Expr {
        form: ExprForm::Other,
        written,
    })
}
