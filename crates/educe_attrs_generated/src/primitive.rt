//! Primitive types by their tokens (Rust Reference, Types; documentation of `core`, the module
//! `primitive`).
ghost use Rattle.std.specs.Prelude.{◌≡◌, chars};
ghost use Rattle.std.specs.Option.{option_copied};
ghost use Rattle.educe_attrs_generated.specs.Types as spec;

use educe_syntax::is_spelled;
use educe_tokens::{Token, TokenKind};

/// What stands behind this token, if it is the first.
fn behind<'a>(tokens: &'a [Token], text: &str) -> Option<&'a [Token]>
    ensures { option_copied result ≡ spec.behind (chars text.now) tokens.now }
{
    match tokens {
        [first, rest @ ..] if is_spelled(&first.spelling, text) => Some(rest),
        _ => None,
    }
}

/// What stands behind `::`.
#[tactic(auto, using(crate::proofs::Words::chars_colon))]
fn behind_colons(tokens: &[Token]) -> Option<&[Token]>
    ensures { option_copied result ≡ spec.behind_colons tokens.now }
{
    behind(behind(tokens, ":")?, ":")
}

/// Whether the token is `core` or `std`.
#[tactic(auto, using(crate::proofs::Words::chars_core, crate::proofs::Words::chars_std))]
fn is_root(token: &Token) -> bool
    ensures { result ≡ spec.is_root token.now }
{
    is_spelled(&token.spelling, "core") || is_spelled(&token.spelling, "std")
}

/// What stands behind `core` or `std`.
fn behind_root(tokens: &[Token]) -> Option<&[Token]>
    ensures { option_copied result ≡ spec.behind_root tokens.now }
{
    match tokens {
        [first, rest @ ..] if is_root(first) => Some(rest),
        _ => None,
    }
}

/// The tokens without a leading `::`.
fn without_colons(tokens: &[Token]) -> &[Token]
    ensures { result.now ≡ spec.or_all tokens.now (spec.behind_colons tokens.now) }
{
    match behind_colons(tokens) {
        Some(rest) => rest,
        None => tokens,
    }
}

/// What stands behind `core::` or `std::`, with a leading `::` or without.
fn behind_crate(tokens: &[Token]) -> Option<&[Token]>
    ensures { option_copied result ≡ spec.behind_crate tokens.now }
{
    behind_colons(behind_root(without_colons(tokens))?)
}

/// What stands behind `core::primitive::` or `std::primitive::`, with a leading `::` or without.
#[tactic(auto, using(crate::proofs::Words::chars_primitive))]
fn behind_module(tokens: &[Token]) -> Option<&[Token]>
    ensures { option_copied result ≡ spec.behind_module tokens.now }
{
    behind_colons(behind(behind_crate(tokens)?, "primitive")?)
}

/// The tokens of a type without this module.
fn without_module(tokens: &[Token]) -> &[Token]
    ensures { result.now ≡ spec.without_module tokens.now }
{
    match behind_module(tokens) {
        Some(rest) => rest,
        None => tokens,
    }
}

/// Whether the type is the primitive type of this name, by its name or its path in the module
/// `primitive` of `core` or `std`.
pub fn is_primitive(ty: &[Token], name: &str) -> bool
    ensures { result ≡ spec.is_primitive (chars name.now) ty.now }
{
    match without_module(ty) {
        [word] => is_spelled(&word.spelling, name),
        _ => false,
    }
}

/// Whether the type is an integer type.
#[tactic(auto, using(educe_discriminants::proofs::Words::integer_names))]
pub fn is_integer(ty: &[Token]) -> bool
    ensures { result ≡ spec.is_integer ty.now }
{
    is_primitive(ty, "u8")
        || is_primitive(ty, "u16")
        || is_primitive(ty, "u32")
        || is_primitive(ty, "u64")
        || is_primitive(ty, "u128")
        || is_primitive(ty, "usize")
        || is_primitive(ty, "i8")
        || is_primitive(ty, "i16")
        || is_primitive(ty, "i32")
        || is_primitive(ty, "i64")
        || is_primitive(ty, "i128")
        || is_primitive(ty, "isize")
}

/// The tokens without a lifetime in front.
fn without_lifetime(tokens: &[Token]) -> &[Token]
    ensures { result.now ≡ spec.without_lifetime tokens.now }
{
    match tokens {
        [first, rest @ ..] if matches!(first.kind, TokenKind::Lifetime) => rest,
        _ => tokens,
    }
}

/// The tokens without `mut` in front.
#[tactic(auto, using(crate::proofs::Words::chars_mut))]
fn without_mut(tokens: &[Token]) -> &[Token]
    ensures { result.now ≡ spec.without_mut tokens.now }
{
    match behind(tokens, "mut") {
        Some(rest) => rest,
        None => tokens,
    }
}

/// The type behind a reference, with a lifetime and `mut` or without.
#[tactic(auto, using(crate::proofs::Words::chars_ampersand))]
fn referred(ty: &[Token]) -> Option<&[Token]>
    ensures { option_copied result ≡ spec.referred ty.now }
{
    match behind(ty, "&") {
        Some(inner) => Some(without_mut(without_lifetime(inner))),
        None => None,
    }
}

/// Whether the type is a reference to `str`.
#[tactic(auto, using(crate::proofs::Words::chars_str))]
pub fn is_text(ty: &[Token]) -> bool
    ensures { result ≡ spec.is_text ty.now }
{
    match referred(ty) {
        Some(inner) => is_primitive(inner, "str"),
        None => false,
    }
}

/// The type of the elements of an array or a slice, and what stands behind it.
#[tactic(auto, using(crate::proofs::Words::chars_square))]
fn elements(ty: &[Token]) -> Option<&[Token]>
    ensures { option_copied result ≡ spec.elements ty.now }
{
    match behind(ty, "[") {
        Some(inner) => Some(without_module(inner)),
        None => None,
    }
}

/// What stands behind `u8` and `;`.
#[tactic(auto, using(educe_discriminants::proofs::Words::chars_u8, crate::proofs::Words::chars_semicolon))]
fn behind_bytes(tokens: &[Token]) -> Option<&[Token]>
    ensures { option_copied result ≡ spec.behind_bytes tokens.now }
{
    behind(behind(tokens, "u8")?, ";")
}

/// Whether the type is an array of `u8`.
fn is_byte_array(ty: &[Token]) -> bool
    ensures { result ≡ spec.is_byte_array ty.now }
{
    match elements(ty) {
        Some(inner) => behind_bytes(inner).is_some(),
        None => false,
    }
}

/// Whether the type is a reference to an array of `u8`.
pub fn is_bytes(ty: &[Token]) -> bool
    ensures { result ≡ spec.is_bytes ty.now }
{
    match referred(ty) {
        Some(inner) => is_byte_array(inner),
        None => false,
    }
}
