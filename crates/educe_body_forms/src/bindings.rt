//! Local variables for fields, named behind a prefix (Rust Reference, Identifiers).
ghost use Rattle.std.specs.Prelude.{◌≡◌, ◌++◌, IsTrue, IfOk, chars};
ghost use Rattle.std.specs.Fmt.{decimal};
ghost use Rattle.educe_tokens.specs.TokenKind.TheVariants as token;
ghost use Rattle.educe_tokens.specs.Pieces.{spells};
ghost use Rattle.educe_tokens.specs.Spells.{IsWord};
ghost use Rattle.educe_tree.specs.Names.{unraw};
ghost use Rattle.educe_body_forms.specs.Keys.{binding_key};

use crate::keys::index_word;
use educe_tokens::{Span, Spelling};
use educe_tree::{Field, Ident};
use std::alloc::{AllocError, Global};

/// The identifier that a prefix and what stands behind it spell, at no place.
fn behind_prefix(alloc: Global, prefix: &str, rest: &str) -> Result<Ident, AllocError>
    requires { IsTrue (spells token.Ident (chars prefix.now ++ chars rest.now)) }
    ensures text { IfOk result (λ ident. ident.text ≡ chars prefix.now ++ chars rest.now) }
    ensures nowhere { IfOk result (λ ident. ident.span ≡ Span.NONE) }
{
    let whole = format!(in alloc; "{prefix}{rest}")?;
    let text = Spelling::from_str(alloc, &whole)?;
    let span = Span::NONE;
    Ok(Ident { text, span })
}

/// The name of a local variable for a field of this name, at no place: the prefix, and behind it the
/// name without `r#`. Fails only where memory runs out.
pub fn name_binding(alloc: Global, prefix: &str, name: &Ident) -> Result<Ident, AllocError>
    requires { IsWord (chars prefix.now) }
    ensures text { IfOk result (λ ident. ident.text ≡ chars prefix.now ++ unraw name.now.text) }
    ensures nowhere { IfOk result (λ ident. ident.span ≡ Span.NONE) }
{
    behind_prefix(alloc, prefix, name.unraw())
}

/// The name of a local variable for a field without a name, at no place: the prefix, and behind it
/// the decimal digits of the field's place. Fails only where memory runs out.
pub fn index_binding(alloc: Global, prefix: &str, place: usize) -> Result<Ident, AllocError>
    requires { IsWord (chars prefix.now) }
    ensures text { IfOk result (λ ident. ident.text ≡ chars prefix.now ++ decimal place) }
    ensures nowhere { IfOk result (λ ident. ident.span ≡ Span.NONE) }
{
    let digits = index_word(alloc, place)?;
    behind_prefix(alloc, prefix, digits.as_str())
}

/// The name of a local variable for the field at a place, itself at no place: the prefix, and behind
/// it the field's key without `r#`. Fails only where memory runs out.
pub fn binding(
    alloc: Global,
    prefix: &str,
    place: usize,
    field: &Field,
) -> Result<Ident, AllocError>
    requires { IsWord (chars prefix.now) }
    ensures text { IfOk result (λ ident.
        ident.text ≡ chars prefix.now ++ binding_key place field.now) }
    ensures nowhere { IfOk result (λ ident. ident.span ≡ Span.NONE) }
{
    match &field.ident {
        Some(name) => name_binding(alloc, prefix, name),
        None => index_binding(alloc, prefix, place),
    }
}
