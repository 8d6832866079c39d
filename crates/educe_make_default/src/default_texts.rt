//! The tokens of default values, as they are written.
ghost use Rattle.std.specs.Prelude.{◌≡◌, IfOk, OnOk};
ghost use Rattle.std.specs.Option.{option_copied};
ghost use Rattle.educe_tokens.specs.Appends.{Appends};
ghost use Rattle.educe_tokens.specs.WrittenLexemes.{written_lexemes};
ghost use Rattle.educe_attrs.specs.Adjusted.{adjusted};
ghost use Rattle.educe_meaning.specs.Making as spec;

use educe_attrs::auto_adjust_expr;
use educe_syntax::{Duplicate, Expr, Field, Ty};
use educe_tokens::{TokenStream, Written, append_written, quote};
use std::alloc::{AllocError, Global};

/// Appends the call of `Default::default` for a type.
fn push_default(alloc: Global, tokens: &mut TokenStream, ty: &Ty) -> Result<(), AllocError>
    ensures { OnOk result (Appends (spec.default_tokens ty.now) tokens.old tokens.new) }
{
    quote(alloc, tokens, "<")?;
    append_written(alloc, tokens, &ty.written)?;
    quote(
        alloc,
        tokens,
        "as :: core :: default :: Default > :: default ( )",
    )
}

/// The call of `Default::default` for a type.
fn default_call(alloc: Global, ty: &Ty) -> Result<Written, AllocError>
    ensures { IfOk result (λ text. written_lexemes text ≡ spec.default_tokens ty.now) }
{
    let mut tokens = TokenStream::new(alloc);
    push_default(alloc, &mut tokens, ty)?;
    Ok(Written::new(tokens.into_slice(alloc)?))
}

/// A value as it is written for a field of the type; that of a whole type has none to fit
/// (documentation of `educe`, Default).
pub fn value_text(alloc: Global, value: Expr, ty: Option<&Ty>) -> Result<Written, AllocError>
    ensures { IfOk result (λ text. written_lexemes text ≡ adjusted value.written (option_copied ty.entry)) }
{
    let Expr { form: _, written } = auto_adjust_expr(alloc, value, ty)?;
    Ok(written)
}

/// The value of a field as it is written: what its attributes say, or the default one of its type.
pub fn field_text(alloc: Global, field: &Field, said: &Option<Expr>) -> Result<Written, AllocError>
    ensures { IfOk result (λ text. written_lexemes text ≡ spec.field_tokens field.now said.now) }
{
    match said {
        Some(value) => value_text(alloc, value.duplicate(alloc)?, Some(&field.ty)),
        None => default_call(alloc, &field.ty),
    }
}
