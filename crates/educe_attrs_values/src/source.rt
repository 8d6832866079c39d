//! The tokens of a parameter's value.
ghost use Rattle.std.specs.Prelude.{◌≡◌, IfOk};
ghost use Rattle.educe_attrs_values.specs.Sources as spec;

use crate::word::place_of;
use educe_syntax::Meta;
use educe_tokens::{Span, Token, TokenSlice};
use std::alloc::AllocError;

/// The tokens of a value, and whether they stand in brackets.
#[derive(Drop)]
pub struct Source {
    pub tokens: TokenSlice,
    pub enclosed: bool,
}

/// The tokens without the first and the last. The list is shared.
pub fn inside(tokens: &TokenSlice) -> Result<TokenSlice, AllocError>
    ensures { IfOk result (λ part. part ≡ spec.inside tokens.now) }
{
    let len = tokens.len();
    if len < 2 {
        return tokens.part(len, len);
    }
    tokens.part(1, len - 1)
}

/// The tokens of the value, after `=` or in brackets; none where the meta has neither.
pub fn value_source(meta: &Meta) -> Result<Option<Source>, AllocError>
    ensures { IfOk result (λ source. source ≡ spec.value_source meta.now) }
{
    match meta {
        Meta::Word(_) => Ok(None),
        Meta::List(_, written, _) => {
            let tokens = inside(written.tokens())?;
            Ok(Some(Source {
                tokens,
                enclosed: true,
            }))
        }
        Meta::NameValue(_, value, _) => {
            let tokens = value.written.tokens().duplicate()?;
            Ok(Some(Source {
                tokens,
                enclosed: false,
            }))
        }
        Meta::Doc(_) => Ok(None),
        Meta::Unread(_, _, _) => Ok(None),
    }
}

/// The tokens at which a wrong value is reported: its own, or the empty brackets.
fn shown<'a>(tokens: &'a [Token]) -> &'a [Token]
    ensures { result.now ≡ spec.shown tokens.now }
{
    match tokens {
        [_, inner @ .., _] if !inner.is_empty() => inner,
        _ => tokens,
    }
}

/// The place at which a wrong value is reported.
pub fn value_place(meta: &Meta) -> Span
    ensures { result ≡ spec.value_place meta.now }
{
    match meta {
        Meta::Word(_) => Span::NONE,
        Meta::List(_, written, _) => place_of(shown(written.tokens().as_slice())),
        Meta::NameValue(_, value, _) => place_of(value.written.tokens().as_slice()),
        Meta::Doc(_) => Span::NONE,
        Meta::Unread(_, _, _) => Span::NONE,
    }
}
