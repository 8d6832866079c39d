//! The names of metas, and their places.
ghost use Rattle.std.specs.Prelude.{◌≡◌, IfOk};
ghost use Rattle.std.specs.Option.{option_copied};
ghost use Rattle.educe_attrs_values.specs.Words as spec;

use educe_syntax::{Meta, MetaPath, path_to_string};
use educe_tokens::{Span, Spelling, Token};
use std::alloc::{AllocError, Global};

/// The span from the first of the tokens to the last; 0 to 0 where there is none.
pub fn place_of(tokens: &[Token]) -> Span
    ensures { result ≡ spec.place_of tokens.now }
{
    match (tokens.first(), tokens.last()) {
        (Some(first), Some(last)) => Span {
            start: first.span.start,
            end: last.span.end,
        },
        _ => Span::NONE,
    }
}

/// The text of a path, without white space.
pub fn name_of(alloc: Global, path: &MetaPath) -> Result<Spelling, AllocError>
    ensures { IfOk result (λ name. name ≡ spec.text_of path.now) }
{
    let text = path_to_string(alloc, path)?;
    Spelling::from_str(alloc, text.as_str())
}

/// The path of a meta; documentation has none.
pub fn path_of(meta: &Meta) -> Option<&MetaPath>
    ensures { option_copied result ≡ spec.path_of meta.now }
{
    match meta {
        Meta::Word(path) => Some(path),
        Meta::List(path, _, _) => Some(path),
        Meta::NameValue(path, _, _) => Some(path),
        Meta::Doc(_) => None,
        Meta::Unread(path, _, _) => Some(path),
    }
}

/// The span of a meta, from its path to its end.
pub fn meta_place(meta: &Meta) -> Span
    ensures { result ≡ spec.meta_place meta.now }
{
    match meta {
        Meta::Word(path) => place_of(path.written.tokens().as_slice()),
        Meta::List(_, _, span) => *span,
        Meta::NameValue(_, _, span) => *span,
        Meta::Doc(token) => token.span,
        Meta::Unread(_, _, span) => *span,
    }
}
