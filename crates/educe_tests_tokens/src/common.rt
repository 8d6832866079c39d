//! What the tests share: characters, and what is found as a text.
ghost use Rattle.std.specs.Prelude.{◌≡◌, IfOk, chars};

use educe_tokens_pieces::PieceKind;
use std::alloc::{AllocError, Global};
use std::fmt::Display;

/// The characters of a text.
pub(crate) fn characters(alloc: Global, text: &str) -> Result<Vec<char>, AllocError>
    ensures { IfOk result (λ found. found.items ≡ chars text.now) }
{
    text.chars().collect(alloc)
}

/// The text of a value, or `none`.
pub(crate) fn or_none<T: Display + Drop>(
    alloc: Global,
    value: Option<T>,
) -> Result<String, AllocError> {
    match value {
        Some(value) => format!(in alloc; "{value}"),
        None => String::from_str(alloc, "none"),
    }
}

/// A piece and its length, or `none`.
pub(crate) fn piece_text(
    alloc: Global,
    piece: Option<(PieceKind, usize)>,
) -> Result<String, AllocError> {
    match piece {
        Some((kind, len)) => format!(in alloc; "{kind:?} {len}"),
        None => String::from_str(alloc, "none"),
    }
}
