//! Laws of tokens that don't depend on a call: each function does nothing, and its contract is the
//! law.
ghost use Rattle.std.specs.Prelude.{◌≡◌};
ghost use Rattle.educe_tokens.specs.Laws.{LexingLaws, PrintingLaws, KindLaws, CopyingLaws, ValueLaws};

use crate::brackets::NESTING;
use crate::span::SOURCE_LIMIT;

/// The values of the limits.
pub fn limits()
    // A source has at most 128 KiB.
    ensures source { SOURCE_LIMIT ≡ 131072 }
    // Brackets nest at most 128 deep.
    ensures nesting { NESTING ≡ 128 }
{}

/// Each text is either tokens whose brackets close in order, at most 128 deep, or has a cause of
/// rejection; it has at most one such list and one such cause.
pub fn lexing_laws()
    ensures { LexingLaws }
{}

/// The printed text of well-formed tokens lexes as these tokens.
pub fn printing_laws()
    ensures { PrintingLaws }
{}

/// A spelling decides what kind of token it is, jointness aside: tokens with the same spellings are
/// the same.
pub fn kind_laws()
    ensures { KindLaws }
{}

/// Copying changes only the jointness of puncts, where they could not stand joint.
pub fn copying_laws()
    ensures { CopyingLaws }
{}

/// Strings and documentation have exactly one value, other tokens none.
pub fn value_laws()
    ensures { ValueLaws }
{}
