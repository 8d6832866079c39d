//! Faults: why tokens are no value of a kind.
ghost use Rattle.std.specs.Prelude.{◌≡◌};
ghost use Rattle.educe_attrs_values.specs.Readings as spec;

use educe_tokens::{EduceError, Kind, Span, Texts};
use std::alloc::AllocError;

/// Why tokens are no value of a kind.
#[derive(Drop)]
pub enum Fault {
    /// Out of memory.
    Memory,
    /// The tokens are not of the kind.
    Wrong,
    /// The tokens nest too deep, at this token.
    TooDeep(Span),
    /// The text of the string nests too deep.
    TooDeepText,
    /// The text of the string has an unsupported literal, the one word.
    NotCarried(Texts),
}

impl From<AllocError> for Fault {
    ghost use Rattle.std.specs.Prelude.{◌≡◌};
    ghost use Rattle.educe_attrs_values.specs.declared.fault.Fault.TheVariants.{Memory};

    ghost from_gives = { λ _ e. e ≡ Memory };

    fn from(_error: AllocError) -> Fault {
        Fault::Memory
    }
}

/// The fault for an error of the parser, in the tokens as they stand or in the text of a string.
#[tactic(auto, using(crate::proofs::Faults::other_wrong))]
pub fn fault_of(quoted: bool, error: EduceError) -> Fault
    ensures { result ≡ spec.fault_of quoted error }
{
    match error.kind {
        Kind::Alloc => Fault::Memory,
        Kind::TooDeep if quoted => Fault::TooDeepText,
        Kind::TooDeep => Fault::TooDeep(error.span),
        Kind::NotCarried => Fault::NotCarried(error.words),
        _ => Fault::Wrong,
    }
}
