//! Why the reading of a meta stops.
ghost use Rattle.std.specs.Prelude.{◌≡◌};
ghost use Rattle.educe_attrs_values.specs.Refusals as spec;

use educe_tokens::EduceError;
use std::alloc::{AllocError, Global};

/// Why the reading of a meta stops.
#[derive(Drop)]
pub enum Stop {
    /// Out of memory.
    Memory,
    /// The meta is rejected.
    Refused(EduceError),
}

impl From<AllocError> for Stop {
    ghost use Rattle.std.specs.Prelude.{◌≡◌};
    ghost use Rattle.educe_attrs_values.specs.declared.stop.Stop.TheVariants.{Memory};

    ghost from_gives = { λ _ e. e ≡ Memory };

    fn from(_error: AllocError) -> Stop {
        Stop::Memory
    }
}

/// The rejection, or the error for out of memory.
pub fn error_of(alloc: Global, stop: Stop) -> EduceError
    ensures { result ≡ spec.error_of stop }
{
    match stop {
        Stop::Memory => EduceError::alloc(alloc),
        Stop::Refused(error) => error,
    }
}
