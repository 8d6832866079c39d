//! The bound of an impl.
ghost use Rattle.std.specs.Prelude.{◌≡◌};
ghost use Rattle.educe_settings.specs.Settings as spec;

use educe_bound::{Bound, WherePredicatesOrBool};

/// The bound that is said; where none is, the automatic one (documentation of `educe`, Bounds).
pub fn bound_said(said: Option<WherePredicatesOrBool>) -> Bound
    ensures { result ≡ spec.bound_said said }
{
    match said {
        Some(value) => Bound::from_value(value),
        None => Bound::Auto,
    }
}
