//! The traits that compare.
ghost use Rattle.std.specs.Prelude.{◌≡◌};
ghost use Rattle.educe_meaning.specs.Comparisons as spec;

use educe_body::Comparison;
use educe_bound::Trait;

/// The trait, among all that can be derived.
pub fn trait_of(which: Comparison) -> Trait
    ensures { result ≡ spec.trait_of which }
{
    match which {
        Comparison::PartialEq => Trait::PartialEq,
        Comparison::PartialOrd => Trait::PartialOrd,
        Comparison::Ord => Trait::Ord,
    }
}
