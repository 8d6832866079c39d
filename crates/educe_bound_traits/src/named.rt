//! The traits that paths name.
ghost use Rattle.std.specs.Prelude.{◌≡◌, find};
ghost use Rattle.educe_bound_traits.specs.Named as spec;

use crate::traits::Trait;
use crate::word::is_one_word;
use educe_tree::MetaPath;

/// Whether the path is the name of the trait.
fn names_trait(path: &MetaPath, which: Trait) -> bool
    ensures { result ≡ spec.names_trait path.now which }
{
    is_one_word(path.written.tokens().as_slice(), which.name())
}

/// The first of these traits whose name the path is.
pub fn first_named(traits: &[Trait], path: &MetaPath) -> Option<Trait>
    ensures { result ≡ find (spec.names_trait path.now) traits.now }
{
    for which in traits {
        if names_trait(path, *which) {
            return Some(*which);
        }
    }
    None
}
