//! The paths of the traits, as generated code writes them.
ghost use Rattle.std.specs.Prelude.{◌≡◌};
ghost use Rattle.educe_bound_traits.specs.Paths as spec;

use crate::traits::Trait;

/// The path of the trait, as generated code writes it.
pub fn trait_path(which: Trait) -> &'static str
    ensures { result.now ≡ spec.trait_path which }
{
    match which {
        Trait::Debug => ":: core :: fmt :: Debug",
        Trait::Clone => ":: core :: clone :: Clone",
        Trait::Copy => ":: core :: marker :: Copy",
        Trait::PartialEq => ":: core :: cmp :: PartialEq",
        Trait::Eq => ":: core :: cmp :: Eq",
        Trait::PartialOrd => ":: core :: cmp :: PartialOrd",
        Trait::Ord => ":: core :: cmp :: Ord",
        Trait::Hash => ":: core :: hash :: Hash",
        Trait::Default => ":: core :: default :: Default",
    }
}
