//! Which trait a builder is of, where builders of several traits differ in nothing else: its place in
//! `Trait::VARIANTS`.
ghost use Rattle.std.specs.Prelude.{◌≡◌};
ghost use Rattle.educe_attrs.specs.OneTrait as spec;

use educe_bound::Trait;

/// The place of `Clone` in `Trait::VARIANTS`.
pub const CLONE: u8 = 1;

/// The place of `Copy` in `Trait::VARIANTS`.
pub const COPY: u8 = 2;

/// The place of `PartialEq` in `Trait::VARIANTS`.
pub const PARTIAL_EQ: u8 = 3;

/// The place of `Eq` in `Trait::VARIANTS`.
pub const EQ: u8 = 4;

/// The place of `PartialOrd` in `Trait::VARIANTS`.
pub const PARTIAL_ORD: u8 = 5;

/// The place of `Ord` in `Trait::VARIANTS`.
pub const ORD: u8 = 6;

/// The place of `Hash` in `Trait::VARIANTS`.
pub const HASH: u8 = 7;

/// The trait at the place in `Trait::VARIANTS`; a place behind the last stands for the last.
pub const fn trait_at(place: u8) -> Trait
    ensures { result ≡ spec.trait_at place }
{
    match place {
        0 => Trait::Debug,
        CLONE => Trait::Clone,
        COPY => Trait::Copy,
        PARTIAL_EQ => Trait::PartialEq,
        EQ => Trait::Eq,
        PARTIAL_ORD => Trait::PartialOrd,
        ORD => Trait::Ord,
        HASH => Trait::Hash,
        _ => Trait::Default,
    }
}
