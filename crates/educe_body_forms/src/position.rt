//! The places of variants.
ghost use Rattle.std.specs.Prelude.{◌<◌, ◌^◌};

/// The place of a variant among all of a definition, counted from 0, which is printed as an integer
/// of the type `usize`.
#[derive(Clone, Copy)]
pub struct Position {
    pub place: usize,
    pub ghost fits: { place < 2 ^ 64 },
}
