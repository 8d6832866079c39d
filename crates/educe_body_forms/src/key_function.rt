//! The arms of key functions, which give the discriminants of values.
ghost use Rattle.std.specs.Prelude.{◌<◌, ◌^◌};

use crate::pattern::Pattern;
use crate::shared::Shared;
use educe_discriminants::DiscriminantType;
use educe_tokens::Seq;
use educe_tree::{Expr, Ident};

/// How far a constant stands behind an expression, the name of the expression's value, and the type
/// in which the sum wraps.
#[derive(Drop)]
pub struct Distance {
    pub steps: usize,
    pub base: Ident,
    pub ty: DiscriminantType,
    pub ghost fits: { steps < 2 ^ 64 },
}

/// The constant of a variant: `const { e }`, or with a distance
/// `const { let base: D = e; base.wrapping_add(3usize as D) }` (Rust Reference, Const block
/// expressions). Constants of one expression share it.
#[derive(Drop)]
pub struct Constant {
    pub value: Shared<Expr>,
    pub distance: Option<Distance>,
}

/// An arm of a key function: a pattern, and the constant of its variant.
#[derive(Drop)]
pub struct KeyArm {
    pub pattern: Pattern,
    pub constant: Constant,
}

/// The arms of a key function in their order.
pub type KeyArms = Seq<KeyArm>;
