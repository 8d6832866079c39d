//! How the evaluation of a form ends, and what goes on behind it.

use crate::environment::Env;
use crate::value::{FieldValue, Value};
use educe_discriminants::Number;
use std::cmp::Ordering;

/// What a form gives.
#[derive(Drop)]
pub enum Thing {
    Nothing,
    Truth(bool),
    Order(Ordering),
    PartialOrder(Option<Ordering>),
    Part(FieldValue),
    /// A discriminant.
    Number(Number),
    /// The place of a variant.
    Position(usize),
    /// What a call feeds to a hasher.
    Hashed(i128),
    /// A value that a call made.
    Made(FieldValue),
    /// A value that is built of its fields.
    Built(Value),
    /// An argument, by its place among those that were made.
    Argument(usize),
    /// What is shown.
    Shown,
    /// What does not count among the arguments of a call: a hasher.
    Inert,
}

/// How the evaluation of a form ends, and what has changed then.
#[derive(Drop)]
pub enum Flow {
    Gives(Env, Thing),
    Returns(Env, Thing),
    /// There is no value.
    Stuck,
}
