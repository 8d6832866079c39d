//! What bodies evaluate to.

use crate::shape::DebugShape;
use crate::value::{FieldValue, Parts, Value};
use std::cmp::Ordering;

/// What a body evaluates to.
#[derive(Drop)]
pub enum Outcome {
    Truth(bool),
    Order(Ordering),
    PartialOrder(Option<Ordering>),
    /// What a hasher is fed, in order.
    Parts(Parts),
    /// The value that is built, or what `self` becomes.
    Made(Value),
    /// What a call makes of a whole type, or of a whole value, also where `self` becomes this.
    Whole(FieldValue),
    /// What `fmt` shows.
    Shape(DebugShape),
    /// There is no value.
    Stuck,
}
