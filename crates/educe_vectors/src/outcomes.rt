//! What functions evaluate to, as texts.

use educe_body::{DebugShape, Entry, FieldValue, Outcome, Value};
use educe_tokens::{Seq, Spelling};
use std::alloc::{AllocError, Global};
use std::cmp::Ordering;

/// The word of an order.
fn word(order: Ordering) -> &'static str {
    match order {
        Ordering::Less => "Less",
        Ordering::Equal => "Equal",
        Ordering::Greater => "Greater",
    }
}

/// The text of what may be an order, as in `Some(Less)`.
fn partial(alloc: Global, order: Option<Ordering>) -> Result<String, AllocError> {
    match order {
        Some(order) => format!(in alloc; "Some({})", word(order)),
        None => String::from_str(alloc, "None"),
    }
}

/// The text of what a hasher is fed, as in `[7, 8]`.
fn parts(alloc: Global, parts: &[i128]) -> Result<String, AllocError> {
    let mut text = String::from_str(alloc, "[")?;
    let mut between = "";
    for part in parts {
        write!(text, "{between}{part}")?;
        between = ", ";
    }
    text.push_str("]")?;
    Ok(text)
}

/// The text of a value, as in `1(7, 8)`.
fn built(alloc: Global, value: &Value) -> Result<String, AllocError> {
    let variant = value.variant;
    let mut text = format!(in alloc; "{variant}(")?;
    let mut between = "";
    for field in value.fields.as_slice() {
        let number = field.number;
        write!(text, "{between}{number}")?;
        between = ", ";
    }
    text.push_str(")")?;
    Ok(text)
}

/// The text of the number of a whole value, as in `whole 7`.
fn whole(alloc: Global, value: &FieldValue) -> Result<String, AllocError> {
    let number = value.number;
    format!(in alloc; "whole {number}")
}

/// The numbers of entries, as texts.
fn shown(alloc: Global, entries: &[Entry]) -> Result<Seq<Spelling>, AllocError> {
    let mut texts = Seq::new(alloc);
    for entry in entries {
        let number = entry.value.number.to_string(alloc)?;
        texts.push(Spelling::from_str(alloc, number.as_str())?)?;
    }
    Ok(texts)
}

/// The text of what is shown, where each field prints as its number.
fn shape(alloc: Global, shape: &DebugShape) -> Result<String, AllocError> {
    let numbers = shown(alloc, shape.entries.as_slice())?;
    shape.plain_text(alloc, numbers.as_slice())
}

/// What a function evaluates to, as a text.
pub fn rendered(alloc: Global, outcome: &Outcome) -> Result<String, AllocError> {
    match outcome {
        Outcome::Truth(b) => b.to_string(alloc),
        Outcome::Order(order) => String::from_str(alloc, word(*order)),
        Outcome::PartialOrder(order) => partial(alloc, *order),
        Outcome::Parts(fed) => parts(alloc, fed.as_slice()),
        Outcome::Made(value) => built(alloc, value),
        Outcome::Whole(value) => whole(alloc, value),
        Outcome::Shape(shown) => shape(alloc, shown),
        Outcome::Stuck => String::from_str(alloc, "stuck"),
    }
}
