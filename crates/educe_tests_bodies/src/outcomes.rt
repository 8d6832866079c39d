//! What bodies evaluate to, as tests compare it.
ghost use Rattle.std.specs.Prelude.{◌≡◌, IfSome, None};
ghost use Rattle.educe_tests_bodies.specs.Outcomes.{shown, IsShape};

use educe_body::{FieldValue, Outcome};
use std::cmp::Ordering;

/// What a body evaluates to, with lists that are lent.
#[derive(Clone, Copy, Debug, PartialEq, Eq)]
pub enum Seen<'a> {
    Truth(bool),
    Order(Ordering),
    PartialOrder(Option<Ordering>),
    /// What a hasher is fed, in order.
    Parts(&'a [i128]),
    /// The place of the variant of a value that is built, and its fields.
    Made(u32, &'a [FieldValue]),
    /// What the default value of a whole type makes.
    Whole(FieldValue),
    /// There is no value.
    Stuck,
}

/// What a body evaluates to, lent. What `fmt` shows is none of these: tests compare its text.
pub fn lent(outcome: &Outcome) -> Option<Seen<'_>>
    ensures seen { IfSome result (λ seen. shown seen ≡ outcome.now) }
    ensures unseen { result ≡ None → IsShape outcome.now }
{
    let seen = match outcome {
        Outcome::Truth(b) => Seen::Truth(*b),
        Outcome::Order(o) => Seen::Order(*o),
        Outcome::PartialOrder(p) => Seen::PartialOrder(*p),
        Outcome::Parts(parts) => Seen::Parts(parts.as_slice()),
        Outcome::Made(value) => Seen::Made(value.variant, value.fields.as_slice()),
        Outcome::Whole(x) => Seen::Whole(*x),
        Outcome::Stuck => Seen::Stuck,
        Outcome::Shape(_) => return None,
    };
    Some(seen)
}
