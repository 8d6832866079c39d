//! What goes on behind the evaluation of a form.
ghost use Rattle.std.specs.Prelude.{◌≡◌, ◌∷◌, [], ◌++◌, length, IfOk};
ghost use Rattle.educe_body_values.specs.Meaning as meaning;

use educe_body_forms::Known;
use educe_body_values::{Env, FieldValue, Flow, Thing};
use educe_discriminants::Number;
use educe_tokens::Seq;
use std::alloc::AllocError;
use std::cmp::Ordering;

/// A field value, where there is one.
pub(crate) fn part_flow(env: Env, part: Option<FieldValue>) -> Flow
    ensures { result ≡ meaning.part_flow env part }
{
    match part {
        Some(x) => Flow::Gives(env, Thing::Part(x)),
        None => Flow::Stuck,
    }
}

/// A number, where there is one.
pub(crate) fn number_flow(env: Env, number: Option<Number>) -> Flow
    ensures { result ≡ meaning.number_flow env number }
{
    match number {
        Some(number) => Flow::Gives(env, Thing::Number(number)),
        None => Flow::Stuck,
    }
}

pub(crate) fn known_thing(known: Known) -> Thing
    ensures { result ≡ meaning.known_thing known }
{
    match known {
        Known::Truth(b) => Thing::Truth(b),
        Known::Order(o) => Thing::Order(o),
        Known::PartialOrder(p) => Thing::PartialOrder(p),
    }
}

/// The names of a block end with it: so many are left as there were before it.
pub(crate) fn leave(count: usize, flow: Flow) -> Flow
    ensures { (names : _) → count ≡ length names → result ≡ meaning.leave names flow }
{
    match flow {
        Flow::Gives(mut env, thing) => {
            env.names.truncate(count);
            Flow::Gives(env, thing)
        }
        Flow::Returns(mut env, thing) => {
            env.names.truncate(count);
            Flow::Returns(env, thing)
        }
        Flow::Stuck => Flow::Stuck,
    }
}

/// Where a test is true, `false` is returned.
pub(crate) fn end_if(test: Flow) -> Flow
    ensures { result ≡ meaning.go_on test meaning.unless_true }
{
    match test {
        Flow::Gives(env, thing) => match thing {
            Thing::Truth(true) => Flow::Returns(env, Thing::Truth(false)),
            Thing::Truth(false) => Flow::Gives(env, Thing::Nothing),
            _ => Flow::Stuck,
        },
        Flow::Returns(env, thing) => Flow::Returns(env, thing),
        Flow::Stuck => Flow::Stuck,
    }
}

/// What a form gives is returned.
pub(crate) fn returned(inner: Flow) -> Flow
    ensures { result ≡ meaning.go_on inner Flow.Returns }
{
    match inner {
        Flow::Gives(env, thing) => Flow::Returns(env, thing),
        Flow::Returns(env, thing) => Flow::Returns(env, thing),
        Flow::Stuck => Flow::Stuck,
    }
}

/// The opposite of the truth that a form gives.
pub(crate) fn opposite(inner: Flow) -> Flow
    ensures { result ≡ meaning.go_on inner meaning.opposite }
{
    match inner {
        Flow::Gives(env, thing) => match thing {
            Thing::Truth(b) => Flow::Gives(env, Thing::Truth(!b)),
            _ => Flow::Stuck,
        },
        Flow::Returns(env, thing) => Flow::Returns(env, thing),
        Flow::Stuck => Flow::Stuck,
    }
}

/// An order in `Some`.
pub(crate) fn some_of(inner: Flow) -> Flow
    ensures { result ≡ meaning.go_on inner meaning.some_of }
{
    match inner {
        Flow::Gives(env, thing) => match thing {
            Thing::Order(o) => Flow::Gives(env, Thing::PartialOrder(Some(o))),
            _ => Flow::Stuck,
        },
        Flow::Returns(env, thing) => Flow::Returns(env, thing),
        Flow::Stuck => Flow::Stuck,
    }
}

/// What a call feeds to a hasher is added to what was fed.
pub(crate) fn hash_part(inner: Flow) -> Result<Flow, AllocError>
    ensures { IfOk result (λ flow. flow ≡ meaning.go_on inner meaning.hash_part) }
{
    match inner {
        Flow::Gives(mut env, thing) => match thing {
            Thing::Hashed(number) => {
                env.parts.push(number)?;
                Ok(Flow::Gives(env, Thing::Nothing))
            }
            _ => Ok(Flow::Stuck),
        },
        Flow::Returns(env, thing) => Ok(Flow::Returns(env, thing)),
        Flow::Stuck => Ok(Flow::Stuck),
    }
}

/// The arm of an order: `Equal` goes on, the others return.
fn order_arm(env: Env, greater: Ordering, less: Ordering, order: Ordering) -> Flow
    ensures { result ≡ meaning.order_arm env greater less order }
{
    match order {
        Ordering::Equal => Flow::Gives(env, Thing::Nothing),
        Ordering::Greater => Flow::Returns(env, Thing::Order(greater)),
        Ordering::Less => Flow::Returns(env, Thing::Order(less)),
    }
}

/// The arm of a partial order: none is returned.
fn partial_arm(env: Env, greater: Ordering, less: Ordering, order: Option<Ordering>) -> Flow
    ensures { result ≡ meaning.partial_arm env greater less order }
{
    match order {
        None => Flow::Returns(env, Thing::PartialOrder(None)),
        Some(Ordering::Equal) => Flow::Gives(env, Thing::Nothing),
        Some(Ordering::Greater) => Flow::Returns(env, Thing::PartialOrder(Some(greater))),
        Some(Ordering::Less) => Flow::Returns(env, Thing::PartialOrder(Some(less))),
    }
}

/// The arm of what is matched: with true that is a partial order.
pub(crate) fn take_arm(partial: bool, greater: Ordering, less: Ordering, matched: Flow) -> Flow
    ensures { result ≡ meaning.go_on matched (meaning.arm_of partial greater less) }
{
    match matched {
        Flow::Gives(env, thing) => match thing {
            Thing::Order(o) if !partial => order_arm(env, greater, less, o),
            Thing::PartialOrder(p) if partial => partial_arm(env, greater, less, p),
            _ => Flow::Stuck,
        },
        Flow::Returns(env, thing) => Flow::Returns(env, thing),
        Flow::Stuck => Flow::Stuck,
    }
}

/// An order as a function gives it: with true that is `partial_cmp`.
pub(crate) fn order_thing(partial: bool, order: Ordering) -> Thing
    ensures { result ≡ meaning.order_thing partial order }
{
    if partial {
        Thing::PartialOrder(Some(order))
    } else {
        Thing::Order(order)
    }
}

/// The value that a call made.
pub(crate) fn made_value(thing: Thing) -> Option<FieldValue>
    ensures { result ≡ meaning.made_value thing }
{
    match thing {
        Thing::Made(x) => Some(x),
        _ => None,
    }
}

/// Whether an argument counts.
fn counts(thing: &Thing) -> bool
    ensures { result ≡ meaning.counts thing.now }
{
    match thing {
        Thing::Inert => false,
        _ => true,
    }
}

/// Adds an argument, if it counts.
pub(crate) fn add_counted(arguments: Seq<Thing>, thing: Thing) -> Result<Seq<Thing>, AllocError>
    ensures { IfOk result (λ all. all ≡ arguments ++ meaning.counted (thing ∷ [])) }
{
    let mut arguments = arguments;
    if counts(&thing) {
        arguments.push(thing)?;
    }
    Ok(arguments)
}
