//! What calls give.
ghost use Rattle.std.specs.Prelude.{◌≡◌};
ghost use Rattle.educe_body_values.specs.Meaning.{counted, call_named, call_answer, numbers_flow, position_flow, answer_flow};

use educe_body_values::{Answer, Answers, Callee, Env, Flow, Thing};
use educe_discriminants::Number;

/// What a call gives by its arguments, all of which count.
pub(crate) fn called(
    env: Env,
    callee: &Option<Callee>,
    arguments: &[Thing],
    answers: &Answers,
) -> Flow
    requires { counted arguments.now ≡ arguments.now }
    ensures { result ≡ call_named answers.now callee.now env arguments.now }
{
    match callee {
        Some(callee) => answer(env, callee, arguments, answers),
        None => Flow::Stuck,
    }
}

/// The answer of a call of at most two arguments: field values, two numbers, or the place of a
/// variant.
fn answer(env: Env, callee: &Callee, arguments: &[Thing], answers: &Answers) -> Flow
    ensures { result ≡ call_answer env answers.now callee.now arguments.now }
{
    match arguments {
        [] => answered(env, answers.answer(callee, None, None)),
        [Thing::Part(x)] => answered(env, answers.answer(callee, Some(*x), None)),
        [Thing::Part(x), Thing::Part(y)] => {
            answered(env, answers.answer(callee, Some(*x), Some(*y)))
        }
        [Thing::Number(m), Thing::Number(n)] => compared(env, callee, *m, *n),
        [Thing::Position(place)] => hashed_place(env, callee, *place),
        _ => Flow::Stuck,
    }
}

/// The order of two numbers, which only `Ord::cmp` compares.
fn compared(env: Env, callee: &Callee, first: Number, second: Number) -> Flow
    ensures { result ≡ numbers_flow env callee.now first second }
{
    match callee {
        Callee::Cmp => Flow::Gives(env, Thing::Order(first.cmp(&second))),
        _ => Flow::Stuck,
    }
}

/// The place of a variant, which only `Hash::hash` takes.
fn hashed_place(env: Env, callee: &Callee, place: usize) -> Flow
    ensures { result ≡ position_flow env callee.now place }
{
    match callee {
        Callee::Hash => Flow::Gives(env, Thing::Hashed(place as i128)),
        _ => Flow::Stuck,
    }
}

fn answered(env: Env, answer: Option<Answer>) -> Flow
    ensures { result ≡ answer_flow env answer }
{
    match answer {
        Some(Answer::Truth(b)) => Flow::Gives(env, Thing::Truth(b)),
        Some(Answer::Order(o)) => Flow::Gives(env, Thing::Order(o)),
        Some(Answer::PartialOrder(p)) => Flow::Gives(env, Thing::PartialOrder(p)),
        Some(Answer::Number(n)) => Flow::Gives(env, Thing::Number(Number::from(n))),
        Some(Answer::Part(n)) => Flow::Gives(env, Thing::Hashed(n)),
        Some(Answer::Made(x)) => Flow::Gives(env, Thing::Made(x)),
        None => Flow::Stuck,
    }
}
