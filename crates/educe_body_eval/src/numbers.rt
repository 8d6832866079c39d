//! The numbers of constants, and of key functions (Rust Reference, Enumerations).
ghost use Rattle.std.specs.Prelude.{◌≡◌, IfOk, option_and_then};
ghost use Rattle.std.specs.Option.{option_copied};
ghost use Rattle.educe_body_values.specs.Constants as spec;
ghost use Rattle.educe_body_values.specs.Meaning as meaning;

use crate::environments::own_value;
use crate::matching::fits;
use crate::scoping::names_bound;
use educe_body_forms::{Constant, Distance, KeyArm, Pattern};
use educe_body_values::{Answer, Answers, Binding, Callee, Env, Referent, Stage, Value};
use educe_discriminants::{Number, literal_number};
use educe_tokens::Spelling;
use educe_tree::{DeriveInput, Expr, Ident, text_of_tree};
use std::alloc::{AllocError, Global};

/// The number that is answered.
fn answered_number(answer: Option<Answer>) -> Option<Number>
    ensures { result ≡ spec.answered_number answer }
{
    match answer {
        Some(Answer::Number(number)) => Some(Number::from(number)),
        _ => None,
    }
}

/// The number that a table answers for the text of an expression.
fn text_number(alloc: Global, answers: &Answers, value: &Expr) -> Result<Option<Number>, AllocError>
    ensures { IfOk result (λ number. number ≡ spec.text_number answers.now value.now) }
{
    let text = text_of_tree(alloc, value)?;
    let callee = Callee::Written(Spelling::from_str(alloc, &text)?);
    Ok(answered_number(answers.answer(&callee, None, None)))
}

/// The number of an expression where these names are in scope.
fn number_in(
    alloc: Global,
    answers: &Answers,
    names: &[Binding],
    value: &Expr,
) -> Result<Option<Number>, AllocError>
    ensures { IfOk result (λ number. number ≡ spec.number_in answers.now names.now value.now) }
{
    let tokens = value.written.tokens().as_slice();
    if names_bound(names, tokens) {
        return Ok(None);
    }
    match literal_number(tokens) {
        Some(number) => Ok(Some(number)),
        None => text_number(alloc, answers, value),
    }
}

/// The number behind another one.
fn behind(distance: &Option<Distance>, number: Number) -> Number
    ensures { result ≡ spec.behind distance.now number }
{
    match distance {
        None => number,
        Some(distance) => distance.ty.wrapping_add(number, distance.steps),
    }
}

/// The number of a constant where these names are in scope.
fn constant_number(
    alloc: Global,
    answers: &Answers,
    names: &[Binding],
    constant: &Constant,
) -> Result<Option<Number>, AllocError>
    ensures { IfOk result (λ number.
        number ≡ spec.constant_number answers.now names.now constant.now) }
{
    match number_in(alloc, answers, names, constant.value.get())? {
        Some(number) => Ok(Some(behind(&constant.distance, number))),
        None => Ok(None),
    }
}

/// Whether a pattern names no field.
fn is_bare(pattern: &Pattern) -> bool
    ensures { result ≡ spec.is_bare pattern.now }
{
    pattern.rest || pattern.fields.len() == 0
}

/// The number of a key's arm.
fn bare_number(
    alloc: Global,
    answers: &Answers,
    names: &[Binding],
    arm: &KeyArm,
) -> Result<Option<Number>, AllocError>
    ensures { IfOk result (λ number. number ≡ spec.bare_number answers.now names.now arm.now) }
{
    if is_bare(&arm.pattern) {
        constant_number(alloc, answers, names, &arm.constant)
    } else {
        Ok(None)
    }
}

/// The number that a key function gives for a value.
fn arms_number(
    alloc: Global,
    ast: &DeriveInput,
    answers: &Answers,
    names: &[Binding],
    arms: &[KeyArm],
    value: &Value,
) -> Result<Option<Number>, AllocError>
    ensures { IfOk result (λ number.
        number ≡ spec.arms_number ast.now answers.now names.now arms.now value.now) }
{
    for arm in arms {
        if fits(ast, &arm.pattern, value) {
            return bare_number(alloc, answers, names, arm);
        }
    }
    Ok(None)
}

/// The number that a key function gives for a value that may be missing.
fn number_for(
    alloc: Global,
    stage: &Stage,
    names: &[Binding],
    arms: &[KeyArm],
    value: Option<&Value>,
) -> Result<Option<Number>, AllocError>
    ensures { let here = meaning.scene_at stage.now in
        let number_of = spec.arms_number here.definition here.answers names.now arms.now in
        IfOk result (λ number. number ≡ option_and_then number_of (option_copied value.entry)) }
{
    match value {
        Some(value) => arms_number(alloc, stage.scope.ast, stage.answers, names, arms, value),
        None => Ok(None),
    }
}

/// What a key function stands for: its numbers for both values, with its parameter in scope.
fn keys_of(alloc: Global, stage: &Stage, env: &Env, arms: &[KeyArm]) -> Result<Referent, AllocError>
    ensures { let here = meaning.scene_at stage.now in
        let number_of = spec.arms_number here.definition here.answers env.now.names arms.now in
        let this = option_and_then number_of (meaning.own_value env.now.own) in
        let other = option_and_then number_of here.other in
        IfOk result (λ referent. referent ≡ Referent.Keys this other) }
{
    let names = env.names.as_slice();
    let this = number_for(alloc, stage, names, arms, own_value(&env.own))?;
    let other = number_for(alloc, stage, names, arms, stage.scope.other)?;
    Ok(Referent::Keys(this, other))
}

/// Adds a key function to the names in scope.
pub(crate) fn bind_keys(
    alloc: Global,
    stage: &Stage,
    name: &Ident,
    this: &Ident,
    arms: &[KeyArm],
    env: Env,
) -> Result<Env, AllocError>
    ensures { let here = meaning.scene_at stage.now in
        IfOk result (λ after. after ≡ meaning.with_keys here env name.now this.now arms.now) }
{
    let mut env = env;
    let count = env.names.len();
    env.names.push(Binding {
        name: this.text.duplicate(alloc)?,
        referent: Referent::Inert,
    })?;
    let referent = keys_of(alloc, stage, &env, arms)?;
    env.names.truncate(count);
    env.names.push(Binding {
        name: name.text.duplicate(alloc)?,
        referent,
    })?;
    Ok(env)
}
