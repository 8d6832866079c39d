//! Assignments to `self` and to its fields.
ghost use Rattle.std.specs.Prelude.{◌≡◌, ◌∷◌, [], ◌++◌, IfOk};
ghost use Rattle.std.specs.Option.{option_copied};
ghost use Rattle.educe_body_values.specs.Meaning as meaning;

use crate::calls::called;
use crate::environments::own_value;
use crate::flows::{add_counted, made_value};
use crate::reading::local_value;
use crate::scoping::callee_in;
use educe_body_values::{
    Env, FieldValue, FieldValues, Flow, Own, Referent, Stage, Thing, Value, with_values,
};
use educe_tokens::Seq;
use educe_tree::ExprPath;
use std::alloc::{AllocError, Global};

/// The fields with another one at a place, where there is one.
fn set_at(
    alloc: Global,
    place: usize,
    x: FieldValue,
    fields: &[FieldValue],
) -> Result<Option<FieldValues>, AllocError>
    ensures { IfOk result (λ found. found ≡ meaning.set_at place x fields.now) }
{
    if place >= fields.len() {
        return Ok(None);
    }
    let mut found = with_values(Seq::new(alloc), &fields[..place])?;
    found.push(x)?;
    let found = with_values(found, &fields[place + 1..])?;
    Ok(Some(found))
}

/// `self` with another field at a place, where it has one there.
fn with_field(
    alloc: Global,
    place: usize,
    x: FieldValue,
    value: Option<&Value>,
) -> Result<Option<Own>, AllocError>
    ensures { IfOk result (λ own. own ≡ meaning.with_field place x (option_copied value.entry)) }
{
    let Some(value) = value else {
        return Ok(None);
    };
    let variant = value.variant;
    match set_at(alloc, place, x, value.fields.as_slice())? {
        Some(fields) => Ok(Some(Own::Value(Value { variant, fields }))),
        None => Ok(None),
    }
}

/// `self` where this is assigned to what a name stands for.
fn assigned(
    alloc: Global,
    target: &Option<Referent>,
    x: FieldValue,
    own: &Option<Own>,
) -> Result<Option<Own>, AllocError>
    ensures { IfOk result (λ found. found ≡ meaning.assigned target.now x own.now) }
{
    match target {
        Some(Referent::This) => Ok(Some(Own::Whole(x))),
        Some(Referent::OwnField(place)) => with_field(alloc, *place, x, own_value(own)),
        _ => Ok(None),
    }
}

/// `self` is this from now on, where it is something.
fn with_own(env: Env, own: Option<Own>) -> Flow
    ensures { result ≡ meaning.with_own env own }
{
    match own {
        Some(own) => {
            let mut env = env;
            env.own = Some(own);
            Flow::Gives(env, Thing::Nothing)
        }
        None => Flow::Stuck,
    }
}

/// What a call made is assigned to what a name stands for.
fn store(alloc: Global, target: &Option<Referent>, made: Flow) -> Result<Flow, AllocError>
    ensures { IfOk result (λ flow. flow ≡ meaning.go_on made (meaning.if_made (meaning.stored target.now))) }
{
    match made {
        Flow::Gives(env, thing) => match made_value(thing) {
            Some(x) => {
                let own = assigned(alloc, target, x, &env.own)?;
                Ok(with_own(env, own))
            }
            None => Ok(Flow::Stuck),
        },
        Flow::Returns(env, thing) => Ok(Flow::Returns(env, thing)),
        Flow::Stuck => Ok(Flow::Stuck),
    }
}

/// What a call makes is assigned to what a name stands for. It is handed what stands in front, all of
/// which counts, and then the value.
fn assign_call(
    alloc: Global,
    path: &ExprPath,
    target: &Option<Referent>,
    front: Seq<Thing>,
    env: Env,
    thing: Thing,
    stage: &Stage,
) -> Result<Flow, AllocError>
    requires { meaning.counted front ≡ front }
    ensures { let here = meaning.scene_at stage.now in
        let made = meaning.call_value here env.names path.now env (front ++ thing ∷ []) in
        IfOk result (λ flow. flow ≡ meaning.go_on made (meaning.if_made (meaning.stored target.now))) }
{
    let arguments = add_counted(front, thing)?;
    let callee = callee_in(alloc, env.names.as_slice(), path)?;
    let made = called(env, &callee, arguments.as_slice(), stage.answers);
    store(alloc, target, made)
}

/// What a call makes of a value is assigned to what a name stands for; where the truth value holds, the
/// call is handed that before the value.
pub(crate) fn assign(
    alloc: Global,
    path: &ExprPath,
    handed: bool,
    target: &Option<Referent>,
    env: Env,
    thing: Thing,
    stage: &Stage,
) -> Result<Flow, AllocError>
    ensures { let here = meaning.scene_at stage.now in
        IfOk result (λ flow. flow ≡ meaning.assign here path.now handed target.now env thing) }
{
    if !handed {
        return assign_call(alloc, path, target, Seq::new(alloc), env, thing, stage);
    }
    let Some(x) = local_value(stage, &env, target) else {
        return Ok(Flow::Stuck);
    };
    let front = add_counted(Seq::new(alloc), Thing::Part(x))?;
    assign_call(alloc, path, target, front, env, thing, stage)
}
