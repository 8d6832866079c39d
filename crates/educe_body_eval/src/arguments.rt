//! Arguments whose `Debug` calls a method on a field.
ghost use Rattle.std.specs.Prelude.{◌≡◌, ◌∷◌, [], IfOk};
ghost use Rattle.educe_body_values.specs.Meaning as meaning;

use crate::scoping::{callee_in, names_bound};
use crate::showing::declared;
use educe_body_forms::ArgumentNames;
use educe_body_values::{
    ArgumentMade, Binding, Callee, Env, FieldValue, Flow, Referent, Thing, text_of_path,
};
use educe_tokens::Written;
use educe_tree::{ExprPath, Ident};
use std::alloc::{AllocError, Global};

/// Adds a name that has no value of its own.
fn bind_inert(alloc: Global, env: Env, name: &Ident) -> Result<Env, AllocError>
    ensures { IfOk result (λ after. after ≡ meaning.enter env (meaning.inert name.now ∷ [])) }
{
    let mut env = env;
    let name = name.text.duplicate(alloc)?;
    let referent = Referent::Inert;
    env.names.push(Binding { name, referent })?;
    Ok(env)
}

/// An argument of this name is made of a field, where the method calls something there.
fn argument_made(
    alloc: Global,
    env: Env,
    name: &Ident,
    path: &ExprPath,
    value: FieldValue,
    callee: Option<Callee>,
) -> Result<Flow, AllocError>
    ensures { IfOk result (λ flow. flow ≡ meaning.argument_made env name.now.text path.now value callee) }
{
    if callee.is_none() {
        return Ok(Flow::Stuck);
    }
    let mut env = env;
    let place = env.arguments.len();
    let method = text_of_path(alloc, path)?;
    env.arguments.push(ArgumentMade { method, value })?;
    declared(alloc, env, &name.text, Referent::Argument(place))
}

/// An argument is made of a field of this type, where neither its text nor that of the method has a
/// name in scope.
fn made_of_field(
    alloc: Global,
    own: &ArgumentNames,
    ty: &Written,
    path: &ExprPath,
    env: Env,
    value: FieldValue,
) -> Result<Flow, AllocError>
    ensures { IfOk result (λ flow. flow ≡ meaning.argument_flow own.now ty.now path.now env (Thing.Part value)) }
{
    let count = env.names.len();
    let env = bind_inert(alloc, env, &own.wrapper)?;
    if names_bound(env.names.as_slice(), ty.tokens().as_slice()) {
        return Ok(Flow::Stuck);
    }
    let env = bind_inert(alloc, env, &own.own_value)?;
    let mut env = bind_inert(alloc, env, &own.own_formatter)?;
    let callee = callee_in(alloc, env.names.as_slice(), path)?;
    env.names.truncate(count);
    argument_made(alloc, env, &own.argument, path, value, callee)
}

/// An argument is made of what a form gives.
pub(crate) fn argument_flow(
    alloc: Global,
    own: &ArgumentNames,
    ty: &Written,
    path: &ExprPath,
    inner: Flow,
) -> Result<Flow, AllocError>
    ensures { IfOk result (λ flow. flow ≡ meaning.go_on inner (meaning.argument_flow own.now ty.now path.now)) }
{
    match inner {
        Flow::Gives(env, thing) => match thing {
            Thing::Part(value) => made_of_field(alloc, own, ty, path, env, value),
            _ => Ok(Flow::Stuck),
        },
        Flow::Returns(env, thing) => Ok(Flow::Returns(env, thing)),
        Flow::Stuck => Ok(Flow::Stuck),
    }
}
