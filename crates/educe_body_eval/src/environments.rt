//! What a body begins with.
ghost use Rattle.std.specs.Prelude.{◌≡◌, ◌++◌, IfOk};
ghost use Rattle.std.specs.Option.{option_copied};
ghost use Rattle.educe_body_values.specs.Meaning.{start, all_bound, param_referent, first_own, own_value};

use educe_body_forms::Names;
use educe_body_values::{Binding, Bindings, Env, Own, Referent, Value};
use educe_tokens::{Seq, Spelling, Word};
use std::alloc::{AllocError, Global};

/// What `self` is as a body begins.
fn first_own(alloc: Global, this: Option<&Value>) -> Result<Option<Own>, AllocError>
    ensures { IfOk result (λ own. own ≡ first_own (option_copied this.entry)) }
{
    match this {
        Some(value) => Ok(Some(Own::Value(value.duplicate(alloc)?))),
        None => Ok(None),
    }
}

/// The value of `self`, as long as its fields are known.
pub(crate) fn own_value(own: &Option<Own>) -> Option<&Value>
    ensures { option_copied result ≡ own_value own.now }
{
    match own {
        Some(Own::Value(value)) => Some(value),
        _ => None,
    }
}

/// The names that are in scope as a body begins: `self`, which has this value, and the parameters.
/// A single parameter stands for the other value; of several, none has a value of its own.
pub(crate) fn started(
    alloc: Global,
    params: &Names,
    this: Option<&Value>,
) -> Result<Env, AllocError>
    ensures { IfOk result (λ env. env ≡ start params.now (option_copied this.entry)) }
{
    let mut names = Bindings::new(alloc);
    names.push(Binding {
        name: Spelling::from_str(alloc, "self")?,
        referent: Referent::This,
    })?;
    let params = params.as_slice();
    let names = bind_all(alloc, names, param_referent(params), params)?;
    let parts = Seq::new(alloc);
    let own = first_own(alloc, this)?;
    let arguments = Seq::new(alloc);
    Ok(Env {
        names,
        parts,
        own,
        shown: None,
        arguments,
    })
}

/// What the parameters of a body stand for.
fn param_referent(params: &[Word]) -> Referent
    ensures { result ≡ param_referent params.now }
{
    match params {
        [_] => Referent::Other,
        _ => Referent::Inert,
    }
}

/// Adds names that all stand for the same.
fn bind_all(
    alloc: Global,
    outer: Bindings,
    referent: Referent,
    names: &[Word],
) -> Result<Bindings, AllocError>
    ensures { IfOk result (λ bound. bound ≡ outer ++ all_bound referent names.now) }
{
    let mut bound = outer;
    for name in names {
        bound.push(Binding {
            name: name.text.duplicate(alloc)?,
            referent,
        })?;
    }
    Ok(bound)
}
