//! What names stand for, and the fields of values.
ghost use Rattle.std.specs.Prelude.{◌≡◌, IfOk};
ghost use Rattle.std.specs.Option.{option_copied};
ghost use Rattle.educe_body_forms.specs.Keys.{keys_from};
ghost use Rattle.educe_body_values.specs.Meaning.{scene_at, look_up, reference_value, local_value, local_flow, value_named, number_for, key_of, field_of, own_field, part_of, place_named, field_named, whole_value};

use crate::environments::own_value;
use crate::flows::part_flow;
use educe_body_forms::{has_key, index_of, is_text};
use educe_body_values::{Binding, Env, FieldValue, Flow, Referent, Stage, Thing, Value};
use educe_discriminants::Number;
use educe_tokens::Spelling;
use educe_tree::{Field, Shape};
use std::alloc::{AllocError, Global};

/// What a name stands for: the innermost binding, which is the last, counts.
pub(crate) fn find(names: &[Binding], name: &Spelling) -> Option<Referent>
    ensures { result ≡ look_up names.now name.now }
{
    let mut found = None;
    for binding in names {
        if is_text(&binding.name, name.as_str()) {
            found = Some(binding.referent);
        }
    }
    found
}

/// The field at a place of the value of `self`.
fn own_field(place: usize, value: Option<&Value>) -> Option<FieldValue>
    ensures { result ≡ own_field place (option_copied value.entry) }
{
    let Some(value) = value else {
        return None;
    };
    value.fields.as_slice().get(place).copied()
}

/// The value that a name stands for, as a table is shown it.
pub(crate) fn local_value(stage: &Stage, env: &Env, found: &Option<Referent>) -> Option<FieldValue>
    ensures { result ≡ local_value (scene_at stage.now) env.now found.now }
{
    match found {
        Some(Referent::This) => whole(own_value(&env.own)),
        Some(Referent::Other) => whole(stage.scope.other),
        Some(Referent::OwnField(place)) => own_field(*place, own_value(&env.own)),
        Some(Referent::Bound(value)) => Some(*value),
        _ => None,
    }
}

/// What a name gives, by what it stands for: a value, as a table is shown it, an argument, or what does
/// not count.
pub(crate) fn local(stage: &Stage, env: Env, found: &Option<Referent>) -> Flow
    ensures { result ≡ local_flow (scene_at stage.now) env found.now }
{
    match found {
        Some(Referent::Inert) => Flow::Gives(env, Thing::Inert),
        Some(Referent::Argument(place)) => Flow::Gives(env, Thing::Argument(*place)),
        _ => {
            let part = local_value(stage, &env, found);
            part_flow(env, part)
        }
    }
}

/// The whole value that a name stands for, copied.
pub(crate) fn named(
    alloc: Global,
    stage: &Stage,
    env: &Env,
    found: &Option<Referent>,
) -> Result<Option<Value>, AllocError>
    ensures { IfOk result (λ value. value ≡ value_named (scene_at stage.now) env.now found.now) }
{
    match found {
        Some(Referent::This) => copied(alloc, own_value(&env.own)),
        Some(Referent::Other) => copied(alloc, stage.scope.other),
        _ => Ok(None),
    }
}

fn copied(alloc: Global, value: Option<&Value>) -> Result<Option<Value>, AllocError>
    ensures { IfOk result (λ copy. copy ≡ option_copied value.entry) }
{
    match value {
        Some(value) => Ok(Some(value.duplicate(alloc)?)),
        None => Ok(None),
    }
}

/// The number of a value, of those that a key function gives.
fn number_for(
    this: Option<Number>,
    other: Option<Number>,
    value: Option<Referent>,
) -> Option<Number>
    ensures { result ≡ number_for this other value }
{
    match value {
        Some(Referent::This) => this,
        Some(Referent::Other) => other,
        _ => None,
    }
}

/// The number that a key function gives for a value, each by what its name stands for.
pub(crate) fn key(function: Option<Referent>, value: Option<Referent>) -> Option<Number>
    ensures { result ≡ key_of function value }
{
    match function {
        Some(Referent::Keys(this, other)) => number_for(this, other, value),
        _ => None,
    }
}

/// A whole value, as a table is shown it.
fn whole(value: Option<&Value>) -> Option<FieldValue>
    ensures { result ≡ whole_value (option_copied value.entry) }
{
    match value {
        None => None,
        Some(value) => Some(FieldValue {
            ty: u32::MAX,
            number: value.variant as i128,
        }),
    }
}

/// The field of the value that a base stands for.
pub(crate) fn reference(
    stage: &Stage,
    env: &Env,
    base: Option<Referent>,
    key: &Spelling,
) -> Option<FieldValue>
    ensures { result ≡ reference_value (scene_at stage.now) env.now base key.now }
{
    match base {
        Some(Referent::This) => field(stage, own_value(&env.own), key),
        Some(Referent::Other) => field(stage, stage.scope.other, key),
        _ => None,
    }
}

/// The place of the first field of that key.
fn place(fields: &[Field], key: &Spelling) -> Option<usize>
    ensures { result ≡ place_named (keys_from 0 fields.now) key.now }
{
    let index = index_of(key);
    for (i, field) in fields.iter().enumerate() {
        if has_key(i, field, key, index) {
            return Some(i);
        }
    }
    None
}

/// The field of `self` of this key, as what a name stands for.
pub(crate) fn field_named(stage: &Stage, key: &Spelling) -> Option<Referent>
    ensures { result ≡ field_named (scene_at stage.now) key.now }
{
    let Shape::Struct(shape) = &stage.scope.ast.shape else {
        return None;
    };
    match place(shape.fields.as_slice(), key) {
        Some(place) => Some(Referent::OwnField(place)),
        None => None,
    }
}

/// The value of a field of a value, where there is one. That of an enum has none that can be read
/// so.
fn field(stage: &Stage, value: Option<&Value>, key: &Spelling) -> Option<FieldValue>
    ensures { result ≡ field_of (scene_at stage.now) (option_copied value.entry) key.now }
{
    let Some(value) = value else {
        return None;
    };
    match &stage.scope.ast.shape {
        Shape::Struct(shape) => part(shape.fields.as_slice(), value.fields.as_slice(), key),
        Shape::Enum(_) => None,
    }
}

/// The value at the place of the first field of that key.
fn part(fields: &[Field], values: &[FieldValue], key: &Spelling) -> Option<FieldValue>
    ensures { result ≡ part_of (keys_from 0 fields.now) values.now key.now }
{
    let index = index_of(key);
    for (i, field) in fields.iter().enumerate() {
        if has_key(i, field, key, index) {
            if i < values.len() {
                return Some(values[i]);
            }
            return None;
        }
    }
    None
}
