//! The variants of values, and what patterns bind (Rust Reference, Patterns).
ghost use Rattle.std.specs.Prelude.{◌≡◌, [], Some, IfOk};
ghost use Rattle.std.specs.Option.{option_copied, option_map};
ghost use Rattle.educe_body_values.specs.Matching as spec;
ghost use Rattle.educe_body_values.specs.Meaning.{enter, referent_at, fields_from, scene_at, value_named, bound_named};

use crate::reading::named;
use educe_body_forms::{Pattern, PatternField, is_text};
use educe_body_values::{Binding, Env, FieldValue, Referent, Stage, Value};
use educe_tokens::Word;
use educe_tree::{DeriveInput, Field, Ident, Shape, Variant};
use std::alloc::{AllocError, Global};

/// The variant of a value, if the definition has it.
fn variant_of<'a>(ast: &'a DeriveInput, value: &Value) -> Option<&'a Variant>
    ensures { option_copied result ≡ spec.variant_of ast.now value.now }
{
    match &ast.shape {
        Shape::Struct(_) => None,
        Shape::Enum(variants) => variants.as_slice().get(value.variant as usize),
    }
}

/// Whether a value is of the pattern's variant.
pub(crate) fn fits(ast: &DeriveInput, pattern: &Pattern, value: &Value) -> bool
    ensures { result ≡ spec.fits ast.now pattern.now value.now }
{
    match variant_of(ast, value) {
        Some(variant) => is_text(&variant.ident.text, pattern.variant.text.as_str()),
        None => false,
    }
}

/// Whether the value of a name, where there is one, is of the pattern's variant.
pub(crate) fn fits_named(
    alloc: Global,
    stage: &Stage,
    env: &Env,
    pattern: &Pattern,
    found: &Option<Referent>,
) -> Result<Option<bool>, AllocError>
    ensures { let here = scene_at stage.now in
        let value = value_named here env.now found.now in
        IfOk result (λ test. test ≡ option_map (spec.fits here.definition pattern.now) value) }
{
    match named(alloc, stage, env, found)? {
        Some(value) => Ok(Some(fits(stage.scope.ast, pattern, &value))),
        None => Ok(None),
    }
}

/// Whether the key is the name of a field, and none where the field has none.
pub(crate) fn has_key(key: &Option<Word>, name: &Option<Ident>) -> bool
    ensures { result ≡ spec.has_key key.now name.now }
{
    match (key, name) {
        (None, None) => true,
        (Some(key), Some(name)) => is_text(&name.text, key.as_str()),
        _ => false,
    }
}

/// Adds the name that a pattern gives a field, if it gives one.
fn bind(
    alloc: Global,
    env: Env,
    name: &Option<Ident>,
    referent: Referent,
) -> Result<Env, AllocError>
    ensures { IfOk result (λ after. after ≡ enter env (spec.bound_to name.now referent [])) }
{
    let mut env = env;
    if let Some(name) = name {
        env.names.push(Binding {
            name: name.text.duplicate(alloc)?,
            referent,
        })?;
    }
    Ok(env)
}

/// What a field at a place stands for, where a pattern binds it of the value of a name.
fn referent_at(found: &Option<Referent>, place: usize, x: FieldValue) -> Referent
    ensures { result ≡ referent_at found.now place x }
{
    match found {
        Some(Referent::This) => Referent::OwnField(place),
        _ => Referent::Bound(x),
    }
}

/// Adds what the fields of a pattern bind, if each has the key of its field and they are as many.
fn bind_fields(
    alloc: Global,
    env: Env,
    fields: &[Field],
    pattern: &[PatternField],
    found: &Option<Referent>,
    values: &[FieldValue],
) -> Result<Option<Env>, AllocError>
    ensures { let referents = fields_from found.now 0 values.now in
        IfOk result (λ after.
        after ≡ option_map (enter env) (spec.fields_bound fields.now pattern.now referents)) }
{
    if fields.len() != pattern.len() || fields.len() != values.len() {
        return Ok(None);
    }
    let mut env = env;
    for i in 0..fields.len() {
        if !has_key(&pattern[i].key, &fields[i].ident) {
            return Ok(None);
        }
        let referent = referent_at(found, i, values[i]);
        env = bind(alloc, env, &pattern[i].name, referent)?;
    }
    Ok(Some(env))
}

/// Adds what a pattern binds of a value of this variant, the value of a name, to the names in scope.
fn bind_variant(
    alloc: Global,
    variant: &Variant,
    pattern: &Pattern,
    found: &Option<Referent>,
    values: &[FieldValue],
    env: Env,
) -> Result<Option<Env>, AllocError>
    ensures { let referents = fields_from found.now 0 values.now in
        IfOk result (λ after.
        after ≡ option_map (enter env) (spec.bound_of (Some variant.now) pattern.now referents)) }
{
    if pattern.rest {
        return Ok(Some(env));
    }
    let fields = variant.fields.fields.as_slice();
    bind_fields(alloc, env, fields, pattern.fields.as_slice(), found, values)
}

/// Adds what a pattern binds of the value of a name to the names in scope.
pub(crate) fn bind_pattern(
    alloc: Global,
    stage: &Stage,
    pattern: &Pattern,
    found: &Option<Referent>,
    env: Env,
) -> Result<Option<Env>, AllocError>
    ensures { let bindings = bound_named (scene_at stage.now) env pattern.now found.now in
        IfOk result (λ after. after ≡ option_map (enter env) bindings) }
{
    let Some(value) = named(alloc, stage, &env, found)? else {
        return Ok(None);
    };
    let Some(variant) = variant_of(stage.scope.ast, &value) else {
        return Ok(None);
    };
    bind_variant(alloc, variant, pattern, found, value.fields.as_slice(), env)
}
