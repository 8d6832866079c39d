//! What `fmt` shows, by what it hands to the formatter (documentation of `std`, `fmt::Formatter`).
ghost use Rattle.std.specs.Prelude.{◌≡◌, [], IfOk, slice_get};
ghost use Rattle.std.specs.Option.{option_map};
ghost use Rattle.educe_body_values.specs.Meaning as meaning;

use crate::reading::find;
use educe_body_forms::{EntryKey, Opening};
use educe_body_values::{
    ArgumentMade, Binding, DebugShape, Entry, Env, Flow, Referent, ShapeForm, Thing,
};
use educe_tokens::{Seq, Spelling};
use std::alloc::{AllocError, Global};

/// A name, and what it stands for, from now on.
pub(crate) fn declared(
    alloc: Global,
    env: Env,
    name: &Spelling,
    referent: Referent,
) -> Result<Flow, AllocError>
    ensures { IfOk result (λ flow. flow ≡ meaning.declared env name.now referent) }
{
    let mut env = env;
    let name = name.duplicate(alloc)?;
    env.names.push(Binding { name, referent })?;
    Ok(Flow::Gives(env, Thing::Nothing))
}

/// Whether something may be shown through what a name stands for.
fn may_show(env: &Env, found: &Option<Referent>) -> bool
    ensures { result ≡ meaning.may_show env.now found.now }
{
    match found {
        Some(Referent::Other) => env.shown.is_none(),
        _ => false,
    }
}

/// What is shown under this name, without entries.
fn bare_shape(alloc: Global, form: ShapeForm, name: &Spelling) -> Result<DebugShape, AllocError>
    ensures { IfOk result (λ shown. shown ≡ meaning.bare_shape form name.now) }
{
    let name = name.duplicate(alloc)?;
    let entries = Seq::new(alloc);
    Ok(DebugShape {
        form,
        name,
        entries,
    })
}

/// A text is written.
pub(crate) fn text_flow(
    alloc: Global,
    env: Env,
    found: &Option<Referent>,
    text: &Spelling,
) -> Result<Flow, AllocError>
    ensures { IfOk result (λ flow. flow ≡ meaning.text_flow env found.now text.now) }
{
    if !may_show(&env, found) {
        return Ok(Flow::Stuck);
    }
    let mut env = env;
    env.shown = Some(bare_shape(alloc, ShapeForm::Word, text)?);
    Ok(Flow::Gives(env, Thing::Shown))
}

/// The text that has no character.
fn no_text(alloc: Global) -> Result<Spelling, AllocError>
    ensures { IfOk result (λ text. text ≡ []) }
{
    Spelling::from_str(alloc, "")
}

/// What is shown as a builder is begun.
fn opened(alloc: Global, opening: &Opening) -> Result<DebugShape, AllocError>
    ensures { IfOk result (λ shown. shown ≡ meaning.opened opening.now) }
{
    match opening {
        Opening::Struct(shown) => bare_shape(alloc, ShapeForm::Struct, &shown.text),
        Opening::Tuple(shown) => bare_shape(alloc, ShapeForm::Tuple, &shown.text),
        Opening::Map => bare_shape(alloc, ShapeForm::Map, &no_text(alloc)?),
    }
}

/// A builder is begun, and has this name.
pub(crate) fn builder_flow(
    alloc: Global,
    env: Env,
    found: &Option<Referent>,
    builder: &Spelling,
    opening: &Opening,
) -> Result<Flow, AllocError>
    ensures { IfOk result (λ flow. flow ≡ meaning.builder_flow env found.now builder.now opening.now) }
{
    if !may_show(&env, found) {
        return Ok(Flow::Stuck);
    }
    let mut env = env;
    env.shown = Some(opened(alloc, opening)?);
    declared(alloc, env, builder, Referent::BuilderName)
}

/// What is shown, where the name is that of the builder.
pub(crate) fn finished(env: Env, found: &Option<Referent>) -> Flow
    ensures { result ≡ meaning.finished env found.now }
{
    match found {
        Some(Referent::BuilderName) => Flow::Gives(env, Thing::Shown),
        _ => Flow::Stuck,
    }
}

/// Whether a name stands for the helper type.
fn is_helper(found: Option<Referent>) -> bool
    ensures { result ≡ meaning.is_helper found }
{
    match found {
        Some(Referent::Helper) => true,
        _ => false,
    }
}

/// Whether an entry with this key is one of what is shown so.
fn fits_form(names: &[Binding], form: ShapeForm, key: &EntryKey) -> bool
    ensures { result ≡ meaning.fits_form names.now form key.now }
{
    match (form, key) {
        (ShapeForm::Struct, EntryKey::Named(_)) => true,
        (ShapeForm::Tuple, EntryKey::Unnamed) => true,
        (ShapeForm::Map, EntryKey::Mapped(helper, _)) => is_helper(find(names, &helper.text)),
        _ => false,
    }
}

/// The name of an entry.
fn key_text(alloc: Global, key: &EntryKey) -> Result<Spelling, AllocError>
    ensures { IfOk result (λ text. text ≡ meaning.key_text key.now) }
{
    match key {
        EntryKey::Unnamed => no_text(alloc),
        EntryKey::Named(key) => key.text.duplicate(alloc),
        EntryKey::Mapped(_, key) => key.text.duplicate(alloc),
    }
}

/// The entry of an argument, with its method, where there is one at this place.
fn argument_entry(
    alloc: Global,
    key: Spelling,
    arguments: &[ArgumentMade],
    place: usize,
) -> Result<Option<Entry>, AllocError>
    ensures { let entry = option_map (meaning.entry_with key) (slice_get arguments.now place) in
        IfOk result (λ found. found ≡ entry) }
{
    let Some(argument) = arguments.get(place) else {
        return Ok(None);
    };
    let method = Some(argument.method.duplicate(alloc)?);
    let value = argument.value;
    Ok(Some(Entry { key, method, value }))
}

/// The entry of a value: of a field, or of an argument.
fn entry_of(
    alloc: Global,
    key: Spelling,
    arguments: &[ArgumentMade],
    thing: Thing,
) -> Result<Option<Entry>, AllocError>
    ensures { IfOk result (λ entry. entry ≡ meaning.entry_of key arguments.now thing) }
{
    match thing {
        Thing::Part(value) => {
            let method = None;
            Ok(Some(Entry { key, method, value }))
        }
        Thing::Argument(place) => argument_entry(alloc, key, arguments, place),
        _ => Ok(None),
    }
}

/// The entry is added, where there is one.
fn added(env: Env, shown: DebugShape, entry: Option<Entry>) -> Result<Flow, AllocError>
    ensures { IfOk result (λ flow. flow ≡ meaning.added env shown entry) }
{
    let Some(entry) = entry else {
        return Ok(Flow::Stuck);
    };
    let mut shown = shown;
    shown.entries.push(entry)?;
    let mut env = env;
    env.shown = Some(shown);
    Ok(Flow::Gives(env, Thing::Nothing))
}

/// An entry with this key and value, where it is one of what is shown.
fn entered(alloc: Global, key: &EntryKey, env: Env, thing: Thing) -> Result<Flow, AllocError>
    ensures { IfOk result (λ flow. flow ≡ meaning.entered key.now env env.shown thing) }
{
    let mut env = env;
    let Some(shown) = env.shown.take() else {
        return Ok(Flow::Stuck);
    };
    if !fits_form(env.names.as_slice(), shown.form, key) {
        return Ok(Flow::Stuck);
    }
    let key = key_text(alloc, key)?;
    let entry = entry_of(alloc, key, env.arguments.as_slice(), thing)?;
    added(env, shown, entry)
}

/// What a form gives is an entry with this key, where the name is that of the builder.
pub(crate) fn entry_flow(
    alloc: Global,
    found: &Option<Referent>,
    key: &EntryKey,
    inner: Flow,
) -> Result<Flow, AllocError>
    ensures { IfOk result (λ flow. flow ≡ meaning.go_on inner (meaning.entry_flow found.now key.now)) }
{
    match inner {
        Flow::Gives(env, thing) => match found {
            Some(Referent::BuilderName) => entered(alloc, key, env, thing),
            _ => Ok(Flow::Stuck),
        },
        Flow::Returns(env, thing) => Ok(Flow::Returns(env, thing)),
        Flow::Stuck => Ok(Flow::Stuck),
    }
}
