//! How the fields of values are read.
ghost use Rattle.std.specs.Prelude.{◌≡◌, IfOk};
ghost use Rattle.educe_tokens.specs.Appends.{no_place};
ghost use Rattle.educe_tokens.specs.Spells.{IsWord};
ghost use Rattle.educe_meaning.specs.Steps as spec;
ghost use Rattle.educe_settings.specs.Ranked.{kept_of};
ghost use Rattle.educe_handlers.specs.Readings.{reading_of, CanRead};

use educe_body::{Form, binding, key_word};
use educe_settings::Ranked;
use educe_syntax::{Duplicate, Field, Ident};
use educe_tokens::Spelling;
use std::alloc::{AllocError, Global};

/// How a field is read (Rust Reference, Field access expressions; Identifier patterns).
#[derive(Clone, Copy)]
pub enum Reading<'a> {
    /// Of the value of this name: `&base.key`, or where the truth value holds by a copy, `&{base.key}`.
    OfBase(&'a Ident, bool),
    /// As the local variable behind this prefix.
    Bound(&'a Spelling),
}

/// `&base.key`, or `&{base.key}`, for the field at a place (Rust Reference, Field access expressions;
/// The alignment modifiers).
fn reference(
    alloc: Global,
    base: &Ident,
    copied: bool,
    place: usize,
    field: &Field,
) -> Result<Form, AllocError>
    requires { base.now.span ≡ no_place }
    ensures { IfOk result (spec.IsReference copied base.now.text place field.now) }
{
    let base = base.duplicate(alloc)?;
    let key = key_word(alloc, place, field)?;
    if copied {
        Ok(Form::BracedCopy(base, key))
    } else {
        Ok(Form::Reference(base, key))
    }
}

/// The local variable of the field at a place.
fn variable(
    alloc: Global,
    prefix: &Spelling,
    place: usize,
    field: &Field,
) -> Result<Form, AllocError>
    requires { IsWord prefix.now }
    ensures { IfOk result (spec.IsVariable prefix.now place field.now) }
{
    Ok(Form::Local(binding(alloc, prefix.as_str(), place, field)?))
}

/// The form that reads the field at a place.
pub fn read(
    alloc: Global,
    reading: Reading<'_>,
    ranked: &Ranked<'_, '_>,
) -> Result<Form, AllocError>
    requires { CanRead reading }
    ensures { IfOk result (spec.IsRead (reading_of reading.entry) (kept_of ranked.now)) }
{
    match reading {
        Reading::OfBase(base, copied) => {
            reference(alloc, base, copied, ranked.place, ranked.field)
        }
        Reading::Bound(prefix) => variable(alloc, prefix, ranked.place, ranked.field),
    }
}
