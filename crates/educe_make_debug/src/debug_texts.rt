//! The names that are shown, and their texts.
ghost use Rattle.std.specs.Prelude.{◌≡◌, None, IfOk};
ghost use Rattle.std.specs.Option.{option_copied};
ghost use Rattle.educe_attrs.specs.Debug.{type_name_of};
ghost use Rattle.educe_body_forms.specs.LiteralTexts.{optional_text};
ghost use Rattle.educe_settings.specs.Rows.{own_type_name};
ghost use Rattle.educe_settings.specs.Shown as shown_names;
ghost use Rattle.educe_meaning.specs.Showing as spec;
ghost use Rattle.educe_make_debug.specs.Texts.{plain_name, is_shown};

use educe_attrs::{IdentOrBool, Values};
use educe_body::{LiteralText, key_word};
use educe_syntax::{DeriveInput, Field, Ident, Shape, Variant};
use std::alloc::{AllocError, Global};

/// The name that is said: the given one, the own one, or none. Where nothing is said and the truth value
/// holds, it is the own one.
fn said_name<'a>(own: &'a Ident, shown: bool, said: &'a Option<IdentOrBool>) -> Option<&'a Ident>
    ensures { optional_text (option_copied result) ≡ shown_names.name_text own.now (type_name_of (plain_name shown) said.now) }
{
    match said {
        Some(IdentOrBool::Ident(name)) => Some(name),
        Some(IdentOrBool::Bool(true)) => Some(own),
        Some(IdentOrBool::Bool(false)) => None,
        None => { if shown { Some(own) } else { None } }
    }
}

/// Whether the name of a type is shown, where it does not say.
fn shows_name(shape: &Shape) -> bool
    ensures { plain_name result ≡ own_type_name shape.now }
{
    match shape {
        Shape::Struct(_) => true,
        Shape::Enum(_) => false,
    }
}

/// The name of the type that is shown, if one is, where its attributes say this.
pub fn type_name<'a>(ast: &'a DeriveInput, own: &'a Values) -> Option<&'a Ident>
    ensures { optional_text (option_copied result) ≡ shown_names.type_text ast.now own.now }
{
    said_name(&ast.ident, shows_name(&ast.shape), &own.name)
}

/// The name of a variant that is shown, if one is, where its attributes say this.
pub fn variant_name<'a>(variant: &'a Variant, values: &'a Values) -> Option<&'a Ident>
    ensures { optional_text (option_copied result) ≡ shown_names.variant_text variant.now values.now }
{
    said_name(&variant.ident, true, &values.name)
}

/// The text of the name of a type.
pub fn type_text(alloc: Global, name: Option<&Ident>) -> Result<LiteralText, AllocError>
    ensures { IfOk result (λ literal. literal.text ≡ optional_text (option_copied name.entry)) }
{
    LiteralText::of_names(alloc, name, None)
}

/// The text of the names of a type and of a variant, with `::` between where both are shown.
pub fn path_text(
    alloc: Global,
    first: Option<&Ident>,
    last: Option<&Ident>,
) -> Result<LiteralText, AllocError>
    ensures { let found = shown_names.path_text (optional_text (option_copied first.entry)) (optional_text (option_copied last.entry)) in
        IfOk result (λ literal. literal.text ≡ found) }
{
    LiteralText::of_names(alloc, first, last)
}

/// Whether a name is shown.
pub fn is_shown(name: &LiteralText) -> bool
    ensures { result ≡ is_shown name.now.text }
{
    !name.text.spells("")
}

/// The text of the name of the field at a place: its own one, or its index.
fn own_key(alloc: Global, place: usize, field: &Field) -> Result<LiteralText, AllocError>
    ensures { IfOk result (λ literal. literal.text ≡ spec.key_text None place field.now) }
{
    let key = key_word(alloc, place, field)?;
    LiteralText::of_word(alloc, &key)
}

/// The text of the name of the field at a place, by what its attributes say.
pub fn key_text(
    alloc: Global,
    said: &Option<IdentOrBool>,
    place: usize,
    field: &Field,
) -> Result<LiteralText, AllocError>
    ensures { IfOk result (λ literal. literal.text ≡ spec.key_text said.now place field.now) }
{
    match said {
        Some(IdentOrBool::Ident(name)) => LiteralText::of_name(alloc, name),
        Some(IdentOrBool::Bool(_)) => own_key(alloc, place, field),
        None => own_key(alloc, place, field),
    }
}
