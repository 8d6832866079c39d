//! The patterns of variants.
ghost use Rattle.std.specs.Prelude.{◌≡◌, ◌++◌, length, IfOk};
ghost use Rattle.educe_tokens.specs.Spells.{IsWord};
ghost use Rattle.educe_body_forms.specs.Keys.{binding_key};
ghost use Rattle.educe_settings.specs.Cases.{fields_in};
ghost use Rattle.educe_settings.specs.Settings.{keeps};
ghost use Rattle.educe_settings.specs.Cases as cases;
ghost use Rattle.educe_meaning.specs.Arms as spec;

use educe_attrs::FieldSettings;
use educe_body::{Pattern, PatternField, PatternFields, binding};
use educe_settings::is_kept;
use educe_syntax::{Duplicate, Field, FieldForm, Ident, Variant};
use educe_tokens::{Seq, Spelling, Word};
use std::alloc::{AllocError, Global};

/// The key of a field in a pattern (Rust Reference, Struct patterns).
pub fn key(alloc: Global, name: &Option<Ident>) -> Result<Option<Word>, AllocError>
    ensures { IfOk result (spec.IsKey name.now) }
{
    match name {
        Some(name) => Ok(Some(Word::new(name.text.duplicate(alloc)?))),
        None => Ok(None),
    }
}

/// The variable that a field at a place is bound to, where it takes part.
fn variable(
    alloc: Global,
    prefix: &Spelling,
    place: usize,
    field: &Field,
    settings: &FieldSettings,
) -> Result<Option<Ident>, AllocError>
    requires { IsWord prefix.now }
    ensures { let text = prefix.now ++ binding_key place field.now in
        IfOk result (spec.IsBound (keeps settings.now) text) }
{
    if is_kept(settings) {
        Ok(Some(binding(alloc, prefix.as_str(), place, field)?))
    } else {
        Ok(None)
    }
}

/// The fields of a pattern, by the settings of the fields.
fn pattern_fields(
    alloc: Global,
    prefix: &Spelling,
    fields: &[Field],
    settings: &[FieldSettings],
) -> Result<PatternFields, AllocError>
    requires word { IsWord prefix.now }
    requires each { length settings.now ≡ length fields.now }
    ensures { IfOk result (spec.ArePatternFields prefix.now 0 fields.now settings.now) }
{
    let mut found = Seq::with_capacity(alloc, fields.len())?;
    for (place, field) in fields.iter().enumerate() {
        found.push(PatternField {
            key: key(alloc, &field.ident)?,
            name: variable(alloc, prefix, place, field, &settings[place])?,
        })?;
    }
    Ok(found)
}

/// The pattern of a variant that binds the fields that take part, behind this prefix.
pub fn pattern(
    alloc: Global,
    prefix: &Spelling,
    variant: &Variant,
    settings: &[FieldSettings],
) -> Result<Pattern, AllocError>
    requires word { IsWord prefix.now }
    requires each { length settings.now ≡ length (fields_in variant.now) }
    ensures { IfOk result (spec.IsPatternBy prefix.now variant.now settings.now) }
{
    let fields = variant.fields.fields.as_slice();
    Ok(Pattern {
        variant: variant.ident.duplicate(alloc)?,
        form: variant.fields.form,
        rest: false,
        fields: pattern_fields(alloc, prefix, fields, settings)?,
    })
}

/// Whether a pattern of this form has brackets.
pub fn has_brackets(form: FieldForm) -> bool
    ensures { result ≡ cases.has_brackets form }
{
    match form {
        FieldForm::Named => true,
        FieldForm::Unnamed => true,
        FieldForm::Unit => false,
    }
}

/// Whether a variant has neither brackets nor fields.
pub fn is_unit(variant: &Variant) -> bool
    ensures { result ≡ cases.is_unit variant.now }
{
    !has_brackets(variant.fields.form) && variant.fields.fields.len() == 0
}

/// The pattern of a variant with `..` in place of its fields.
pub fn bare_pattern(alloc: Global, variant: &Variant) -> Result<Pattern, AllocError>
    ensures { IfOk result (spec.IsBarePattern variant.now) }
{
    Ok(Pattern {
        variant: variant.ident.duplicate(alloc)?,
        form: variant.fields.form,
        rest: has_brackets(variant.fields.form),
        fields: Seq::new(alloc),
    })
}
