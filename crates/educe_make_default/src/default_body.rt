//! The form that `default` evaluates to.
ghost use Rattle.std.specs.Prelude.{◌≡◌, true, length, map, IfOk};
ghost use Rattle.std.specs.List.{AllZip};
ghost use Rattle.std.specs.Option.{option_map, option_copied};
ghost use Rattle.educe_attrs.specs.Adjusted.{adjusted};
ghost use Rattle.educe_meaning.specs.Making as spec;
ghost use Rattle.educe_syntax.specs.DeriveInput.{DeriveInput};
ghost use Rattle.educe_syntax.specs.Ident.{Ident};
ghost use Rattle.educe_settings_types.specs.Chosen.{IsChosen};
ghost use Rattle.educe_settings_types.specs.Defaults.{settings_by};
ghost use Rattle.educe_make_default.specs.MadeForms.{IsMadeForm};

use crate::default_texts::{field_text, value_text};
use educe_attrs::FieldSettings;
use educe_body::{Form, Init, Inits};
use educe_handlers::{key, name_of};
use educe_settings_types::Chosen;
use educe_syntax::{DeriveInput, Expr, Field, FieldShape, Ident};
use educe_tokens::Seq;
use std::alloc::{AllocError, Global};

/// The initializer of each field, by what its attributes say.
fn inits(alloc: Global, fields: &[Field], settings: &[FieldSettings]) -> Result<Inits, AllocError>
    requires { length settings.now ≡ length fields.now }
    ensures { (definition : DeriveInput) → settings.now ≡ map (settings_by true definition) fields.now →
        IfOk result (λ inits. AllZip (spec.IsInit definition) fields.now inits) }
{
    let mut inits = Seq::with_capacity(alloc, fields.len())?;
    for (place, field) in fields.iter().enumerate() {
        let text = field_text(alloc, field, &settings[place].values.expression)?;
        inits.push(Init {
            key: key(alloc, &field.ident)?,
            value: Form::Pasted(text),
        })?;
    }
    Ok(inits)
}

/// A struct, or with a name that variant, each field of which is written by what its attributes say.
fn construct(
    alloc: Global,
    name: Option<&Ident>,
    shape: &FieldShape,
    settings: &[FieldSettings],
) -> Result<Form, AllocError>
    requires { length settings.now ≡ length shape.now.fields }
    ensures { (definition : DeriveInput) → settings.now ≡ map (settings_by true definition) shape.now.fields →
        IfOk result (spec.IsConstruct definition (option_map (λ (i : Ident). i.text) (option_copied name.entry)) shape.now) }
{
    let variant = name_of(alloc, name)?;
    let inits = inits(alloc, shape.fields.as_slice(), settings)?;
    Ok(Form::Construct(variant, shape.form, inits))
}

/// The value that the type says for itself.
fn whole(alloc: Global, value: Expr) -> Result<Form, AllocError>
    ensures { IfOk result (spec.IsPasted (adjusted value.written None)) }
{
    Ok(Form::Pasted(value_text(alloc, value, None)?))
}

/// The form of `default`, where this is made.
pub fn form_of(alloc: Global, ast: &DeriveInput, chosen: Chosen<'_>) -> Result<Form, AllocError>
    requires { IsChosen ast.now chosen }
    ensures { IfOk result (IsMadeForm ast.now) }
{
    match chosen {
        Chosen::ByValue(value) => whole(alloc, value),
        Chosen::OfStruct(shape, settings) => construct(alloc, None, shape, settings.as_slice()),
        Chosen::OfVariant(variant, settings) => {
            let name = Some(&variant.ident);
            construct(alloc, name, &variant.fields, settings.as_slice())
        }
    }
}
