//! The types that the bounds of `Default` speak of.
ghost use Rattle.std.specs.Prelude.{◌≡◌, true, [], ◌++◌, length, map, OnOk, IfOk, IfErr};
ghost use Rattle.std.specs.List.{cons_option, filter_map};
ghost use Rattle.educe_attrs.specs.Causes.{OfStop};
ghost use Rattle.educe_attrs.specs.Phases.{OfHandler};
ghost use Rattle.educe_bound_traits.specs.Traits.{is_listed};
ghost use Rattle.educe_bound_traits.specs.declared.traits.Trait.TheVariants as derived;
ghost use Rattle.educe_settings.specs.Defaults as defaults;
ghost use Rattle.educe_settings.specs.EveryType.{behind};
ghost use Rattle.educe_settings.specs.Handled.{handling};
ghost use Rattle.educe_settings.specs.Listed as listing;
ghost use Rattle.educe_settings.specs.SeenTypes.{read_of, touched_of};
ghost use Rattle.educe_settings.specs.Types.{AreUnread};
ghost use Rattle.educe_syntax.specs.DeriveInput.{DeriveInput};
ghost use Rattle.educe_settings_types.specs.Chosen.{IsChosen};
ghost use Rattle.educe_settings_types.specs.Defaults.{settings_by};

use crate::default_choice::{Chosen, choose};
use educe_attrs::{FieldSettings, Stop};
use educe_bound::Trait;
use educe_settings::{SeenTypes, Task, type_values};
use educe_syntax::{DeriveInput, Expr, Field, Ty};
use std::alloc::{AllocError, Global};

/// Adds the type of a field, where its attributes say no value.
fn add_type<'d>(
    field: &'d Field,
    said: &Option<Expr>,
    types: &mut Vec<&'d Ty>,
) -> Result<(), AllocError>
    ensures { OnOk result (behind types.new.items ≡ behind types.old.items ++ cons_option (defaults.type_without field.now said.now) []) }
{
    match said {
        Some(_) => Ok(()),
        None => Ok(types.push(&field.ty)?),
    }
}

/// The types of the fields whose attributes say no value.
fn types_without<'d>(
    alloc: Global,
    fields: &'d [Field],
    settings: &[FieldSettings],
) -> Result<Vec<&'d Ty>, AllocError>
    requires { length settings.now ≡ length fields.now }
    ensures { (definition : DeriveInput) → settings.now ≡ map (settings_by true definition) fields.now →
        IfOk result (λ types. behind types.items ≡
        filter_map (λ f. defaults.type_without f (defaults.field_value definition f)) fields.now) }
{
    let mut types = Vec::new(alloc);
    for (place, field) in fields.iter().enumerate() {
        add_type(field, &settings[place].values.expression, &mut types)?;
    }
    Ok(types)
}

/// The types of the fields that `default` writes by `Default` of their type, where this is made.
fn types_of<'d>(
    alloc: Global,
    ast: &DeriveInput,
    chosen: Chosen<'d>,
) -> Result<Vec<&'d Ty>, AllocError>
    requires { IsChosen ast.now chosen }
    ensures { IfOk result (λ types. behind types.items ≡ defaults.default_types ast.now) }
{
    match chosen {
        Chosen::ByValue(_value) => Ok(Vec::new(alloc)),
        Chosen::OfStruct(shape, settings) => {
            let fields = shape.fields.as_slice();
            let own = settings.as_slice();
            types_without(alloc, fields, own)
        }
        Chosen::OfVariant(variant, settings) => {
            let fields = variant.fields.fields.as_slice();
            let own = settings.as_slice();
            types_without(alloc, fields, own)
        }
    }
}

/// The types for `Default`, which is listed: those of the fields that `default` writes and whose attributes
/// say no value. No field is read.
pub fn default_types<'d>(
    alloc: Global,
    ast: &'d DeriveInput,
    listed: &[Trait],
) -> Result<SeenTypes<'d>, Stop>
    requires listed { listed.now ≡ listing.listed ast.now }
    requires lists { is_listed listed.now derived.Default ≡ true }
    ensures types { IfOk result (λ types. AreUnread (defaults.default_types ast.now) (read_of types) (touched_of types)) }
    ensures err { IfErr result (λ s. OfStop (OfHandler (handling ast.now) derived.Default) s) }
{
    let trait_ = Trait::Default;
    let task = Task {
        trait_,
        ast,
        listed,
    };
    let values = type_values(alloc, task)?;
    let chosen = choose(alloc, task, values.expression, values.span)?;
    let touched = types_of(alloc, ast, chosen)?;
    let read = Vec::new(alloc);
    Ok(SeenTypes { read, touched })
}
