//! The block of `clone`.
ghost use Rattle.std.specs.Prelude.{◌≡◌, length, map, List, None, Some, IfOk};
ghost use Rattle.std.specs.List.{AllZip};
ghost use Rattle.std.specs.Option.{option_copied, option_map};
ghost use Rattle.educe_syntax.specs.DeriveInput.{DeriveInput};
ghost use Rattle.educe_syntax.specs.Ident.{Ident};
ghost use Rattle.educe_syntax.specs.Variant.{Variant};
ghost use Rattle.educe_body_values.specs.BuiltIn.{IsBuiltIn};
ghost use Rattle.educe_body_values.specs.declared.callee.BuiltIn.TheVariants as built_in;
ghost use Rattle.educe_bound_traits.specs.declared.traits.Trait.TheVariants.{Clone};
ghost use Rattle.educe_settings.specs.Ranked.{kept_of};
ghost use Rattle.educe_handlers.specs.Readings.{reading_of, CanRead};
ghost use Rattle.educe_settings.specs.Cases.{fields_in};
ghost use Rattle.educe_meaning.specs.CloneBodies as spec;
ghost use Rattle.educe_settings.specs.Packed.{AreCopied};
ghost use Rattle.educe_settings.specs.Settings.{settings_of, kept_fields};
ghost use Rattle.educe_make_clone.specs.CloneNames.{names_of};
ghost use Rattle.educe_make_clone.specs.Matches.{IsMatchOf};

use crate::clone_names::CloneNames;
use educe_attrs::FieldSettings;
use educe_body::{Arm, Arms, Form, Forms, Init, Inits, Shared};
use educe_handlers::{Reading, block_of, called, key, name_of, pattern, read};
use educe_settings::Ranked;
use educe_syntax::{ExprPath, FieldShape, Ident, Variant};
use educe_tokens::Seq;
use std::alloc::{AllocError, Global};

/// The initializer of a field, which is read so. The path is that of `Clone::clone`.
fn init(
    alloc: Global,
    plain: &Shared<ExprPath>,
    reading: Reading<'_>,
    ranked: &Ranked<'_, '_>,
) -> Result<Init, AllocError>
    requires plain { IsBuiltIn built_in.Clone plain.now }
    requires reading { CanRead reading }
    ensures { IfOk result (spec.IsCloneInit (reading_of reading.entry) (kept_of ranked.now)) }
{
    let arguments = block_of(alloc, read(alloc, reading, ranked)?)?;
    let path = called(alloc, ranked.how, plain)?;
    Ok(Init {
        key: key(alloc, &ranked.field.ident)?,
        value: Form::Call(path, arguments),
    })
}

/// The initializers of fields, in their order.
fn inits(
    alloc: Global,
    plain: &Shared<ExprPath>,
    reading: Reading<'_>,
    fields: &[Ranked<'_, '_>],
) -> Result<Inits, AllocError>
    requires plain { IsBuiltIn built_in.Clone plain.now }
    requires reading { CanRead reading }
    ensures { IfOk result (λ inits. AllZip (spec.IsCloneInit (reading_of reading.entry)) (map kept_of fields.now) inits) }
{
    let mut inits = Seq::with_capacity(alloc, fields.len())?;
    for ranked in fields {
        inits.push(init(alloc, plain, reading, ranked)?)?;
    }
    Ok(inits)
}

/// A struct, or with a name that variant, each field of which is cloned. The fields are those of this
/// shape.
fn cloned(
    alloc: Global,
    plain: &Shared<ExprPath>,
    reading: Reading<'_>,
    name: Option<&Ident>,
    shape: &FieldShape,
    fields: &[Ranked<'_, '_>],
) -> Result<Form, AllocError>
    requires plain { IsBuiltIn built_in.Clone plain.now }
    requires reading { CanRead reading }
    ensures { (definition : DeriveInput) → map kept_of fields.now ≡ kept_fields Clone definition shape.now.fields →
        IfOk result (spec.IsCloneConstruct definition (reading_of reading.entry)
        (option_map (λ (i : Ident). i.text) (option_copied name.entry)) shape.now) }
{
    let inits = inits(alloc, plain, reading, fields)?;
    Ok(Form::Construct(name_of(alloc, name)?, shape.form, inits))
}

/// The block for a struct, whose fields are read by copies where they have to be.
pub fn clone_struct(
    alloc: Global,
    plain: &Shared<ExprPath>,
    shape: &FieldShape,
    fields: &[Ranked<'_, '_>],
    copied: bool,
) -> Result<Forms, AllocError>
    requires { IsBuiltIn built_in.Clone plain.now }
    ensures { (definition : DeriveInput) → AreCopied definition copied → map kept_of fields.now ≡ kept_fields Clone definition shape.now.fields →
        IfOk result (spec.IsCloneStruct definition shape.now) }
{
    let own = Ident::from_name(alloc, "self")?;
    let reading = Reading::OfBase(&own, copied);
    let form = cloned(alloc, plain, reading, None, shape, fields)?;
    block_of(alloc, form)
}

/// The arm of a variant with these fields.
pub fn clone_arm(
    alloc: Global,
    plain: &Shared<ExprPath>,
    names: &CloneNames,
    variant: &Variant,
    settings: &[FieldSettings],
    fields: &[Ranked<'_, '_>],
) -> Result<Arm, AllocError>
    requires plain { IsBuiltIn built_in.Clone plain.now }
    requires each { length settings.now ≡ length (fields_in variant.now) }
    ensures { (definition : DeriveInput) →
        settings.now ≡ map (settings_of Clone definition) (fields_in variant.now) →
        map kept_of fields.now ≡ kept_fields Clone definition (fields_in variant.now) →
        IfOk result (spec.IsCloneArm definition (names_of names.now) variant.now) }
{
    let pattern = pattern(alloc, &names.sources, variant, settings)?;
    let reading = Reading::Bound(&names.sources);
    let (name, shape) = (Some(&variant.ident), &variant.fields);
    let form = cloned(alloc, plain, reading, name, shape, fields)?;
    let block = block_of(alloc, form)?;
    Ok(Arm {
        pattern,
        braced: false,
        comma: true,
        block,
    })
}

/// A match on the value of `self` with these arms.
pub fn match_on_self(alloc: Global, arms: Arms) -> Result<Forms, AllocError>
    ensures { IfOk result (IsMatchOf arms) }
{
    let value = Ident::from_name(alloc, "self")?;
    block_of(alloc, Form::MatchValue(value, arms))
}

/// The block for an enum with these arms; without variants there is no value.
pub fn clone_enum(alloc: Global, arms: Arms) -> Result<Forms, AllocError>
    ensures { (definition : DeriveInput) (names : spec.CloneNames) (variants : List Variant) →
        AllZip (spec.IsCloneArm definition names) variants arms →
        IfOk result (spec.IsCloneEnum definition names variants) }
{
    if arms.len() == 0 {
        block_of(alloc, Form::Unreachable)
    } else {
        match_on_self(alloc, arms)
    }
}
