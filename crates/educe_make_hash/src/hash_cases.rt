//! The blocks of `hash` for a struct and for an enum, from the settings of their fields.
ghost use Rattle.std.specs.Prelude.{◌≡◌, length, map, List, IfOk, IfErr};
ghost use Rattle.educe_syntax.specs.DeriveInput.{DeriveInput};
ghost use Rattle.educe_syntax.specs.Shape.TheVariants.{Enum};
ghost use Rattle.educe_syntax.specs.Variant.{Variant};
ghost use Rattle.educe_attrs.specs.Causes.{NoCause, OfStop};
ghost use Rattle.educe_body_values.specs.BuiltIn.{IsBuiltIn};
ghost use Rattle.educe_body_values.specs.declared.callee.BuiltIn.TheVariants as built_in;
ghost use Rattle.educe_bound_traits.specs.declared.traits.Trait.TheVariants.{Hash};
ghost use Rattle.educe_settings.specs.Ranked.{kept_of};
ghost use Rattle.educe_meaning.specs.Arms.{AreArms};
ghost use Rattle.educe_settings.specs.Cases.{fields_in};
ghost use Rattle.educe_settings.specs.Handled.{OfCase, OfVariant, OfShape};
ghost use Rattle.educe_meaning.specs.HashBodies as spec;
ghost use Rattle.educe_settings.specs.Packed.{AreCopied};
ghost use Rattle.educe_settings.specs.Listed as listing;
ghost use Rattle.educe_settings.specs.Settings.{settings_of, kept_fields};
ghost use Rattle.educe_make_hash.specs.HashNames.{names_of};

use crate::feeding::{hash_path, place_step, steps};
use crate::hash_names::HashNames;
use educe_attrs::{FieldSettings, Stop};
use educe_body::{Arm, Arms, Form, Forms, Shared};
use educe_handlers::{Reading, pattern};
use educe_settings::{
    Ranked, Task, field_settings, fields_in_order, variant_fields, variant_settings,
};
use educe_syntax::{ExprPath, Field, Ident, Variant};
use educe_tokens::Seq;
use std::alloc::{AllocError, Global};

/// The block for a struct of these fields, which are read by copies where they have to be. It is rejected
/// exactly where an attribute of a field is wrong, or memory fails.
pub fn struct_block(
    alloc: Global,
    task: Task<'_, '_>,
    names: &HashNames,
    fields: &[Field],
    copied: bool,
) -> Result<Forms, Stop>
    requires hashes { task.trait_ ≡ Hash }
    requires listed { task.listed.now ≡ listing.listed task.ast.now }
    requires copied { AreCopied task.ast.now copied }
    ensures ok { IfOk result (spec.IsHashStructBlock task.entry.ast.now (names_of names.now) fields.now) }
    ensures uncaused { IfOk result (λ _. NoCause (OfCase task.entry.trait_ task.entry.ast.now fields.now)) }
    ensures err { IfErr result (λ s. OfStop (OfCase task.entry.trait_ task.entry.ast.now fields.now) s) }
{
    let settings = field_settings(alloc, task, fields)?;
    let kept = fields_in_order(alloc, task, fields, settings.as_slice())?;
    let own = Ident::from_name(alloc, "self")?;
    let plain = hash_path(alloc)?;
    let reading = Reading::OfBase(&own, copied);
    Ok(steps(alloc, &plain, &names.state, reading, &kept)?)
}

/// The arm of the variant at a place, over its fields that take part.
fn arm(
    alloc: Global,
    plain: &Shared<ExprPath>,
    names: &HashNames,
    place: usize,
    variant: &Variant,
    settings: &[FieldSettings],
    kept: &[Ranked<'_, '_>],
) -> Result<Arm, AllocError>
    requires plain { IsBuiltIn built_in.Hash plain.now }
    requires each { length settings.now ≡ length (fields_in variant.now) }
    ensures { (definition : DeriveInput) →
        settings.now ≡ map (settings_of Hash definition) (fields_in variant.now) →
        map kept_of kept.now ≡ kept_fields Hash definition (fields_in variant.now) →
        IfOk result (spec.IsHashArm definition (names_of names.now) place variant.now) }
{
    let pattern = pattern(alloc, &names.prefix, variant, settings)?;
    let mut block = Seq::new(alloc);
    block.push(place_step(alloc, plain, &names.state, place)?)?;
    let reading = Reading::Bound(&names.prefix);
    let steps = steps(alloc, plain, &names.state, reading, kept)?;
    block.append(steps)?;
    Ok(Arm {
        pattern,
        braced: true,
        comma: false,
        block,
    })
}

/// The arm of the variant at a place. It is rejected exactly where an attribute of the variant or of a
/// field is wrong, or memory fails.
fn variant_arm(
    alloc: Global,
    task: Task<'_, '_>,
    plain: &Shared<ExprPath>,
    names: &HashNames,
    place: usize,
    variant: &Variant,
) -> Result<Arm, Stop>
    requires hashes { task.trait_ ≡ Hash }
    requires plain { IsBuiltIn built_in.Hash plain.now }
    requires listed { task.listed.now ≡ listing.listed task.ast.now }
    ensures ok { IfOk result (spec.IsHashArm task.entry.ast.now (names_of names.now) place variant.now) }
    ensures uncaused { IfOk result (λ _. NoCause (OfVariant task.entry.trait_ task.entry.ast.now variant.now)) }
    ensures err { IfErr result (λ s. OfStop (OfVariant task.entry.trait_ task.entry.ast.now variant.now) s) }
{
    let settings = variant_settings(alloc, task, variant)?;
    let settings = settings.as_slice();
    let kept = variant_fields(alloc, task, variant, settings)?;
    Ok(arm(alloc, plain, names, place, variant, settings, &kept)?)
}

/// An arm for each variant, in their order.
fn variant_arms(
    alloc: Global,
    task: Task<'_, '_>,
    names: &HashNames,
    variants: &[Variant],
) -> Result<Arms, Stop>
    requires hashes { task.trait_ ≡ Hash }
    requires listed { task.listed.now ≡ listing.listed task.ast.now }
    ensures ok { IfOk result (AreArms (spec.IsHashArm task.entry.ast.now (names_of names.now)) 0 variants.now) }
    ensures uncaused { IfOk result (λ _. NoCause (OfShape task.entry.trait_ task.entry.ast.now (Enum variants.now))) }
    ensures err { IfErr result (λ s. OfStop (OfShape task.entry.trait_ task.entry.ast.now (Enum variants.now)) s) }
{
    let plain = hash_path(alloc)?;
    let mut arms = Seq::new(alloc);
    for (place, variant) in variants.iter().enumerate() {
        match variant_arm(alloc, task, &plain, names, place, variant) {
            Ok(arm) => arms.push(arm)?,
            // (`?` would convert the rejection, which its clause takes as it is.)
            Err(stop) => return Err(stop),
        }
    }
    Ok(arms)
}

/// The block for an enum with these arms.
fn match_block(alloc: Global, arms: Arms) -> Result<Forms, AllocError>
    ensures { (definition : DeriveInput) (names : spec.HashNames) (variants : List Variant) →
        AreArms (spec.IsHashArm definition names) 0 variants arms →
        IfOk result (spec.IsHashEnumBlock definition names variants) }
{
    let mut block = Seq::new(alloc);
    if arms.len() == 0 {
        return Ok(block);
    }
    let value = Ident::from_name(alloc, "self")?;
    block.push(Form::MatchValue(value, arms))?;
    Ok(block)
}

/// The block for an enum of these variants. It is rejected exactly where an attribute of a variant or of a
/// field is wrong, or memory fails.
pub fn enum_block(
    alloc: Global,
    task: Task<'_, '_>,
    names: &HashNames,
    variants: &[Variant],
) -> Result<Forms, Stop>
    requires hashes { task.trait_ ≡ Hash }
    requires listed { task.listed.now ≡ listing.listed task.ast.now }
    ensures ok { IfOk result (spec.IsHashEnumBlock task.entry.ast.now (names_of names.now) variants.now) }
    ensures uncaused { IfOk result (λ _. NoCause (OfShape task.entry.trait_ task.entry.ast.now (Enum variants.now))) }
    ensures err { IfErr result (λ s. OfStop (OfShape task.entry.trait_ task.entry.ast.now (Enum variants.now)) s) }
{
    let arms = variant_arms(alloc, task, names, variants)?;
    Ok(match_block(alloc, arms)?)
}
