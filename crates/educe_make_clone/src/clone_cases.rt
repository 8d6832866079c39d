//! The blocks of `clone` and of `clone_from`, from what fields say.
ghost use Rattle.std.specs.Prelude.{◌≡◌, map, IfOk};
ghost use Rattle.std.specs.List.{AllZip};
ghost use Rattle.educe_bound_traits.specs.declared.traits.Trait.TheVariants.{Clone};
ghost use Rattle.educe_settings.specs.CaseSettings.{settings_in};
ghost use Rattle.educe_settings.specs.Ranked.{kept_of};
ghost use Rattle.educe_settings.specs.Cases.{fields_in, cases_of};
ghost use Rattle.educe_meaning.specs.CloneBodies as spec;
ghost use Rattle.educe_settings.specs.Packed.{AreCopied};
ghost use Rattle.educe_settings.specs.Settings.{settings_of, kept_fields};
ghost use Rattle.educe_make_clone.specs.CloneBlocks.{AreBlocks};
ghost use Rattle.educe_make_clone.specs.CloneNames.{names_of};
ghost use Rattle.educe_make_clone.specs.ClonePaths.{AreClonePaths};

use crate::clone_body::{clone_arm, clone_enum, clone_struct};
use crate::clone_from_body::{from_arm, from_enum, from_struct};
use crate::clone_names::CloneNames;
use crate::clone_paths::{ClonePaths, clone_paths};
use educe_attrs::FieldSettings;
use educe_body::{Arm, Arms, Forms};
use educe_settings::{Ranked, Task, kept_fields};
use educe_syntax::{Field, FieldShape, Shape, Variant};
use educe_tokens::Seq;
use std::alloc::{AllocError, Global};

/// The block of `clone`, and that of `clone_from`.
#[derive(Drop)]
pub struct CloneBlocks {
    pub clone: Forms,
    pub clone_from: Forms,
}

/// The fields of a case that take part, with these settings.
fn case_fields<'d, 's>(
    alloc: Global,
    task: Task<'_, '_>,
    fields: &'d [Field],
    settings: &'s [FieldSettings],
) -> Result<Vec<Ranked<'d, 's>>, AllocError>
    requires clones { task.trait_ ≡ Clone }
    requires settings { settings.now ≡ map (settings_of Clone task.ast.now) fields.now }
    ensures { IfOk result (λ found. map kept_of found.items ≡ kept_fields Clone task.entry.ast.now fields.now) }
{
    kept_fields(alloc, fields, settings)
}

/// The blocks for a struct, whose fields are read by copies where they have to be.
fn struct_blocks(
    alloc: Global,
    task: Task<'_, '_>,
    names: &CloneNames,
    shape: &FieldShape,
    settings: &[FieldSettings],
    copied: bool,
) -> Result<CloneBlocks, AllocError>
    requires clones { task.trait_ ≡ Clone }
    requires settings { settings.now ≡ map (settings_of Clone task.ast.now) shape.now.fields }
    requires copied { AreCopied task.ast.now copied }
    ensures clone { IfOk result (λ blocks. spec.IsCloneStruct task.entry.ast.now shape.now blocks.clone) }
    ensures clone_from { IfOk result (λ blocks. spec.IsFromStruct task.entry.ast.now (names_of names.now) shape.now blocks.clone_from) }
{
    let paths = clone_paths(alloc)?;
    let kept = case_fields(alloc, task, shape.fields.as_slice(), settings)?;
    Ok(CloneBlocks {
        clone: clone_struct(alloc, &paths.clone, shape, &kept, copied)?,
        clone_from: from_struct(alloc, &paths, names, &kept, copied)?,
    })
}

/// The arms of a variant: that of `clone`, and that of `clone_from`.
fn variant_arms(
    alloc: Global,
    task: Task<'_, '_>,
    paths: &ClonePaths,
    names: &CloneNames,
    variant: &Variant,
    settings: &[FieldSettings],
) -> Result<(Arm, Arm), AllocError>
    requires clones { task.trait_ ≡ Clone }
    requires paths { AreClonePaths paths.now }
    requires settings { settings.now ≡ map (settings_of Clone task.ast.now) (fields_in variant.now) }
    ensures clone { IfOk result (λ arms. spec.IsCloneArm task.entry.ast.now (names_of names.now) variant.now arms.0) }
    ensures clone_from { IfOk result (λ arms. spec.IsFromArm task.entry.ast.now (names_of names.now) variant.now arms.1) }
{
    let fields = variant.fields.fields.as_slice();
    let kept = case_fields(alloc, task, fields, settings)?;
    let own = clone_arm(alloc, &paths.clone, names, variant, settings, &kept)?;
    let from = from_arm(alloc, paths, names, variant, settings, &kept)?;
    Ok((own, from))
}

/// The arms of `clone`, and those of `clone_from`.
#[derive(Drop)]
struct CloneArms {
    clone: Arms,
    clone_from: Arms,
}

/// An arm of each for each variant, in their order.
fn all_arms(
    alloc: Global,
    task: Task<'_, '_>,
    names: &CloneNames,
    variants: &[Variant],
    settings: &[Seq<FieldSettings>],
) -> Result<CloneArms, AllocError>
    requires clones { task.trait_ ≡ Clone }
    requires settings { settings.now ≡ settings_in Clone task.ast.now (map fields_in variants.now) }
    ensures clone { IfOk result (λ arms. AllZip (spec.IsCloneArm task.entry.ast.now (names_of names.now)) variants.now arms.clone) }
    ensures clone_from { IfOk result (λ arms. AllZip (spec.IsFromArm task.entry.ast.now (names_of names.now))
        variants.now arms.clone_from) }
{
    let paths = clone_paths(alloc)?;
    let (mut clone, mut clone_from) = (Seq::new(alloc), Seq::new(alloc));
    for (place, variant) in variants.iter().enumerate() {
        let settings = settings[place].as_slice();
        let (own, from) = variant_arms(alloc, task, &paths, names, variant, settings)?;
        clone.push(own)?;
        clone_from.push(from)?;
    }
    Ok(CloneArms { clone, clone_from })
}

/// The blocks for an enum.
fn enum_blocks(
    alloc: Global,
    task: Task<'_, '_>,
    names: &CloneNames,
    variants: &[Variant],
    settings: &[Seq<FieldSettings>],
) -> Result<CloneBlocks, AllocError>
    requires clones { task.trait_ ≡ Clone }
    requires settings { settings.now ≡ settings_in Clone task.ast.now (map fields_in variants.now) }
    ensures clone { IfOk result (λ blocks. spec.IsCloneEnum task.entry.ast.now (names_of names.now) variants.now blocks.clone) }
    ensures clone_from { IfOk result (λ blocks. spec.IsFromEnum task.entry.ast.now (names_of names.now) variants.now blocks.clone_from) }
{
    let CloneArms { clone, clone_from } = all_arms(alloc, task, names, variants, settings)?;
    Ok(CloneBlocks {
        clone: clone_enum(alloc, clone)?,
        clone_from: from_enum(alloc, names, clone_from)?,
    })
}

/// The blocks for a definition whose fields have these settings, case by case. The fields of a packed
/// struct are read by copies.
pub fn clone_blocks(
    alloc: Global,
    task: Task<'_, '_>,
    names: &CloneNames,
    settings: &[Seq<FieldSettings>],
    copied: bool,
) -> Result<CloneBlocks, AllocError>
    requires clones { task.trait_ ≡ Clone }
    requires settings { settings.now ≡ settings_in Clone task.ast.now (cases_of task.ast.now) }
    requires copied { AreCopied task.ast.now copied }
    ensures { IfOk result (AreBlocks task.entry.ast.now (names_of names.now)) }
{
    match &task.ast.shape {
        Shape::Struct(shape) => {
            let settings = settings[0].as_slice();
            struct_blocks(alloc, task, names, shape, settings, copied)
        }
        Shape::Enum(variants) => { enum_blocks(alloc, task, names, variants.as_slice(), settings) }
    }
}
