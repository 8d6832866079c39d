//! The types that the bounds of `Debug` speak of: those of the fields that are shown.
ghost use Rattle.std.specs.Prelude.{◌≡◌, map, OnOk, IfOk, IfErr};
ghost use Rattle.std.specs.List.{flat_map};
ghost use Rattle.educe_syntax.specs.Shape.TheVariants.{Struct, Enum};
ghost use Rattle.educe_syntax.specs.Variant.{Variant};
ghost use Rattle.educe_attrs.specs.Causes.{OfStop};
ghost use Rattle.educe_attrs.specs.Fields.{OfFields};
ghost use Rattle.educe_attrs.specs.Phases.{OfHandler};
ghost use Rattle.educe_bound_traits.specs.declared.traits.Trait.TheVariants as derived;
ghost use Rattle.educe_settings.specs.Handled.{handling};
ghost use Rattle.educe_settings.specs.Listed as listing;
ghost use Rattle.educe_settings.specs.SeenTypes.{read_of, touched_of};
ghost use Rattle.educe_settings.specs.Settings.{kept_by, type_settings};
ghost use Rattle.educe_settings.specs.Shown as spec;
ghost use Rattle.educe_settings.specs.Types.{AreOfThese};
ghost use Rattle.educe_settings_types.specs.Read.{IsTyped, IsOneOf};
ghost use Rattle.educe_settings_types.specs.Visits.{SeesEach};

use crate::debug_field_settings::entry_settings;
use crate::debug_rows::{struct_named, variant_named};
use crate::debug_settings::{naming_values, read_type};
use educe_attrs::{Stop, Values};
use educe_bound::Trait;
use educe_settings::{SeenTypes, Task, kept_fields, no_types, see_each};
use educe_syntax::{DeriveInput, Field, FieldShape, Shape, Variant};
use std::alloc::Global;

/// Sees the types of the fields of a case that are shown, where the names of its fields are shown or not.
/// Rejected exactly where an attribute of a field is wrong, or memory fails.
fn see_shown<'d>(
    alloc: Global,
    task: Task<'d, '_>,
    named: bool,
    fields: &'d [Field],
    types: &mut SeenTypes<'d>,
) -> Result<(), Stop>
    requires { task.listed.now ≡ listing.listed task.ast.now }
    ensures types { OnOk result (SeesEach (kept_by 0 fields.now
        (map (spec.entry_settings named task.entry.ast.now) fields.now)) types.old types.new) }
    ensures err { IfErr result (λ s. OfStop (OfFields derived.Debug (spec.entry_row named)
        (listing.listed task.entry.ast.now) fields.now) s) }
{
    let settings = entry_settings(alloc, task, named, fields)?;
    let shown = kept_fields(alloc, fields, settings.as_slice())?;
    see_each(&shown, types)?;
    Ok(())
}

/// Sees the types of the fields of a struct that are shown, where the attributes of its type say this.
fn see_struct<'d>(
    alloc: Global,
    task: Task<'d, '_>,
    own: &Values,
    shape: &'d FieldShape,
    types: &mut SeenTypes<'d>,
) -> Result<(), Stop>
    requires typed { IsTyped task.ast.now task.listed.now }
    requires own { own.now ≡ type_settings derived.Debug task.ast.now }
    requires shape { task.ast.now.shape ≡ Struct shape.now }
    ensures types { OnOk result (SeesEach (spec.shown_fields task.entry.ast.now
        (spec.struct_shown task.entry.ast.now shape.now)) types.old types.new) }
    ensures err { IfErr result (λ s. OfStop (OfHandler (handling task.entry.ast.now) derived.Debug) s) }
{
    let named = struct_named(own, shape);
    see_shown(alloc, task, named, shape.fields.as_slice(), types)
}

/// Sees the types of the fields of a variant that are shown.
fn see_variant<'d>(
    alloc: Global,
    task: Task<'d, '_>,
    variant: &'d Variant,
    types: &mut SeenTypes<'d>,
) -> Result<(), Stop>
    requires typed { IsTyped task.ast.now task.listed.now }
    requires variant { IsOneOf task.ast.now variant.now }
    ensures types { OnOk result (SeesEach (spec.shown_fields task.entry.ast.now
        (spec.variant_shown task.entry.ast.now variant.now)) types.old types.new) }
    ensures err { IfErr result (λ s. OfStop (OfHandler (handling task.entry.ast.now) derived.Debug) s) }
{
    let values = naming_values(alloc, task, variant)?;
    let named = variant_named(&values, variant);
    see_shown(alloc, task, named, variant.fields.fields.as_slice(), types)
}

/// Sees the types of the fields of each variant that are shown.
fn see_variants<'d>(
    alloc: Global,
    task: Task<'d, '_>,
    variants: &'d [Variant],
    types: &mut SeenTypes<'d>,
) -> Result<(), Stop>
    requires typed { IsTyped task.ast.now task.listed.now }
    requires shape { task.ast.now.shape ≡ Enum variants.now }
    ensures types { let fields = λ (v : Variant). spec.shown_fields task.entry.ast.now (spec.variant_shown task.entry.ast.now v) in
        OnOk result (SeesEach (flat_map fields variants.now) types.old types.new) }
    ensures err { IfErr result (λ s. OfStop (OfHandler (handling task.entry.ast.now) derived.Debug) s) }
{
    for variant in variants {
        match see_variant(alloc, task, variant, types) {
            Ok(()) => {}
            // (`?` would convert the rejection, which its clause takes as it is.)
            Err(stop) => return Err(stop),
        }
    }
    Ok(())
}

/// Sees the types of the fields of a definition that are shown, where the attributes of its type say this.
fn see_all<'d>(
    alloc: Global,
    task: Task<'d, '_>,
    own: &Values,
    types: &mut SeenTypes<'d>,
) -> Result<(), Stop>
    requires typed { IsTyped task.ast.now task.listed.now }
    requires own { own.now ≡ type_settings derived.Debug task.ast.now }
    ensures types { OnOk result (SeesEach (spec.all_shown task.entry.ast.now) types.old types.new) }
    ensures err { IfErr result (λ s. OfStop (OfHandler (handling task.entry.ast.now) derived.Debug) s) }
{
    match &task.ast.shape {
        Shape::Struct(shape) => see_struct(alloc, task, own, shape, types),
        Shape::Enum(variants) => see_variants(alloc, task, variants.as_slice(), types),
    }
}

/// The types for `Debug`: those of the fields that are shown. Rejected exactly where an attribute of the
/// type, of a variant or of a field is wrong, or memory fails.
pub fn debug_types<'d>(
    alloc: Global,
    ast: &'d DeriveInput,
    listed: &[Trait],
) -> Result<SeenTypes<'d>, Stop>
    requires { listed.now ≡ listing.listed ast.now }
    ensures types { IfOk result (λ types. AreOfThese (spec.all_shown ast.now) (read_of types) (touched_of types)) }
    ensures err { IfErr result (λ s. OfStop (OfHandler (handling ast.now) derived.Debug) s) }
{
    let own = read_type(alloc, ast, listed)?;
    let trait_ = Trait::Debug;
    let task = Task {
        trait_,
        ast,
        listed,
    };
    let mut types = no_types(alloc);
    see_all(alloc, task, &own, &mut types)?;
    Ok(types)
}
