//! The types of the fields that take part, for the traits that are read field by field.
ghost use Rattle.std.specs.Prelude.{◌≡◌, [], ◌∷◌, map, OnOk, IfOk, IfErr};
ghost use Rattle.educe_syntax.specs.Shape.TheVariants.{Enum};
ghost use Rattle.educe_attrs.specs.Causes.{OfStop};
ghost use Rattle.educe_settings.specs.Cases.{fields_in, cases_of};
ghost use Rattle.educe_settings.specs.Handled.{OfCase, OfVariant, OfShape};
ghost use Rattle.educe_settings.specs.Listed as listing;
ghost use Rattle.educe_settings.specs.SeenTypes.{read_of, touched_of};
ghost use Rattle.educe_settings.specs.Types.{AreOfFields};
ghost use Rattle.educe_settings_types.specs.Visits.{Sees};

use educe_attrs::Stop;
use educe_settings::{
    SeenTypes, Task, field_settings, fields_in_order, no_types, see_each, variant_fields,
    variant_settings,
};
use educe_syntax::{Field, Shape, Variant};
use std::alloc::Global;

/// Sees the types of the fields of a case that take part. Rejected exactly where an attribute of a field or
/// a rank is wrong, or memory fails.
fn see_case<'d>(
    alloc: Global,
    task: Task<'d, '_>,
    fields: &'d [Field],
    types: &mut SeenTypes<'d>,
) -> Result<(), Stop>
    requires { task.listed.now ≡ listing.listed task.ast.now }
    ensures types { OnOk result (Sees task.entry.trait_ task.entry.ast.now (fields.now ∷ []) types.old types.new) }
    ensures err { IfErr result (λ s. OfStop (OfCase task.entry.trait_ task.entry.ast.now fields.now) s) }
{
    let settings = field_settings(alloc, task, fields)?;
    let ordered = fields_in_order(alloc, task, fields, settings.as_slice())?;
    see_each(&ordered, types)?;
    Ok(())
}

/// Sees the types of the fields of a variant that take part. Rejected exactly where an attribute of the
/// variant or of a field, or a rank, is wrong, or memory fails.
fn see_variant<'d>(
    alloc: Global,
    task: Task<'d, '_>,
    variant: &'d Variant,
    types: &mut SeenTypes<'d>,
) -> Result<(), Stop>
    requires { task.listed.now ≡ listing.listed task.ast.now }
    ensures types { OnOk result (Sees task.entry.trait_ task.entry.ast.now (fields_in variant.now ∷ []) types.old types.new) }
    ensures err { IfErr result (λ s. OfStop (OfVariant task.entry.trait_ task.entry.ast.now variant.now) s) }
{
    let settings = variant_settings(alloc, task, variant)?;
    let ordered = variant_fields(alloc, task, variant, settings.as_slice())?;
    see_each(&ordered, types)?;
    Ok(())
}

/// Sees the types of the fields of each variant that take part. Rejected exactly where an attribute of a
/// variant or of a field, or a rank, is wrong, or memory fails.
fn see_variants<'d>(
    alloc: Global,
    task: Task<'d, '_>,
    variants: &'d [Variant],
    types: &mut SeenTypes<'d>,
) -> Result<(), Stop>
    requires { task.listed.now ≡ listing.listed task.ast.now }
    ensures types { OnOk result (Sees task.entry.trait_ task.entry.ast.now (map fields_in variants.now) types.old types.new) }
    ensures err { IfErr result (λ s. OfStop (OfShape task.entry.trait_ task.entry.ast.now (Enum variants.now)) s) }
{
    for variant in variants {
        match see_variant(alloc, task, variant, types) {
            Ok(()) => {}
            // (`?` would convert the rejection, which its clause takes as it is.)
            Err(stop) => return Err(stop),
        }
    }
    Ok(())
}

/// Sees the types of the fields of a definition that take part. Rejected exactly where an attribute of a
/// variant or of a field, or a rank, is wrong, or memory fails.
fn see_fields<'d>(alloc: Global, task: Task<'d, '_>, types: &mut SeenTypes<'d>) -> Result<(), Stop>
    requires { task.listed.now ≡ listing.listed task.ast.now }
    ensures types { OnOk result (Sees task.entry.trait_ task.entry.ast.now (cases_of task.entry.ast.now) types.old types.new) }
    ensures err { IfErr result (λ s. OfStop (OfShape task.entry.trait_ task.entry.ast.now task.entry.ast.now.shape) s) }
{
    match &task.ast.shape {
        Shape::Struct(shape) => see_case(alloc, task, shape.fields.as_slice(), types),
        Shape::Enum(variants) => see_variants(alloc, task, variants.as_slice(), types),
    }
}

/// The types of the fields of a definition that take part, in the order in which the trait goes over them.
/// Rejected exactly where an attribute of a variant or of a field, or a rank, is wrong, or memory fails.
pub fn types_of_fields<'d>(alloc: Global, task: Task<'d, '_>) -> Result<SeenTypes<'d>, Stop>
    requires { task.listed.now ≡ listing.listed task.ast.now }
    ensures types { IfOk result (λ types. AreOfFields task.entry.trait_ task.entry.ast.now (read_of types) (touched_of types)) }
    ensures err { IfErr result (λ s. OfStop (OfShape task.entry.trait_ task.entry.ast.now task.entry.ast.now.shape) s) }
{
    let mut types = no_types(alloc);
    see_fields(alloc, task, &mut types)?;
    Ok(types)
}
