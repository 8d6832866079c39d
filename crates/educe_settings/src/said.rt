//! What the attributes of a definition say of a trait, by the rows of the trait.
ghost use Rattle.std.specs.Prelude.{◌≡◌, map, IfOk, IfErr};
ghost use Rattle.educe_attrs.specs.Causes.{NoCause, OfStop};
ghost use Rattle.educe_attrs.specs.Fields.{HaveNoCauses};
ghost use Rattle.educe_attrs.specs.Places as places;
ghost use Rattle.educe_settings.specs.Handled.{OfCase, OfVariant};
ghost use Rattle.educe_settings.specs.Listed as listing;
ghost use Rattle.educe_settings.specs.Rows as rows;
ghost use Rattle.educe_settings.specs.Settings.{settings_of};

use crate::rows::{field_row, type_row, variant_row};
use crate::task::Task;
use educe_attrs::{FieldSettings, Stop, Values, place_settings, settings_of_fields};
use educe_syntax::{Field, Variant};
use educe_tokens::Seq;
use std::alloc::Global;

/// What the type says of a trait. It is rejected exactly where an attribute of the type is wrong, or
/// memory fails.
pub fn type_values(alloc: Global, task: Task<'_, '_>) -> Result<Values, Stop>
    requires { task.listed.now ≡ listing.listed task.ast.now }
    ensures are { IfOk result (λ values. values ≡ places.place_settings task.entry.trait_
        (rows.type_row task.entry.trait_ task.entry.ast.now)
        (listing.listed task.entry.ast.now) task.entry.ast.now.attrs) }
    ensures uncaused { IfOk result (λ _. NoCause (places.OfPlace task.entry.trait_
        (rows.type_row task.entry.trait_ task.entry.ast.now)
        (listing.listed task.entry.ast.now) task.entry.ast.now.attrs)) }
    ensures err { IfErr result (λ s. OfStop (places.OfPlace task.entry.trait_
        (rows.type_row task.entry.trait_ task.entry.ast.now)
        (listing.listed task.entry.ast.now) task.entry.ast.now.attrs) s) }
{
    let attributes = task.ast.attrs.as_slice();
    place_settings(
        alloc,
        task.trait_,
        &type_row(task.trait_, task.ast),
        task.listed,
        attributes,
    )
}

/// What a variant says of a trait. It is rejected exactly where an attribute of the variant is wrong, or
/// memory fails.
pub fn variant_values(alloc: Global, task: Task<'_, '_>, variant: &Variant) -> Result<Values, Stop>
    requires { task.listed.now ≡ listing.listed task.ast.now }
    ensures are { IfOk result (λ values. values ≡ places.place_settings task.entry.trait_
        (rows.variant_row task.entry.trait_) (listing.listed task.entry.ast.now) variant.now.attrs) }
    ensures uncaused { IfOk result (λ _. NoCause (places.OfPlace task.entry.trait_
        (rows.variant_row task.entry.trait_) (listing.listed task.entry.ast.now) variant.now.attrs)) }
    ensures err { IfErr result (λ s. OfStop (OfVariant task.entry.trait_ task.entry.ast.now variant.now) s) }
{
    let (row, attributes) = (variant_row(task.trait_), variant.attrs.as_slice());
    place_settings(alloc, task.trait_, &row, task.listed, attributes)
}

/// What the fields of a case say of a trait, in their order. They are rejected exactly where an attribute
/// of one of them is wrong, or memory fails.
pub fn field_settings(
    alloc: Global,
    task: Task<'_, '_>,
    fields: &[Field],
) -> Result<Seq<FieldSettings>, Stop>
    requires { task.listed.now ≡ listing.listed task.ast.now }
    ensures are { IfOk result (λ all. all ≡ map (settings_of task.entry.trait_ task.entry.ast.now) fields.now) }
    ensures uncaused { IfOk result (λ _. HaveNoCauses task.entry.trait_ (rows.field_row task.entry.trait_)
        (listing.listed task.entry.ast.now) fields.now) }
    ensures err { IfErr result (λ s. OfStop (OfCase task.entry.trait_ task.entry.ast.now fields.now) s) }
{
    settings_of_fields(
        alloc,
        task.trait_,
        &field_row(task.trait_),
        task.listed,
        fields,
    )
}
