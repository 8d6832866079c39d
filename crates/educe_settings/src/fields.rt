//! What a variant says, and its fields that take part.
ghost use Rattle.std.specs.Prelude.{◌≡◌, map, IfOk, IfErr};
ghost use Rattle.educe_attrs.specs.Causes.{NoCause, OfStop};
ghost use Rattle.educe_attrs.specs.Fields.{HaveNoCauses};
ghost use Rattle.educe_attrs.specs.Places.{OfPlace};
ghost use Rattle.educe_settings.specs.Ranked.{kept_of};
ghost use Rattle.educe_settings.specs.Cases.{fields_in};
ghost use Rattle.educe_settings.specs.Handled.{OfVariant};
ghost use Rattle.educe_settings.specs.Listed.{listed};
ghost use Rattle.educe_settings.specs.Rows as rows;
ghost use Rattle.educe_settings.specs.Settings.{settings_of, kept_fields};
ghost use Rattle.educe_settings.specs.Order.{IsInOrder};

use crate::ranked::Ranked;
use crate::ranks::fields_in_order;
use crate::said::{field_settings, variant_values};
use crate::task::Task;
use educe_attrs::{FieldSettings, Stop};
use educe_syntax::{Field, Variant};
use educe_tokens::Seq;
use std::alloc::Global;

/// What the fields of a variant say of a trait, in their order. Rejected exactly where an attribute of the
/// variant or of one of them is wrong, or memory fails.
pub fn variant_settings(
    alloc: Global,
    task: Task<'_, '_>,
    variant: &Variant,
) -> Result<Seq<FieldSettings>, Stop>
    requires { task.listed.now ≡ listed task.ast.now }
    ensures are { IfOk result (λ all. all ≡ map (settings_of task.entry.trait_ task.entry.ast.now) (fields_in variant.now)) }
    ensures place { IfOk result (λ _. NoCause (OfPlace task.entry.trait_ (rows.variant_row task.entry.trait_)
        (listed task.entry.ast.now) variant.now.attrs)) }
    ensures read { IfOk result (λ _. HaveNoCauses task.entry.trait_ (rows.field_row task.entry.trait_)
        (listed task.entry.ast.now) (fields_in variant.now)) }
    ensures err { IfErr result (λ s. OfStop (OfVariant task.entry.trait_ task.entry.ast.now variant.now) s) }
{
    let _values = variant_values(alloc, task, variant)?;
    field_settings(alloc, task, variant.fields.fields.as_slice())
}

/// The fields of a variant that take part, in the order in which the trait goes over them, where nothing
/// that the variant itself says is wrong. The settings are those of the fields. Rejected exactly where two
/// of the fields have one rank and the trait is an order, or memory fails.
pub fn variant_fields<'d, 's>(
    alloc: Global,
    task: Task<'_, '_>,
    variant: &'d Variant,
    settings: &'s [FieldSettings],
) -> Result<Vec<Ranked<'d, 's>>, Stop>
    requires settings { settings.now ≡ map (settings_of task.trait_ task.ast.now) (fields_in variant.now) }
    requires place { NoCause (OfPlace task.trait_ (rows.variant_row task.trait_) (listed task.ast.now) variant.now.attrs) }
    requires read { HaveNoCauses task.trait_ (rows.field_row task.trait_) (listed task.ast.now) (fields_in variant.now) }
    ensures in_order { IfOk result (λ found.
        IsInOrder task.entry.trait_ (kept_fields task.entry.trait_ task.entry.ast.now (fields_in variant.now)) (map kept_of found.items)) }
    ensures uncaused { IfOk result (λ _. NoCause (OfVariant task.entry.trait_ task.entry.ast.now variant.now)) }
    ensures err { IfErr result (λ s. OfStop (OfVariant task.entry.trait_ task.entry.ast.now variant.now) s) }
{
    fields_in_order(alloc, task, variant.fields.fields.as_slice(), settings)
}
