//! What the fields of each case say, for traits that have no ranks.
ghost use Rattle.std.specs.Prelude.{◌≡◌, false, [], ◌∷◌, map, IfOk, IfErr};
ghost use Rattle.educe_syntax.specs.Shape.TheVariants.{Enum};
ghost use Rattle.educe_attrs.specs.Causes.{NoCause, OfStop};
ghost use Rattle.educe_settings.specs.CaseSettings.{settings_in};
ghost use Rattle.educe_settings.specs.Cases.{fields_in, cases_of};
ghost use Rattle.educe_settings.specs.Handled.{OfCase, OfShape};
ghost use Rattle.educe_settings.specs.Listed as listing;
ghost use Rattle.educe_settings.specs.Rows.{is_order};

use crate::fields::variant_settings;
use crate::said::field_settings;
use crate::task::Task;
use educe_attrs::{FieldSettings, Stop};
use educe_syntax::{Field, Shape, Variant};
use educe_tokens::Seq;
use std::alloc::Global;

/// What the fields of each case say, in their order.
pub type CaseSettings = Seq<Seq<FieldSettings>>;

/// What the fields of the one case of a struct say.
fn settings_of_struct(
    alloc: Global,
    task: Task<'_, '_>,
    fields: &[Field],
) -> Result<CaseSettings, Stop>
    requires listed { task.listed.now ≡ listing.listed task.ast.now }
    requires unranked { is_order task.trait_ ≡ false }
    ensures are { IfOk result (λ all. all ≡ settings_in task.entry.trait_ task.entry.ast.now (fields.now ∷ [])) }
    ensures uncaused { IfOk result (λ _. NoCause (OfCase task.entry.trait_ task.entry.ast.now fields.now)) }
    ensures err { IfErr result (λ s. OfStop (OfCase task.entry.trait_ task.entry.ast.now fields.now) s) }
{
    let settings = field_settings(alloc, task, fields)?;
    let mut all = Seq::new(alloc);
    all.push(settings)?;
    Ok(all)
}

/// What the fields of each variant say.
fn settings_of_variants(
    alloc: Global,
    task: Task<'_, '_>,
    variants: &[Variant],
) -> Result<CaseSettings, Stop>
    requires listed { task.listed.now ≡ listing.listed task.ast.now }
    requires unranked { is_order task.trait_ ≡ false }
    ensures are { IfOk result (λ all. all ≡ settings_in task.entry.trait_ task.entry.ast.now (map fields_in variants.now)) }
    ensures uncaused { IfOk result (λ _. NoCause (OfShape task.entry.trait_ task.entry.ast.now (Enum variants.now))) }
    ensures err { IfErr result (λ s. OfStop (OfShape task.entry.trait_ task.entry.ast.now (Enum variants.now)) s) }
{
    let mut all = Seq::new(alloc);
    for variant in variants {
        match variant_settings(alloc, task, variant) {
            Ok(settings) => all.push(settings)?,
            // (`?` would convert the rejection, which its clause takes as it is.)
            Err(stop) => return Err(stop),
        }
    }
    Ok(all)
}

/// What the variants and the fields of a definition say of a trait that has no ranks. They are rejected
/// exactly where an attribute of one of them is wrong, or memory fails.
pub fn settings_of_cases(alloc: Global, task: Task<'_, '_>) -> Result<CaseSettings, Stop>
    requires listed { task.listed.now ≡ listing.listed task.ast.now }
    requires unranked { is_order task.trait_ ≡ false }
    ensures are { IfOk result (λ all. all ≡ settings_in task.entry.trait_ task.entry.ast.now (cases_of task.entry.ast.now)) }
    ensures uncaused { IfOk result (λ _. NoCause (OfShape task.entry.trait_ task.entry.ast.now task.entry.ast.now.shape)) }
    ensures err { IfErr result (λ s. OfStop (OfShape task.entry.trait_ task.entry.ast.now task.entry.ast.now.shape) s) }
{
    match &task.ast.shape {
        Shape::Struct(shape) => settings_of_struct(alloc, task, shape.fields.as_slice()),
        Shape::Enum(variants) => settings_of_variants(alloc, task, variants.as_slice()),
    }
}

/// Reads them, where it makes no difference what they say.
pub fn check_places(alloc: Global, task: Task<'_, '_>) -> Result<(), Stop>
    requires listed { task.listed.now ≡ listing.listed task.ast.now }
    requires unranked { is_order task.trait_ ≡ false }
    ensures uncaused { IfOk result (λ _. NoCause (OfShape task.entry.trait_ task.entry.ast.now task.entry.ast.now.shape)) }
    ensures err { IfErr result (λ s. OfStop (OfShape task.entry.trait_ task.entry.ast.now task.entry.ast.now.shape) s) }
{
    let _all = settings_of_cases(alloc, task)?;
    Ok(())
}
