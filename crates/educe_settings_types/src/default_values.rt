//! What the attributes of fields say of `Default`.
ghost use Rattle.std.specs.Prelude.{◌≡◌, ◌==◌, ◌&&◌, ◌||◌, map, IfOk, IfErr};
ghost use Rattle.educe_attrs.specs.Causes.{OfStop};
ghost use Rattle.educe_attrs.specs.Phases.{OfHandler};
ghost use Rattle.educe_bound_traits.specs.declared.traits.Trait.TheVariants as derived;
ghost use Rattle.educe_settings.specs.Cases.{fields_in};
ghost use Rattle.educe_settings.specs.Defaults as spec;
ghost use Rattle.educe_settings.specs.Handled.{handling};
ghost use Rattle.educe_settings.specs.Listed as listing;
ghost use Rattle.educe_syntax.specs.Shape.TheVariants.{Enum};
ghost use Rattle.educe_settings_types.specs.Defaults.{settings_by, AreFieldsRead, AreRead, AreMarksRead, IsTyped};

use crate::default_rows::value_row;
use educe_attrs::{FieldSettings, Stop, Values, settings_of_fields};
use educe_bound::Trait;
use educe_settings::Task;
use educe_syntax::{Field, Variant};
use educe_tokens::Seq;
use std::alloc::Global;

/// What the attributes of each field of a case say of `Default`, in their order, where `default` writes
/// them or does not. It is rejected exactly where the attributes of one have a cause, or memory fails.
pub fn values_of(
    alloc: Global,
    task: Task<'_, '_>,
    written: bool,
    fields: &[Field],
) -> Result<Seq<FieldSettings>, Stop>
    requires listed { task.listed.now ≡ listing.listed task.ast.now }
    requires case { spec.IsCase task.ast.now fields.now written }
    ensures settings { IfOk result (λ all. all ≡ map (settings_by written task.entry.ast.now) fields.now) }
    ensures uncaused { IfOk result (λ _. AreFieldsRead written task.entry.ast.now fields.now) }
    ensures err { IfErr result (λ s. OfStop (OfHandler (handling task.entry.ast.now) derived.Default) s) }
{
    settings_of_fields(
        alloc,
        Trait::Default,
        &value_row(written),
        task.listed,
        fields,
    )
}

/// Whether `default` writes the fields of a variant, of so many, whose attributes say this.
fn is_written(bare: bool, count: usize, mark: &Values) -> bool
    ensures { result ≡ (bare && ((count == 1) || mark.now.flag)) }
{
    bare && (count == 1 || mark.flag)
}

/// What the attributes of the fields of each variant say of `Default`, by what the attributes of the variants
/// say. It is rejected exactly where the attributes of a field have a cause, or memory fails.
pub fn values_of_variants(
    alloc: Global,
    task: Task<'_, '_>,
    bare: bool,
    marks: &[Values],
    variants: &[Variant],
) -> Result<Seq<Seq<FieldSettings>>, Stop>
    requires typed { IsTyped task.ast.now task.listed.now bare }
    requires shape { task.ast.now.shape ≡ Enum variants.now }
    requires marks { marks.now ≡ map (spec.mark_values task.ast.now) variants.now }
    requires read { AreMarksRead task.ast.now variants.now }
    ensures settings { IfOk result (λ all. all ≡
        map (λ v. map (settings_by (spec.is_written task.entry.ast.now variants.now v) task.entry.ast.now) (fields_in v)) variants.now) }
    ensures uncaused { IfOk result (λ _. AreRead task.entry.ast.now (Enum variants.now)) }
    ensures err { IfErr result (λ s. OfStop (OfHandler (handling task.entry.ast.now) derived.Default) s) }
{
    let mut all = Seq::new(alloc);
    for (place, variant) in variants.iter().enumerate() {
        let written = is_written(bare, variants.len(), &marks[place]);
        let fields = variant.fields.fields.as_slice();
        match values_of(alloc, task, written, fields) {
            Ok(settings) => all.push(settings)?,
            // (`?` would convert the rejection, which its clause takes as it is.)
            Err(stop) => return Err(stop),
        }
    }
    Ok(all)
}
