//! The attributes of the fields of a case: the forms that they may have, and what they say.
ghost use Rattle.std.specs.Prelude.{◌≡◌, map, IfOk, IfErr};
ghost use Rattle.educe_attrs.specs.Causes.{OfStop};
ghost use Rattle.educe_attrs.specs.Fields.{OfFields, HaveNoCauses};
ghost use Rattle.educe_bound_traits.specs.declared.traits.Trait.TheVariants.{Debug};
ghost use Rattle.educe_settings.specs.Listed as listing;
ghost use Rattle.educe_settings.specs.Shown as spec;

use educe_attrs::debug::{FieldAttributeBuilder, FieldName};
use educe_attrs::{AttributeBuilder, FieldSettings, Row, Stop, settings_of_fields};
use educe_bound::Trait;
use educe_settings::Task;
use educe_syntax::Field;
use educe_tokens::Seq;
use std::alloc::Global;

/// What a field allows: `ignore` and `method`, and where the names of fields are shown its name.
fn entry_row(named: bool) -> Row
    ensures { result ≡ spec.entry_row named }
{
    let builder = FieldAttributeBuilder {
        enable_name: named,
        enable_ignore: true,
        enable_method: true,
        name: FieldName::Default,
    };
    builder.row()
}

/// What the attributes of these fields say of `Debug`, in their order, where the names of fields are
/// shown or not. They are rejected exactly where an attribute of one of them is wrong, or memory fails.
pub fn entry_settings(
    alloc: Global,
    task: Task<'_, '_>,
    named: bool,
    fields: &[Field],
) -> Result<Seq<FieldSettings>, Stop>
    requires { task.listed.now ≡ listing.listed task.ast.now }
    ensures are { IfOk result (λ all. all ≡ map (spec.entry_settings named task.entry.ast.now) fields.now) }
    ensures uncaused { IfOk result (λ _. HaveNoCauses Debug (spec.entry_row named) (listing.listed task.entry.ast.now) fields.now) }
    ensures err { IfErr result (λ s. OfStop (OfFields Debug (spec.entry_row named) (listing.listed task.entry.ast.now) fields.now) s) }
{
    let row = entry_row(named);
    settings_of_fields(alloc, Trait::Debug, &row, task.listed, fields)
}
