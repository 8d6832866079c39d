//! The settings of a trait at several fields.
ghost use Rattle.std.specs.Prelude.{◌≡◌, map, IfOk, IfErr};
ghost use Rattle.educe_attrs_places.specs.Causes.{OfStop};
ghost use Rattle.educe_attrs_places.specs.Fields as spec;

use crate::place::{FieldSettings, field_settings};
use educe_attrs_rows::Row;
use educe_attrs_values::Stop;
use educe_bound::Trait;
use educe_syntax::Field;
use educe_tokens::Seq;
use std::alloc::Global;

/// The settings of a trait at each of the fields, by one row, in their order. They are rejected
/// exactly where the attributes of one of them have a cause, or memory fails.
pub fn settings_of_fields(
    alloc: Global,
    which: Trait,
    row: &Row,
    listed: &[Trait],
    fields: &[Field],
) -> Result<Seq<FieldSettings>, Stop>
    ensures settings { IfOk result (λ all. all ≡ map (spec.settings_at which row.now listed.now) fields.now) }
    ensures said { IfOk result (λ all. spec.AreFieldsSaid which row.now listed.now fields.now all) }
    ensures cause { IfErr result (λ s. OfStop (spec.OfFields which row.now listed.now fields.now) s) }
    ensures uncaused { IfOk result (λ _. spec.HaveNoCauses which row.now listed.now fields.now) }
{
    let mut all = Seq::with_capacity(alloc, fields.len())?;
    for field in fields {
        match field_settings(alloc, which, row, listed, field.attrs.as_slice()) {
            Ok(settings) => all.push(settings)?,
            // (`?` would convert the rejection, which its clause takes as it is.)
            Err(stop) => return Err(stop),
        }
    }
    Ok(all)
}
