//! The fields that take part, of several cases.
ghost use Rattle.std.specs.Prelude.{◌≡◌, ◌++◌, length, map, OnOk};
ghost use Rattle.educe_settings.specs.Ranked.{kept_of};
ghost use Rattle.educe_settings.specs.Settings.{kept_by};

use educe_attrs::FieldSettings;
use educe_settings::{Ranked, kept_fields};
use educe_syntax::Field;
use std::alloc::{AllocError, Global};

/// Adds these fields.
fn add_each<'f, 's>(
    fields: &[Ranked<'f, 's>],
    all: &mut Vec<Ranked<'f, 's>>,
) -> Result<(), AllocError>
    ensures { OnOk result (map kept_of all.new.items ≡ map kept_of all.old.items ++ map kept_of fields.now) }
{
    for ranked in fields {
        all.push(*ranked)?;
    }
    Ok(())
}

/// Adds the fields of a case that take part by their settings, in written order.
pub fn add_case<'f, 's>(
    alloc: Global,
    fields: &'f [Field],
    settings: &'s [FieldSettings],
    all: &mut Vec<Ranked<'f, 's>>,
) -> Result<(), AllocError>
    requires { length settings.now ≡ length fields.now }
    ensures { OnOk result (map kept_of all.new.items ≡ map kept_of all.old.items ++ kept_by 0 fields.now settings.now) }
{
    let kept = kept_fields(alloc, fields, settings)?;
    add_each(&kept, all)
}
