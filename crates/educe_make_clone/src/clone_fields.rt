//! The fields that take part in `Clone`.
ghost use Rattle.std.specs.Prelude.{◌≡◌, ◌++◌, map, IfOk, OnOk};
ghost use Rattle.std.specs.List.{flat_map};
ghost use Rattle.educe_bound_traits.specs.declared.traits.Trait.TheVariants.{Clone};
ghost use Rattle.educe_settings.specs.CaseSettings.{settings_in};
ghost use Rattle.educe_settings.specs.Ranked.{kept_of};
ghost use Rattle.educe_settings.specs.Cases.{fields_in, cases_of};
ghost use Rattle.educe_settings.specs.Settings.{settings_of, kept_fields, all_kept};

use educe_attrs::FieldSettings;
use educe_make_markers::add_case;
use educe_settings::{Ranked, Task};
use educe_syntax::{Field, Shape, Variant};
use educe_tokens::Seq;
use std::alloc::{AllocError, Global};

/// Adds the fields of a case that take part, where the fields have these settings.
fn add_kept<'d, 's>(
    alloc: Global,
    task: Task<'_, '_>,
    fields: &'d [Field],
    settings: &'s [FieldSettings],
    all: &mut Vec<Ranked<'d, 's>>,
) -> Result<(), AllocError>
    requires { settings.now ≡ map (settings_of Clone task.ast.now) fields.now }
    ensures { OnOk result (map kept_of all.new.items ≡ map kept_of all.old.items ++ kept_fields Clone task.entry.ast.now fields.now) }
{
    add_case(alloc, fields, settings, all)
}

/// Adds the fields of variants that take part, where the fields have these settings.
fn add_variants<'d, 's>(
    alloc: Global,
    task: Task<'_, '_>,
    variants: &'d [Variant],
    settings: &'s [Seq<FieldSettings>],
    all: &mut Vec<Ranked<'d, 's>>,
) -> Result<(), AllocError>
    requires { settings.now ≡ settings_in Clone task.ast.now (map fields_in variants.now) }
    ensures { OnOk result (map kept_of all.new.items ≡ map kept_of all.old.items ++ flat_map
        (kept_fields Clone task.entry.ast.now) (map fields_in variants.now)) }
{
    for (place, variant) in variants.iter().enumerate() {
        let fields = variant.fields.fields.as_slice();
        add_kept(alloc, task, fields, settings[place].as_slice(), all)?;
    }
    Ok(())
}

/// Adds the fields of all cases that take part, one case behind the other.
fn add_all<'d, 's>(
    alloc: Global,
    task: Task<'d, '_>,
    settings: &'s [Seq<FieldSettings>],
    all: &mut Vec<Ranked<'d, 's>>,
) -> Result<(), AllocError>
    requires { settings.now ≡ settings_in Clone task.ast.now (cases_of task.ast.now) }
    ensures { OnOk result (map kept_of all.new.items ≡ map kept_of all.old.items ++ flat_map
        (kept_fields Clone task.entry.ast.now) (cases_of task.entry.ast.now)) }
{
    match &task.ast.shape {
        Shape::Struct(shape) => {
            let fields = shape.fields.as_slice();
            add_kept(alloc, task, fields, settings[0].as_slice(), all)
        }
        Shape::Enum(variants) => add_variants(alloc, task, variants.as_slice(), settings, all),
    }
}

/// The fields of all cases that take part, where the fields of each case have these settings.
pub fn all_kept<'d, 's>(
    alloc: Global,
    task: Task<'d, '_>,
    settings: &'s [Seq<FieldSettings>],
) -> Result<Vec<Ranked<'d, 's>>, AllocError>
    requires { settings.now ≡ settings_in Clone task.ast.now (cases_of task.ast.now) }
    ensures { IfOk result (λ kept. map kept_of kept.items ≡ all_kept Clone task.entry.ast.now) }
{
    let mut all = Vec::new(alloc);
    add_all(alloc, task, settings, &mut all)?;
    Ok(all)
}
