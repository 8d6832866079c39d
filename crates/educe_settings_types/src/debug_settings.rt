//! What the attributes of the type and of a variant say of `Debug`.
ghost use Rattle.std.specs.Prelude.{◌≡◌, IfOk, IfErr};
ghost use Rattle.educe_syntax.specs.Few.{variants_of};
ghost use Rattle.educe_attrs.specs.Among.{IsAmong};
ghost use Rattle.educe_attrs.specs.Causes.{OfStop};
ghost use Rattle.educe_attrs.specs.Phases.{OfHandler};
ghost use Rattle.educe_bound_traits.specs.declared.traits.Trait.TheVariants.{Debug};
ghost use Rattle.educe_settings.specs.Handled.{handling};
ghost use Rattle.educe_settings.specs.Listed as listing;
ghost use Rattle.educe_settings.specs.Settings.{type_settings};
ghost use Rattle.educe_settings.specs.Shown as spec;
ghost use Rattle.educe_settings_types.specs.Read.{IsTyped, IsNamingRead};

use crate::debug_rows::naming_row;
use educe_attrs::{Stop, Values, place_settings};
use educe_bound::Trait;
use educe_settings::{Task, type_values};
use educe_syntax::{DeriveInput, Variant};
use std::alloc::Global;

/// What the attributes of a variant say of `Debug`. It is rejected exactly where they have a cause, or
/// memory fails.
pub fn naming_values(alloc: Global, task: Task<'_, '_>, variant: &Variant) -> Result<Values, Stop>
    requires listed { task.listed.now ≡ listing.listed task.ast.now }
    requires stands { IsAmong variant.now (variants_of task.ast.now) }
    ensures are { IfOk result (λ values. values ≡ spec.naming_values task.entry.ast.now variant.now) }
    ensures uncaused { IfOk result (λ _. IsNamingRead task.entry.ast.now variant.now) }
    ensures err { IfErr result (λ s. OfStop (OfHandler (handling task.entry.ast.now) Debug) s) }
{
    let (row, attributes) = (naming_row(variant), variant.attrs.as_slice());
    place_settings(alloc, Trait::Debug, &row, task.listed, attributes)
}

/// What the type says. It is rejected exactly where an attribute of the type is wrong, or memory fails.
pub fn read_type(alloc: Global, ast: &DeriveInput, listed: &[Trait]) -> Result<Values, Stop>
    requires { listed.now ≡ listing.listed ast.now }
    ensures are { IfOk result (λ own. own ≡ type_settings Debug ast.now) }
    ensures typed { IfOk result (λ _. IsTyped ast.now listed.now) }
    ensures err { IfErr result (λ s. OfStop (OfHandler (handling ast.now) Debug) s) }
{
    let trait_ = Trait::Debug;
    type_values(
        alloc,
        Task {
            trait_,
            ast,
            listed,
        },
    )
}
