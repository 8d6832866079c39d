//! The bound that a definition says for a trait.
ghost use Rattle.std.specs.Prelude.{◌≡◌, true, false, IsTrue, IfOk, IfErr};
ghost use Rattle.educe_attrs.specs.Causes.{NoCause, OfStop};
ghost use Rattle.educe_attrs.specs.Phases.{OfHandler};
ghost use Rattle.educe_attrs.specs.Places.{OfPlace};
ghost use Rattle.educe_bound_traits.specs.Traits.{is_listed, same_trait};
ghost use Rattle.educe_bound_traits.specs.declared.traits.Trait.TheVariants.{Clone};
ghost use Rattle.educe_settings.specs.Handled.{handling};
ghost use Rattle.educe_settings.specs.Listed as listing;
ghost use Rattle.educe_settings.specs.Rows as rows;
ghost use Rattle.educe_settings.specs.Settings as settings;

use crate::cases::check_places;
use crate::said::type_values;
use crate::said_bound::bound_said;
use crate::task::Task;
use educe_attrs::{Stop, Values};
use educe_bound::Bound;
use std::alloc::Global;

/// The bound that the type says for a trait. It is rejected exactly where an attribute of the type is
/// wrong, or memory fails.
pub fn bound_of_type(alloc: Global, task: Task<'_, '_>) -> Result<Bound, Stop>
    requires { task.listed.now ≡ listing.listed task.ast.now }
    ensures ok { IfOk result (settings.IsBoundOf task.entry.trait_ task.entry.ast.now) }
    ensures uncaused { IfOk result (λ _. NoCause (OfPlace task.entry.trait_
        (rows.type_row task.entry.trait_ task.entry.ast.now)
        (listing.listed task.entry.ast.now) task.entry.ast.now.attrs)) }
    ensures err { IfErr result (λ s. OfStop (OfPlace task.entry.trait_
        (rows.type_row task.entry.trait_ task.entry.ast.now)
        (listing.listed task.entry.ast.now) task.entry.ast.now.attrs) s) }
{
    let Values { bound, .. } = type_values(alloc, task)?;
    Ok(bound_said(bound))
}

/// The bound that the type says for a trait for which it makes no difference what else is said. It is
/// rejected exactly where an `educe` list or an attribute of the trait is wrong, or memory fails.
pub fn checked_bound(alloc: Global, task: Task<'_, '_>) -> Result<Bound, Stop>
    requires listed { task.listed.now ≡ listing.listed task.ast.now }
    requires lists { is_listed task.listed.now task.trait_ ≡ true }
    requires fieldwise { IsTrue (rows.is_fieldwise task.trait_) }
    requires unranked { rows.is_order task.trait_ ≡ false }
    requires other { same_trait task.trait_ Clone ≡ false }
    ensures ok { IfOk result (settings.IsBoundOf task.entry.trait_ task.entry.ast.now) }
    ensures uncaused { IfOk result (λ _. NoCause (OfHandler (handling task.entry.ast.now) task.entry.trait_)) }
    ensures err { IfErr result (λ s. OfStop (OfHandler (handling task.entry.ast.now) task.entry.trait_) s) }
{
    let bound = bound_of_type(alloc, task)?;
    check_places(alloc, task)?;
    Ok(bound)
}
