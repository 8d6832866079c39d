//! The types that the bounds of each trait speak of.
ghost use Rattle.std.specs.Prelude.{◌≡◌, true, IfOk, IfErr};
ghost use Rattle.educe_attrs.specs.Causes.{NoCause, OfStop};
ghost use Rattle.educe_attrs.specs.Phases.{OfHandler};
ghost use Rattle.educe_bound_traits.specs.Traits.{is_listed};
ghost use Rattle.educe_bound_traits.specs.declared.traits.Trait.TheVariants as derived;
ghost use Rattle.educe_settings.specs.Handled.{handling};
ghost use Rattle.educe_settings.specs.Listed as listing;
ghost use Rattle.educe_settings.specs.SeenTypes.{read_of, touched_of};
ghost use Rattle.educe_settings.specs.Types.{AreTypes};

use crate::clone_types::{clone_types, copied_types};
use crate::debug_types::debug_types;
use crate::default_types::default_types;
use crate::eq_types::checked_types;
use crate::visits::types_of_fields;
use educe_attrs::Stop;
use educe_bound::Trait;
use educe_settings::{SeenTypes, Task};
use std::alloc::Global;

/// The types that the functions of a trait read, and those that have to have the trait. Rejected only where
/// the handler of the trait rejects the definition, or memory fails. Where it is `Eq`, and `PartialEq` is
/// listed, the handler of that rejects nothing.
pub fn seen_types<'d>(alloc: Global, task: Task<'d, '_>) -> Result<SeenTypes<'d>, Stop>
    requires listed { task.listed.now ≡ listing.listed task.ast.now }
    requires lists { is_listed task.listed.now task.trait_ ≡ true }
    requires equal { task.trait_ ≡ derived.Eq → is_listed (listing.listed task.ast.now) derived.PartialEq ≡ true →
        NoCause (OfHandler (handling task.ast.now) derived.PartialEq) }
    ensures types { IfOk result (λ types. AreTypes task.entry.trait_ task.entry.ast.now (read_of types) (touched_of types)) }
    ensures err { IfErr result (λ s. OfStop (OfHandler (handling task.entry.ast.now) task.entry.trait_) s) }
{
    let Task {
        trait_,
        ast,
        listed,
    } = task;
    match trait_ {
        Trait::PartialEq => types_of_fields(alloc, task),
        Trait::Eq => checked_types(alloc, ast, listed),
        Trait::PartialOrd => types_of_fields(alloc, task),
        Trait::Ord => types_of_fields(alloc, task),
        Trait::Hash => types_of_fields(alloc, task),
        Trait::Debug => debug_types(alloc, ast, listed),
        Trait::Clone => clone_types(alloc, ast, listed),
        Trait::Copy => Ok(copied_types(alloc, ast)?),
        Trait::Default => default_types(alloc, ast, listed),
    }
}
