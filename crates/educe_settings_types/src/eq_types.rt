//! The types of which `Eq` is checked.
ghost use Rattle.std.specs.Prelude.{◌≡◌, true, IfOk, IfErr};
ghost use Rattle.educe_attrs.specs.Causes.{NoCause};
ghost use Rattle.educe_attrs.specs.Stop.TheVariants.{Memory};
ghost use Rattle.educe_bound_traits.specs.declared.traits.Trait.TheVariants.{PartialEq};
ghost use Rattle.educe_bound_traits.specs.Traits as traits;
ghost use Rattle.educe_settings.specs.EveryType.{behind};
ghost use Rattle.educe_settings.specs.Handled.{OfShape};
ghost use Rattle.educe_settings.specs.Listed as listing;
ghost use Rattle.educe_settings.specs.SeenTypes.{read_of, touched_of};
ghost use Rattle.educe_settings.specs.Types as seen;
ghost use Rattle.educe_settings.specs.Types.{checked_with, AreUnread};

use crate::visits::types_of_fields;
use educe_attrs::Stop;
use educe_bound::{Trait, is_listed};
use educe_settings::{SeenTypes, Task, all_types};
use educe_syntax::{DeriveInput, Ty};
use std::alloc::Global;

/// The types of the fields that `PartialEq` compares by its own function. Where `PartialEq` rejects
/// nothing, memory fails alone.
fn compared_types<'d>(alloc: Global, task: Task<'d, '_>) -> Result<Vec<&'d Ty>, Stop>
    requires equality { task.trait_ ≡ PartialEq }
    requires listed { task.listed.now ≡ listing.listed task.ast.now }
    requires uncaused { NoCause (OfShape PartialEq task.ast.now task.ast.now.shape) }
    ensures are { IfOk result (λ types. behind types.items ≡ checked_with true task.entry.ast.now) }
    ensures err { IfErr result (λ s. s ≡ Memory) }
{
    let types = types_of_fields(alloc, task)?;
    Ok(types.touched)
}

/// The types of which `Eq` is checked: those of the fields that `PartialEq` compares by its own function,
/// where it is listed and rejects nothing, and else of all fields. Memory fails alone.
pub fn checked_types<'d>(
    alloc: Global,
    ast: &'d DeriveInput,
    listed: &[Trait],
) -> Result<SeenTypes<'d>, Stop>
    requires listed { listed.now ≡ listing.listed ast.now }
    requires uncaused { traits.is_listed (listing.listed ast.now) PartialEq ≡ true → NoCause (OfShape PartialEq ast.now ast.now.shape) }
    ensures are { IfOk result (λ types. AreUnread (seen.checked_types ast.now) (read_of types) (touched_of types)) }
    ensures err { IfErr result (λ s. s ≡ Memory) }
{
    let touched = if is_listed(listed, Trait::PartialEq) {
        let trait_ = Trait::PartialEq;
        let task = Task {
            trait_,
            ast,
            listed,
        };
        compared_types(alloc, task)?
    } else {
        all_types(alloc, ast)?
    };
    let read = Vec::new(alloc);
    Ok(SeenTypes { read, touched })
}
