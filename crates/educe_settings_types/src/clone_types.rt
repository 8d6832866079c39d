//! The types that the bounds of `Clone` and of `Copy` speak of.
ghost use Rattle.std.specs.Prelude.{◌≡◌, IfOk, IfErr};
ghost use Rattle.educe_syntax.specs.Few.{all_fields};
ghost use Rattle.educe_attrs.specs.Causes.{OfStop};
ghost use Rattle.educe_attrs.specs.Phases.{OfHandler};
ghost use Rattle.educe_bound_traits.specs.declared.traits.Trait.TheVariants as derived;
ghost use Rattle.educe_settings.specs.Copying as spec;
ghost use Rattle.educe_settings.specs.EveryType.{types_of};
ghost use Rattle.educe_settings.specs.Handled.{handling};
ghost use Rattle.educe_settings.specs.Listed as listing;
ghost use Rattle.educe_settings.specs.SeenTypes.{read_of, touched_of};
ghost use Rattle.educe_settings.specs.Types.{AreCloneTypes, AreOfFields, AreUnread};

use crate::clone_copying::can_use_bitwise_copy;
use crate::visits::types_of_fields;
use educe_attrs::Stop;
use educe_bound::Trait;
use educe_settings::{SeenTypes, Task, all_types, has_custom_method, no_types, settings_of_cases};
use educe_syntax::DeriveInput;
use std::alloc::{AllocError, Global};

/// Whether `clone` copies the value as a whole. Rejected exactly where an attribute of a variant or of a
/// field is wrong, or `Copy` is listed and an attribute of the type is, or memory fails.
fn copies_whole(alloc: Global, ast: &DeriveInput, listed: &[Trait]) -> Result<bool, Stop>
    requires { listed.now ≡ listing.listed ast.now }
    ensures are { IfOk result (λ copies. copies ≡ spec.copies_whole ast.now) }
    ensures err { IfErr result (λ s. OfStop (OfHandler (handling ast.now) derived.Clone) s) }
{
    let trait_ = Trait::Clone;
    let task = Task {
        trait_,
        ast,
        listed,
    };
    let settings = settings_of_cases(alloc, task)?;
    let has_method = has_custom_method(settings.as_slice());
    can_use_bitwise_copy(alloc, task, has_method)
}

/// The types of the fields that take part in `Clone`, which is listed.
fn cloned_types<'d>(
    alloc: Global,
    ast: &'d DeriveInput,
    listed: &[Trait],
) -> Result<SeenTypes<'d>, Stop>
    requires { listed.now ≡ listing.listed ast.now }
    ensures types { IfOk result (λ types. AreOfFields derived.Clone ast.now (read_of types) (touched_of types)) }
    ensures err { IfErr result (λ s. OfStop (OfHandler (handling ast.now) derived.Clone) s) }
{
    let trait_ = Trait::Clone;
    let task = Task {
        trait_,
        ast,
        listed,
    };
    types_of_fields(alloc, task)
}

/// The types for `Clone`: those of the fields that take part, where the value is not copied as a whole.
pub fn clone_types<'d>(
    alloc: Global,
    ast: &'d DeriveInput,
    listed: &[Trait],
) -> Result<SeenTypes<'d>, Stop>
    requires { listed.now ≡ listing.listed ast.now }
    ensures types { IfOk result (λ types. AreCloneTypes (spec.copies_whole ast.now) ast.now (read_of types) (touched_of types)) }
    ensures err { IfErr result (λ s. OfStop (OfHandler (handling ast.now) derived.Clone) s) }
{
    let copies = copies_whole(alloc, ast, listed)?;
    if copies {
        Ok(no_types(alloc))
    } else {
        cloned_types(alloc, ast, listed)
    }
}

/// The types that have to have `Copy`: those of all fields. No field is read.
pub fn copied_types(alloc: Global, ast: &DeriveInput) -> Result<SeenTypes<'_>, AllocError>
    ensures { IfOk result (λ types. AreUnread (types_of (all_fields ast.now)) (read_of types) (touched_of types)) }
{
    let touched = all_types(alloc, ast)?;
    let read = Vec::new(alloc);
    Ok(SeenTypes { read, touched })
}
