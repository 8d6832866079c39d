//! The handler of `Clone`.
use crate::clone_handling::make_clone;
use educe_attrs::Stop;
use educe_body::{InputWords, Items};
use educe_bound::Trait;
use educe_handlers::{EnumPart, StructPart, TraitHandler, TraitHandlerContext};
use educe_settings::{Task, bound_of_type, has_custom_method, settings_of_cases};
use educe_settings_types::{can_use_bitwise_copy, seen_types};
use educe_syntax::{DeriveInput, Predicates};
use std::alloc::Global;

/// The handler of `Clone`, for structs and for enums.
pub struct CloneHandler;

impl TraitHandler for CloneHandler {
    ghost use Rattle.std.specs.Prelude.{true};
    ghost use Rattle.educe_bound_traits.specs.declared.traits.Trait.TheVariants.{Clone};

    const TRAIT: Trait = Trait::Clone;

    ghost TRAIT = { Clone };

    ghost takes = { λ _. true };

    fn block(
        alloc: Global,
        ast: &DeriveInput,
        listed: &[Trait],
        ctx: &TraitHandlerContext,
        words: Option<&InputWords>,
    ) -> Result<(Items, Predicates), Stop> {
        let trait_ = Trait::Clone;
        let task = Task {
            trait_,
            ast,
            listed,
        };
        let bound = bound_of_type(alloc, task)?;
        let settings = settings_of_cases(alloc, task)?;
        let settings = settings.as_slice();
        let copies = can_use_bitwise_copy(alloc, task, has_custom_method(settings))?;
        let types = seen_types(alloc, task)?;
        Ok(make_clone(
            alloc, ast, listed, &bound, settings, copies, &types, ctx, words,
        )?)
    }
}

/// The part of the handler of `Clone` that takes structs.
pub type CloneStructHandler = StructPart<CloneHandler>;

/// The part of the handler of `Clone` that takes enums.
pub type CloneEnumHandler = EnumPart<CloneHandler>;
