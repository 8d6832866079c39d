//! The handler of `Eq`.
use crate::eq_handling::make_eq;
use educe_attrs::Stop;
use educe_body::{InputWords, Items};
use educe_bound::Trait;
use educe_handlers::{TraitHandler, TraitHandlerContext};
use educe_settings::{Task, checked_bound};
use educe_settings_types::seen_types;
use educe_syntax::{DeriveInput, Predicates};
use std::alloc::Global;

/// The handler of `Eq`, for structs and for enums.
pub struct EqHandler;

impl TraitHandler for EqHandler {
    ghost use Rattle.std.specs.Prelude.{true};
    ghost use Rattle.educe_bound_traits.specs.declared.traits.Trait.TheVariants.{Eq};

    const TRAIT: Trait = Trait::Eq;

    ghost TRAIT = { Eq };

    ghost takes = { λ _. true };

    fn block(
        alloc: Global,
        ast: &DeriveInput,
        listed: &[Trait],
        ctx: &TraitHandlerContext,
        words: Option<&InputWords>,
    ) -> Result<(Items, Predicates), Stop> {
        let trait_ = Trait::Eq;
        let task = Task {
            trait_,
            ast,
            listed,
        };
        let bound = checked_bound(alloc, task)?;
        let types = seen_types(alloc, task)?;
        Ok(make_eq(alloc, ast, listed, &bound, &types, ctx, words)?)
    }
}
