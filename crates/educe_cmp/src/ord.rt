//! The handler of `Ord`.
use crate::handling::comparison_block;
use educe_attrs::Stop;
use educe_body::{Comparison, InputWords, Items};
use educe_bound::Trait;
use educe_handlers::{EnumPart, StructPart, TraitHandler, TraitHandlerContext};
use educe_settings::Task;
use educe_syntax::{DeriveInput, Predicates};
use std::alloc::Global;

/// The handler of `Ord`, for structs and for enums.
pub struct OrdHandler;

impl TraitHandler for OrdHandler {
    ghost use Rattle.std.specs.Prelude.{true};
    ghost use Rattle.educe_bound_traits.specs.declared.traits.Trait.TheVariants.{Ord};

    const TRAIT: Trait = Trait::Ord;

    ghost TRAIT = { Ord };

    ghost takes = { λ _. true };

    fn block(
        alloc: Global,
        ast: &DeriveInput,
        listed: &[Trait],
        ctx: &TraitHandlerContext,
        words: Option<&InputWords>,
    ) -> Result<(Items, Predicates), Stop> {
        let trait_ = Trait::Ord;
        let task = Task {
            trait_,
            ast,
            listed,
        };
        comparison_block(alloc, Comparison::Ord, task, ctx, words)
    }
}

/// The part of the handler of `Ord` that takes structs.
pub type OrdStructHandler = StructPart<OrdHandler>;

/// The part of the handler of `Ord` that takes enums.
pub type OrdEnumHandler = EnumPart<OrdHandler>;
