//! The handler of `PartialOrd`.
use crate::handling::comparison_block;
use educe_attrs::Stop;
use educe_body::{Comparison, InputWords, Items};
use educe_bound::Trait;
use educe_handlers::{EnumPart, StructPart, TraitHandler, TraitHandlerContext};
use educe_settings::Task;
use educe_syntax::{DeriveInput, Predicates};
use std::alloc::Global;

/// The handler of `PartialOrd`, for structs and for enums.
pub struct PartialOrdHandler;

impl TraitHandler for PartialOrdHandler {
    ghost use Rattle.std.specs.Prelude.{true};
    ghost use Rattle.educe_bound_traits.specs.declared.traits.Trait.TheVariants.{PartialOrd};

    const TRAIT: Trait = Trait::PartialOrd;

    ghost TRAIT = { PartialOrd };

    ghost takes = { λ _. true };

    fn block(
        alloc: Global,
        ast: &DeriveInput,
        listed: &[Trait],
        ctx: &TraitHandlerContext,
        words: Option<&InputWords>,
    ) -> Result<(Items, Predicates), Stop> {
        let trait_ = Trait::PartialOrd;
        let task = Task {
            trait_,
            ast,
            listed,
        };
        comparison_block(alloc, Comparison::PartialOrd, task, ctx, words)
    }
}

/// The part of the handler of `PartialOrd` that takes structs.
pub type PartialOrdStructHandler = StructPart<PartialOrdHandler>;

/// The part of the handler of `PartialOrd` that takes enums.
pub type PartialOrdEnumHandler = EnumPart<PartialOrdHandler>;
