//! The handler of `PartialEq`.
use crate::handling::comparison_block;
use educe_attrs::Stop;
use educe_body::{Comparison, InputWords, Items};
use educe_bound::Trait;
use educe_handlers::{EnumPart, StructPart, TraitHandler, TraitHandlerContext};
use educe_settings::Task;
use educe_syntax::{DeriveInput, Predicates};
use std::alloc::Global;

/// The handler of `PartialEq`, for structs and for enums.
pub struct PartialEqHandler;

impl TraitHandler for PartialEqHandler {
    ghost use Rattle.std.specs.Prelude.{true};
    ghost use Rattle.educe_bound_traits.specs.declared.traits.Trait.TheVariants.{PartialEq};

    const TRAIT: Trait = Trait::PartialEq;

    ghost TRAIT = { PartialEq };

    ghost takes = { λ _. true };

    fn block(
        alloc: Global,
        ast: &DeriveInput,
        listed: &[Trait],
        ctx: &TraitHandlerContext,
        words: Option<&InputWords>,
    ) -> Result<(Items, Predicates), Stop> {
        let trait_ = Trait::PartialEq;
        let task = Task {
            trait_,
            ast,
            listed,
        };
        comparison_block(alloc, Comparison::PartialEq, task, ctx, words)
    }
}

/// The part of the handler of `PartialEq` that takes structs.
pub type PartialEqStructHandler = StructPart<PartialEqHandler>;

/// The part of the handler of `PartialEq` that takes enums.
pub type PartialEqEnumHandler = EnumPart<PartialEqHandler>;
