//! The handler of `Debug`.
use crate::debug_handling::make_debug;
use crate::debug_reading::read;
use educe_attrs::Stop;
use educe_body::{InputWords, Items};
use educe_bound::Trait;
use educe_handlers::{EnumPart, StructPart, TraitHandler, TraitHandlerContext};
use educe_settings::Task;
use educe_settings_types::seen_types;
use educe_syntax::{DeriveInput, Predicates};
use std::alloc::Global;

/// The handler of `Debug`, for structs and for enums.
pub struct DebugHandler;

impl TraitHandler for DebugHandler {
    ghost use Rattle.std.specs.Prelude.{true};
    ghost use Rattle.educe_bound_traits.specs.declared.traits.Trait.TheVariants.{Debug};

    const TRAIT: Trait = Trait::Debug;

    ghost TRAIT = { Debug };

    ghost takes = { λ _. true };

    fn block(
        alloc: Global,
        ast: &DeriveInput,
        listed: &[Trait],
        ctx: &TraitHandlerContext,
        words: Option<&InputWords>,
    ) -> Result<(Items, Predicates), Stop> {
        let trait_ = Trait::Debug;
        let task = Task {
            trait_,
            ast,
            listed,
        };
        let (shown, bound) = read(alloc, ast, listed)?;
        let types = seen_types(alloc, task)?;
        Ok(make_debug(alloc, ast, listed, &shown, &bound, &types, ctx, words)?)
    }
}

/// The part of the handler of `Debug` that takes structs.
pub type DebugStructHandler = StructPart<DebugHandler>;

/// The part of the handler of `Debug` that takes enums.
pub type DebugEnumHandler = EnumPart<DebugHandler>;
