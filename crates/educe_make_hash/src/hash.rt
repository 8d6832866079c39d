//! The handler of `Hash`.
use crate::hash_body::body;
use educe_attrs::Stop;
use educe_body::{InputWords, Items};
use educe_bound::Trait;
use educe_handlers::{
    EnumPart, StructPart, TraitHandler, TraitHandlerContext, function, impl_block,
};
use educe_settings::{Task, bound_of_type, is_copied};
use educe_settings_types::seen_types;
use educe_syntax::{DeriveInput, Predicates};
use std::alloc::Global;

/// The handler of `Hash`, for structs and for enums.
pub struct HashHandler;

impl TraitHandler for HashHandler {
    ghost use Rattle.std.specs.Prelude.{true};
    ghost use Rattle.educe_bound_traits.specs.declared.traits.Trait.TheVariants.{Hash};

    const TRAIT: Trait = Trait::Hash;

    ghost TRAIT = { Hash };

    ghost takes = { λ _. true };

    fn block(
        alloc: Global,
        ast: &DeriveInput,
        listed: &[Trait],
        ctx: &TraitHandlerContext,
        words: Option<&InputWords>,
    ) -> Result<(Items, Predicates), Stop> {
        let trait_ = Trait::Hash;
        let task = Task {
            trait_,
            ast,
            listed,
        };
        let bound = bound_of_type(alloc, task)?;
        let copied = is_copied(alloc, ast)?;
        let body = body(alloc, task, copied, words)?;
        let functions = function(alloc, "hash", body)?;
        let types = seen_types(alloc, task)?;
        Ok(impl_block(alloc, task, &bound, &types, functions, ctx)?)
    }
}

/// The part of the handler of `Hash` that takes structs.
pub type HashStructHandler = StructPart<HashHandler>;

/// The part of the handler of `Hash` that takes enums.
pub type HashEnumHandler = EnumPart<HashHandler>;
