//! The handler of `Copy`.
use educe_attrs::Stop;
use educe_body::{InputWords, Items};
use educe_bound::Trait;
use educe_handlers::{EnumPart, StructPart, TraitHandler, TraitHandlerContext, impl_block};
use educe_settings::{Task, checked_bound};
use educe_settings_types::seen_types;
use educe_syntax::{DeriveInput, Predicates};
use educe_tokens::Seq;
use std::alloc::Global;

/// The handler of `Copy`, for structs and for enums.
pub struct CopyHandler;

impl TraitHandler for CopyHandler {
    ghost use Rattle.std.specs.Prelude.{true};
    ghost use Rattle.educe_bound_traits.specs.declared.traits.Trait.TheVariants.{Copy};

    const TRAIT: Trait = Trait::Copy;

    ghost TRAIT = { Copy };

    ghost takes = { λ _. true };

    fn block(
        alloc: Global,
        ast: &DeriveInput,
        listed: &[Trait],
        ctx: &TraitHandlerContext,
        _words: Option<&InputWords>,
    ) -> Result<(Items, Predicates), Stop> {
        let trait_ = Trait::Copy;
        let task = Task {
            trait_,
            ast,
            listed,
        };
        let bound = checked_bound(alloc, task)?;
        let types = seen_types(alloc, task)?;
        Ok(impl_block(alloc, task, &bound, &types, Seq::new(alloc), ctx)?)
    }
}

/// The part of the handler of `Copy` that takes structs.
pub type CopyStructHandler = StructPart<CopyHandler>;

/// The part of the handler of `Copy` that takes enums.
pub type CopyEnumHandler = EnumPart<CopyHandler>;
