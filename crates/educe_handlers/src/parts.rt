//! The parts of a handler, by the shape of the definition.
use crate::context::TraitHandlerContext;
use crate::handler::TraitHandler;
use educe_attrs::Stop;
use educe_body::{InputWords, Items};
use educe_bound::Trait;
use educe_syntax::{DeriveInput, Predicates};
use std::alloc::Global;
use std::marker::PhantomData;

/// The part of a handler that takes structs.
pub struct StructPart<H> {
    of: PhantomData<H>,
}

impl<H: TraitHandler> TraitHandler for StructPart<H> {
    ghost use Rattle.std.specs.Prelude.{◌&&◌};
    ghost use Rattle.educe_settings.specs.Cases.{is_struct};

    const TRAIT: Trait = H::TRAIT;

    ghost TRAIT = { H.TRAIT };

    ghost takes = { λ shape. is_struct shape && H.takes shape };

    fn block(
        alloc: Global,
        ast: &DeriveInput,
        listed: &[Trait],
        ctx: &TraitHandlerContext,
        words: Option<&InputWords>,
    ) -> Result<(Items, Predicates), Stop> {
        H::block(alloc, ast, listed, ctx, words)
    }
}

/// The part of a handler that takes enums.
pub struct EnumPart<H> {
    of: PhantomData<H>,
}

impl<H: TraitHandler> TraitHandler for EnumPart<H> {
    ghost use Rattle.std.specs.Prelude.{◌&&◌};
    ghost use Rattle.educe_settings.specs.Cases.{is_enum};

    const TRAIT: Trait = H::TRAIT;

    ghost TRAIT = { H.TRAIT };

    ghost takes = { λ shape. is_enum shape && H.takes shape };

    fn block(
        alloc: Global,
        ast: &DeriveInput,
        listed: &[Trait],
        ctx: &TraitHandlerContext,
        words: Option<&InputWords>,
    ) -> Result<(Items, Predicates), Stop> {
        H::block(alloc, ast, listed, ctx, words)
    }
}
