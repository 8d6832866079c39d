//! The handler of `Default`.
use crate::default_body::form_of;
use crate::default_handling::{Own, make_default, own_of};
use educe_attrs::Stop;
use educe_body::{InputWords, Items};
use educe_bound::Trait;
use educe_handlers::{EnumPart, StructPart, TraitHandler, TraitHandlerContext};
use educe_settings::{Task, type_values};
use educe_settings_types::{choose, seen_types};
use educe_syntax::{DeriveInput, Predicates};
use std::alloc::Global;

/// The handler of `Default`, for structs and for enums.
pub struct DefaultHandler;

impl TraitHandler for DefaultHandler {
    ghost use Rattle.std.specs.Prelude.{true};
    ghost use Rattle.educe_bound_traits.specs.declared.traits.Trait.TheVariants.{Default};

    const TRAIT: Trait = Trait::Default;

    ghost TRAIT = { Default };

    ghost takes = { λ _. true };

    fn block(
        alloc: Global,
        ast: &DeriveInput,
        listed: &[Trait],
        ctx: &TraitHandlerContext,
        _words: Option<&InputWords>,
    ) -> Result<(Items, Predicates), Stop> {
        let trait_ = Trait::Default;
        let task = Task {
            trait_,
            ast,
            listed,
        };
        let values = type_values(alloc, task)?;
        let Own {
            bound,
            has_new,
            value,
            span,
        } = own_of(values);
        let chosen = choose(alloc, task, value, span)?;
        let form = form_of(alloc, ast, chosen)?;
        let types = seen_types(alloc, task)?;
        Ok(make_default(alloc, ast, listed, &bound, form, &types, has_new, ctx)?)
    }
}

/// The part of the handler of `Default` that takes structs.
pub type DefaultStructHandler = StructPart<DefaultHandler>;

/// The part of the handler of `Default` that takes enums.
pub type DefaultEnumHandler = EnumPart<DefaultHandler>;
