//! The trait that handlers implement.
ghost use Rattle.std.specs.Prelude.{◌≡◌, ◌≤◌, ◌^◌, Bool, IsTrue, length, OnOk, OnErr, IfOk, IfErr, IfSome};
ghost use Rattle.std.specs.List.{AllByRecursion};
ghost use Rattle.std.specs.Option.{option_copied};
ghost use Rattle.educe_tokens.specs.Prefix.{HasPrefix};
ghost use Rattle.educe_syntax.specs.Shape.{Shape};
ghost use Rattle.educe_bound_traits.specs.declared.traits.Trait.{Trait};
ghost use Rattle.educe_attrs.specs.Causes.{NoCause, OfStop};
ghost use Rattle.educe_attrs.specs.Phases.{OfHandler};
ghost use Rattle.educe_body.specs.Held.{AreWordsOf};
ghost use Rattle.educe_meaning.specs.Blocks.{IsBlock, EachEvaluates};
ghost use Rattle.educe_settings.specs.Handled.{handling};
ghost use Rattle.educe_meaning.specs.Handlers.{IsReady, AddsBlock, AddsMeaning, AreNoted, traits_through};
ghost use Rattle.educe_meaning.specs.Headers.{ImplAdds};

use crate::context::TraitHandlerContext;
use educe_attrs::Stop;
use educe_body::{InputWords, Items};
use educe_bound::Trait;
use educe_syntax::{DeriveInput, Predicates};
use std::alloc::Global;

/// The handler of a trait, or a part of one, which takes definitions of one shape. It has no values: what
/// it does depends on the definition, on what is listed, and on what the context notes.
pub trait TraitHandler {
    /// The trait whose items are made.
    const TRAIT: Trait;

    ghost TRAIT: { Trait };

    ghost takes: { Shape → Bool };

    /// The items of the trait, and the predicates that its impl adds. A handler writes this function alone.
    /// The words of the definition may be lent; where they are not, a handler that needs them gathers them.
    fn block(
        alloc: Global,
        ast: &DeriveInput,
        listed: &[Trait],
        ctx: &TraitHandlerContext,
        words: Option<&InputWords>,
    ) -> Result<(Items, Predicates), Stop>
        requires ready { IsReady TRAIT ast.now listed.now ctx.now }
        requires words { IfSome (option_copied words) (AreWordsOf ast.now.tokens) }
        requires takes { IsTrue (takes ast.now.shape) }
        ensures block { IfOk result (λ found. IsBlock TRAIT ast.now found.0) }
        // Its functions evaluate to what the trait means, where the tokens are as few as a `usize` can count.
        ensures means { IfOk result (λ found. length ast.now.tokens ≤ 2 ^ 64 → AllByRecursion (EachEvaluates ast.now) found.0) }
        ensures added { IfOk result (λ found. ImplAdds ast.now TRAIT found.1) }
        // It rejects exactly where a cause stands, or memory fails.
        ensures uncaused { IfOk result (λ _. NoCause (OfHandler (handling ast.now) TRAIT)) }
        ensures err { IfErr result (λ s. OfStop (OfHandler (handling ast.now) TRAIT) s) };

    /// Adds the items of the trait behind those that are there, and notes in the context which
    /// predicates its impl adds. Handlers of the listed traits are called in the fixed order. After an error
    /// the items may hold a part of the block behind what they held.
    final fn trait_meta_handler(
        alloc: Global,
        ast: &DeriveInput,
        ctx: &mut TraitHandlerContext,
        items: &mut Items,
        traits: &[Trait],
        words: Option<&InputWords>,
    ) -> Result<(), Stop>
        requires ready { IsReady TRAIT ast.now traits.now ctx.old }
        requires words { IfSome (option_copied words) (AreWordsOf ast.now.tokens) }
        requires takes { IsTrue (takes ast.now.shape) }
        ensures kept { HasPrefix items.old items.new }
        ensures adds { OnOk result (AddsBlock TRAIT ast.now items.old items.new) }
        // Its functions evaluate to what the trait means.
        ensures means { OnOk result (AddsMeaning ast.now items.old items.new) }
        // The context is the one that the handler of the next trait asks for.
        ensures notes { OnOk result (AreNoted ast.now (traits_through TRAIT) ctx.new) }
        ensures unnoted { OnErr result (ctx.new ≡ ctx.old) }
        // It rejects exactly where a cause stands, or memory fails.
        ensures uncaused { OnOk result (NoCause (OfHandler (handling ast.now) TRAIT)) }
        ensures err { IfErr result (λ s. OfStop (OfHandler (handling ast.now) TRAIT) s) }
    {
        // There are as many tokens as a `usize` can count, so as many fields at the most.
        let _count = ast.tokens.len();
        let (own, added) = Self::block(alloc, ast, traits, ctx, words)?;
        items.append(own)?;
        ctx.note_predicates(Self::TRAIT, added)?;
        Ok(())
    }
}
