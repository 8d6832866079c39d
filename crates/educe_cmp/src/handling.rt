//! The block of a comparison.
ghost use Rattle.std.specs.Prelude.{◌≡◌, ◌≤◌, ◌^◌, length, IfOk, IfErr, IfSome};
ghost use Rattle.std.specs.List.{AllByRecursion};
ghost use Rattle.std.specs.Option.{option_copied};
ghost use Rattle.educe_body.specs.Held.{AreWordsOf};
ghost use Rattle.educe_attrs.specs.Causes.{NoCause, OfStop};
ghost use Rattle.educe_attrs.specs.Phases.{OfHandler};
ghost use Rattle.educe_meaning.specs.Blocks.{IsComparisonBlock, IsBody, IsFunction, EachEvaluates, function_name};
ghost use Rattle.educe_meaning.specs.Comparisons as comparisons;
ghost use Rattle.educe_settings.specs.Handled.{OfShape, handling};
ghost use Rattle.educe_meaning.specs.Handlers.{IsReady};
ghost use Rattle.educe_meaning.specs.Headers.{ImplAdds};
ghost use Rattle.educe_settings.specs.Packed.{AreCopied};
ghost use Rattle.educe_settings.specs.Listed as listing;

use crate::cases::{enum_case, struct_case};
use educe_attrs::Stop;
use educe_body::{Body, Comparison, Functions, InputWords, Items};
use educe_handlers::{TraitHandlerContext, function, impl_block};
use educe_settings::{Task, bound_of_type, is_copied};
use educe_settings_types::seen_types;
use educe_syntax::{Predicates, Shape};
use std::alloc::{AllocError, Global};

/// The one function of an impl of a comparison.
fn functions(alloc: Global, which: Comparison, body: Body) -> Result<Functions, AllocError>
    ensures { IfOk result (IsFunction (function_name which) (λ own. own ≡ body)) }
{
    match which {
        Comparison::PartialEq => function(alloc, "eq", body),
        Comparison::PartialOrd => function(alloc, "partial_cmp", body),
        Comparison::Ord => function(alloc, "cmp", body),
    }
}

/// The body of a listed comparison. Fields are read by copies where they have to be. It is rejected exactly where an attribute of a variant or a field or a rank
/// is wrong, or memory fails.
fn body(
    alloc: Global,
    which: Comparison,
    task: Task<'_, '_>,
    copied: bool,
    words: Option<&InputWords>,
) -> Result<Body, Stop>
    requires same { task.trait_ ≡ comparisons.trait_of which }
    requires listed { task.listed.now ≡ listing.listed task.ast.now }
    requires copied { AreCopied task.ast.now copied }
    requires words { IfSome (option_copied words) (AreWordsOf task.ast.now.tokens) }
    ensures ok { IfOk result (IsBody which task.entry.ast.now) }
    ensures uncaused { IfOk result (λ _. NoCause (OfShape task.entry.trait_ task.entry.ast.now task.entry.ast.now.shape)) }
    ensures err { IfErr result (λ s. OfStop (OfShape task.entry.trait_ task.entry.ast.now task.entry.ast.now.shape) s) }
{
    match &task.ast.shape {
        Shape::Struct(shape) => {
            let fields = shape.fields.as_slice();
            struct_case(alloc, which, task, fields, copied, words)
        }
        Shape::Enum(variants) => enum_case(alloc, which, task, variants.as_slice(), words),
    }
}

/// The block of a listed comparison, and the predicates that its impl adds. It is rejected exactly where
/// an `educe` list, an attribute of the comparison or a rank is wrong, or memory fails.
pub fn comparison_block(
    alloc: Global,
    which: Comparison,
    task: Task<'_, '_>,
    ctx: &TraitHandlerContext,
    words: Option<&InputWords>,
) -> Result<(Items, Predicates), Stop>
    requires same { task.trait_ ≡ comparisons.trait_of which }
    requires ready { IsReady task.trait_ task.ast.now task.listed.now ctx.now }
    requires words { IfSome (option_copied words) (AreWordsOf task.ast.now.tokens) }
    ensures block { IfOk result (λ found. IsComparisonBlock which task.entry.ast.now found.0) }
    ensures means { IfOk result (λ found. length task.entry.ast.now.tokens ≤ 2 ^ 64 →
        AllByRecursion (EachEvaluates task.entry.ast.now) found.0) }
    ensures added { IfOk result (λ found. ImplAdds task.entry.ast.now task.entry.trait_ found.1) }
    ensures uncaused { IfOk result (λ _. NoCause (OfHandler (handling task.entry.ast.now) task.entry.trait_)) }
    ensures err { IfErr result (λ s. OfStop (OfHandler (handling task.entry.ast.now) task.entry.trait_) s) }
{
    let bound = bound_of_type(alloc, task)?;
    let copied = is_copied(alloc, task.ast)?;
    let body = body(alloc, which, task, copied, words)?;
    let functions = functions(alloc, which, body)?;
    let types = seen_types(alloc, task)?;
    Ok(impl_block(alloc, task, &bound, &types, functions, ctx)?)
}
