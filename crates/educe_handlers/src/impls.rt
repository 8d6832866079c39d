//! The impl of a trait that is next, with its header.
ghost use Rattle.std.specs.Prelude.{◌≡◌, [], ◌∷◌, IfOk};
ghost use Rattle.educe_settings.specs.SeenTypes.{read_of, touched_of};
ghost use Rattle.educe_meaning.specs.Blocks.{IsImpl, IsImplBlock};
ghost use Rattle.educe_meaning.specs.Handlers.{IsReady};
ghost use Rattle.educe_meaning.specs.Headers.{ImplAdds};
ghost use Rattle.educe_settings.specs.Settings.{IsBoundOf};
ghost use Rattle.educe_settings.specs.Types.{AreTypes};

use crate::context::TraitHandlerContext;
use crate::header::{Header, header_of};
use crate::items::impl_item;
use educe_body::{Functions, ImplItem, Item, Items};
use educe_bound::Bound;
use educe_settings::{SeenTypes, Task, is_copied};
use educe_syntax::Predicates;
use educe_tokens::Seq;
use std::alloc::{AllocError, Global};

/// The impl of a trait that is next, with these functions, and the predicates that it adds to those of
/// the definition. The types are those that its bounds speak of.
pub fn impl_of(
    alloc: Global,
    task: Task<'_, '_>,
    bound: &Bound,
    types: &SeenTypes<'_>,
    functions: Functions,
    ctx: &TraitHandlerContext,
) -> Result<(ImplItem, Predicates), AllocError>
    requires ready { IsReady task.trait_ task.ast.now task.listed.now ctx.now }
    requires bound { IsBoundOf task.trait_ task.ast.now bound.now }
    requires types { AreTypes task.trait_ task.ast.now (read_of types.now) (touched_of types.now) }
    ensures item { IfOk result (λ made. IsImpl task.entry.trait_ task.entry.ast.now (λ own. own ≡ functions) made.0) }
    ensures added { IfOk result (λ made. ImplAdds task.entry.ast.now task.entry.trait_ made.1) }
{
    let copied = is_copied(alloc, task.ast)?;
    let Header { generics, added } = header_of(alloc, task, bound, types, copied, ctx)?;
    let item = impl_item(alloc, task.trait_, task.ast, generics, functions)?;
    Ok((item, added))
}

/// The items that are this impl alone.
pub fn impl_alone(alloc: Global, item: ImplItem) -> Result<Items, AllocError>
    ensures { IfOk result (λ items. items ≡ Item.Impl item ∷ []) }
{
    let mut items = Seq::new(alloc);
    items.push(Item::Impl(item))?;
    Ok(items)
}

/// The block that is the impl of a trait alone, and the predicates that this adds.
pub fn impl_block(
    alloc: Global,
    task: Task<'_, '_>,
    bound: &Bound,
    types: &SeenTypes<'_>,
    functions: Functions,
    ctx: &TraitHandlerContext,
) -> Result<(Items, Predicates), AllocError>
    requires ready { IsReady task.trait_ task.ast.now task.listed.now ctx.now }
    requires bound { IsBoundOf task.trait_ task.ast.now bound.now }
    requires types { AreTypes task.trait_ task.ast.now (read_of types.now) (touched_of types.now) }
    ensures block { IfOk result (λ made. IsImplBlock task.entry.trait_ task.entry.ast.now (λ own. own ≡ functions) made.0) }
    ensures added { IfOk result (λ made. ImplAdds task.entry.ast.now task.entry.trait_ made.1) }
{
    let (item, added) = impl_of(alloc, task, bound, types, functions, ctx)?;
    let items = impl_alone(alloc, item)?;
    Ok((items, added))
}
