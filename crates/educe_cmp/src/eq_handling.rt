//! The items of `Eq`.
ghost use Rattle.std.specs.Prelude.{◌≡◌, IfOk, IfSome};
ghost use Rattle.std.specs.List.{AllByRecursion};
ghost use Rattle.std.specs.Option.{option_copied};
ghost use Rattle.educe_body.specs.Held.{AreWordsOf};
ghost use Rattle.educe_syntax.specs.Readings.{AreNamed, AreReadGenerics, IsReadType};
ghost use Rattle.educe_bound_traits.specs.declared.traits.Trait.TheVariants.{Eq};
ghost use Rattle.educe_settings.specs.EveryType.{behind};
ghost use Rattle.educe_settings.specs.SeenTypes.{read_of, touched_of};
ghost use Rattle.educe_meaning.specs.Blocks as spec;
ghost use Rattle.educe_meaning.specs.Handlers.{IsReady};
ghost use Rattle.educe_meaning.specs.Headers.{ImplAdds};
ghost use Rattle.educe_settings.specs.Settings.{IsBoundOf};
ghost use Rattle.educe_settings.specs.Types.{AreUnread, checked_types};

use crate::eq_check::check_item;
use educe_body::{ImplItem, InputWords, Item, Items};
use educe_bound::{Bound, Trait};
use educe_handlers::{TraitHandlerContext, impl_alone, impl_of};
use educe_settings::{SeenTypes, Task};
use educe_syntax::{DeriveInput, Predicates, Ty};
use educe_tokens::Seq;
use std::alloc::{AllocError, Global};

/// Whether the types of fields are checked: where the bound is the automatic one, and there are such
/// types.
fn has_check(bound: &Bound, checked: &Vec<&Ty>) -> bool
    ensures { result ≡ spec.has_check bound.now (behind checked.now.items) }
{
    match bound {
        Bound::Disabled => false,
        Bound::Auto => !checked.is_empty(),
        Bound::All => false,
        Bound::Custom(_) => false,
    }
}

/// The check of these types, and behind it the impl.
fn checked_block(
    alloc: Global,
    ast: &DeriveInput,
    item: ImplItem,
    checked: &Vec<&Ty>,
    words: Option<&InputWords>,
) -> Result<Items, AllocError>
    requires words { IfSome (option_copied words) (AreWordsOf ast.now.tokens) }
    requires item { spec.IsImpl Eq ast.now spec.AreNone item }
    requires types { behind checked.now.items ≡ checked_types ast.now }
    requires named { AreNamed ast.now }
    requires generics { AreReadGenerics item.generics }
    requires visits { AllByRecursion IsReadType (behind checked.now.items) }
    ensures { IfOk result (spec.IsCheckedBlock ast.now) }
{
    let check = check_item(alloc, ast, &item.generics, checked, words)?;
    let mut items = Seq::new(alloc);
    items.push(Item::FieldCheck(check))?;
    items.push(Item::Impl(item))?;
    Ok(items)
}

/// The impl alone.
fn plain_block(alloc: Global, ast: &DeriveInput, item: ImplItem) -> Result<Items, AllocError>
    requires { spec.IsImpl Eq ast.now spec.AreNone item }
    ensures { IfOk result (spec.IsImplBlock Eq ast.now spec.AreNone) }
{
    let items = impl_alone(alloc, item)?;
    Ok(items)
}

/// The items of `Eq` for a definition with this impl: with true the check of these types, and then the
/// impl.
fn eq_items(
    alloc: Global,
    ast: &DeriveInput,
    item: ImplItem,
    checked: &Vec<&Ty>,
    checks: bool,
    words: Option<&InputWords>,
) -> Result<Items, AllocError>
    requires words { IfSome (option_copied words) (AreWordsOf ast.now.tokens) }
    requires item { spec.IsImpl Eq ast.now spec.AreNone item }
    requires types { behind checked.now.items ≡ checked_types ast.now }
    requires named { AreNamed ast.now }
    requires generics { AreReadGenerics item.generics }
    requires visits { AllByRecursion IsReadType (behind checked.now.items) }
    ensures { IfOk result (spec.IsEqBlockWith checks ast.now) }
{
    if checks {
        checked_block(alloc, ast, item, checked, words)
    } else {
        plain_block(alloc, ast, item)
    }
}

/// The block of `Eq` with this bound and these types, and the predicates that its impl adds.
pub fn make_eq(
    alloc: Global,
    ast: &DeriveInput,
    listed: &[Trait],
    bound: &Bound,
    types: &SeenTypes<'_>,
    ctx: &TraitHandlerContext,
    words: Option<&InputWords>,
) -> Result<(Items, Predicates), AllocError>
    requires ready { IsReady Eq ast.now listed.now ctx.now }
    requires words { IfSome (option_copied words) (AreWordsOf ast.now.tokens) }
    requires bound { IsBoundOf Eq ast.now bound.now }
    requires types { AreUnread (checked_types ast.now) (read_of types.now) (touched_of types.now) }
    ensures block { IfOk result (λ found. spec.IsEqBlock ast.now found.0) }
    ensures added { IfOk result (λ found. ImplAdds ast.now Eq found.1) }
{
    let trait_ = Trait::Eq;
    let task = Task {
        trait_,
        ast,
        listed,
    };
    let (item, added) = impl_of(alloc, task, bound, types, Seq::new(alloc), ctx)?;
    let checks = has_check(bound, &types.touched);
    let items = eq_items(alloc, ast, item, &types.touched, checks, words)?;
    Ok((items, added))
}
