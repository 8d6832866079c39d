//! The items of `Debug`.
ghost use Rattle.std.specs.Prelude.{◌≡◌, map, IfOk, codes, IfSome};
ghost use Rattle.std.specs.List.{AllByRecursion};
ghost use Rattle.std.specs.Option.{option_copied};
ghost use Rattle.educe_body.specs.Held.{AreWordsOf};
ghost use Rattle.educe_syntax.specs.Readings.{AreNamed, AreReadGenerics};
ghost use Rattle.educe_bound_traits.specs.declared.traits.Trait.TheVariants.{Debug};
ghost use Rattle.educe_settings.specs.Ranked.{kept_of};
ghost use Rattle.educe_meaning.specs.Blocks.{IsDebugBlock, IsFunction, IsImpl};
ghost use Rattle.educe_meaning.specs.Handlers.{IsReady};
ghost use Rattle.educe_meaning.specs.Headers.{ImplAdds};
ghost use Rattle.educe_settings.specs.SeenTypes.{read_of, touched_of};
ghost use Rattle.educe_settings.specs.Settings.{IsBoundOf};
ghost use Rattle.educe_settings.specs.Types.{AreOfThese};
ghost use Rattle.educe_settings.specs.Shown as laws;
ghost use Rattle.educe_meaning.specs.ShownBodies as bodies;
ghost use Rattle.educe_make_debug.specs.Cases.{IsShown};
ghost use Rattle.educe_settings_types.specs.Read.{AreRead};
ghost use Rattle.educe_make_debug.specs.DebugNames.{names_of};
ghost use Rattle.educe_make_markers.specs.Marking as marking;

use crate::debug_body::body;
use crate::debug_fields::all_shown;
use crate::debug_names::DebugNames;
use crate::debug_shown::Shown;
use educe_body::{Functions, ImplItem, InputWords, Item, Items};
use educe_bound::{Bound, Trait};
use educe_handlers::{TraitHandlerContext, function, impl_of};
use educe_make_markers::{MarkerNames, method_markers};
use educe_settings::{Ranked, SeenTypes, Task, is_copied};
use educe_syntax::{DeriveInput, Duplicate, Predicates};
use educe_tokens::Seq;
use std::alloc::{AllocError, Global};

/// The names of a marker.
fn marker_names(alloc: Global, names: &DebugNames) -> Result<MarkerNames, AllocError>
    ensures { IfOk result (λ own. marking.names_of own ≡ bodies.marker_names (names_of names.now)) }
{
    Ok(MarkerNames {
        function: names.function.duplicate(alloc)?,
        value: names.argument.get().own_value.duplicate(alloc)?,
        formatter: Some(names.marker_formatter.duplicate(alloc)?),
    })
}

/// This impl, and behind it the markers of the fields that are shown and have methods.
fn debug_items(
    alloc: Global,
    ast: &DeriveInput,
    names: &DebugNames,
    item: ImplItem,
    shown: &[Ranked<'_, '_>],
) -> Result<Items, AllocError>
    requires names { bodies.AreDebugNames ast.now (names_of names.now) }
    requires item { IsImpl Debug ast.now (IsFunction (codes "fmt") (bodies.IsDebugBody ast.now (names_of names.now))) item }
    requires shown { map kept_of shown.now ≡ laws.all_shown ast.now }
    requires named { AreNamed ast.now }
    requires generics { AreReadGenerics item.generics }
    requires marks { AllByRecursion marking.MayMark (map kept_of shown.now) }
    ensures { IfOk result (IsDebugBlock ast.now) }
{
    let own = marker_names(alloc, names)?;
    let markers = method_markers(alloc, Trait::Debug, ast, &own, &item.generics, shown)?;
    let mut items = Seq::new(alloc);
    items.push(Item::Impl(item))?;
    items.append(markers)?;
    Ok(items)
}

/// The function `fmt` with these names. Fields are read by copies where they have to be.
fn fmt(
    alloc: Global,
    ast: &DeriveInput,
    names: &DebugNames,
    shown: &Shown<'_>,
) -> Result<Functions, AllocError>
    requires ast { shown.now.ast.now ≡ ast.now }
    requires shown { IsShown shown.now }
    ensures { IfOk result (IsFunction (codes "fmt") (bodies.IsDebugBody ast.now (names_of names.now))) }
{
    let copied = is_copied(alloc, ast)?;
    let body = body(alloc, names, shown, copied)?;
    function(alloc, "fmt", body)
}

/// The fields that are shown, one case behind the other.
fn fields_of<'d, 'c>(
    alloc: Global,
    ast: &DeriveInput,
    shown: &'c Shown<'d>,
) -> Result<Vec<Ranked<'d, 'c>>, AllocError>
    requires ast { shown.now.ast.now ≡ ast.now }
    requires shown { IsShown shown.now }
    ensures { IfOk result (λ kept. map kept_of kept.items ≡ laws.all_shown ast.now) }
{
    all_shown(alloc, shown.cases.as_slice())
}

/// The impl with these functions, where bounds speak of these types, and the predicates that it adds.
fn debug_impl(
    alloc: Global,
    ast: &DeriveInput,
    listed: &[Trait],
    bound: &Bound,
    types: &SeenTypes<'_>,
    functions: Functions,
    ctx: &TraitHandlerContext,
) -> Result<(ImplItem, Predicates), AllocError>
    requires ready { IsReady Debug ast.now listed.now ctx.now }
    requires bound { IsBoundOf Debug ast.now bound.now }
    requires types { AreOfThese (laws.all_shown ast.now) (read_of types.now) (touched_of types.now) }
    ensures item { IfOk result (λ made. IsImpl Debug ast.now (λ own. own ≡ functions) made.0) }
    ensures added { IfOk result (λ made. ImplAdds ast.now Debug made.1) }
{
    let trait_ = Trait::Debug;
    let task = Task {
        trait_,
        ast,
        listed,
    };
    impl_of(alloc, task, bound, types, functions, ctx)
}

/// The block of `Debug` with this bound, where the values of the definition are shown like this and bounds
/// speak of these types, and the predicates that its impl adds.
pub fn make_debug(
    alloc: Global,
    ast: &DeriveInput,
    listed: &[Trait],
    shown: &Shown<'_>,
    bound: &Bound,
    types: &SeenTypes<'_>,
    ctx: &TraitHandlerContext,
    words: Option<&InputWords>,
) -> Result<(Items, Predicates), AllocError>
    requires ready { IsReady Debug ast.now listed.now ctx.now }
    requires words { IfSome (option_copied words) (AreWordsOf ast.now.tokens) }
    requires ast { shown.now.ast.now ≡ ast.now }
    requires shown { IsShown shown.now }
    requires read { AreRead ast.now }
    requires bound { IsBoundOf Debug ast.now bound.now }
    requires types { AreOfThese (laws.all_shown ast.now) (read_of types.now) (touched_of types.now) }
    ensures block { IfOk result (λ found. IsDebugBlock ast.now found.0) }
    ensures added { IfOk result (λ found. ImplAdds ast.now Debug found.1) }
{
    let kept = fields_of(alloc, ast, shown)?;
    let names = DebugNames::choose(alloc, ast, words)?;
    let functions = fmt(alloc, ast, &names, shown)?;
    let (item, added) = debug_impl(alloc, ast, listed, bound, types, functions, ctx)?;
    let items = debug_items(alloc, ast, &names, item, &kept)?;
    Ok((items, added))
}
