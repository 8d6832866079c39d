//! The items of `Clone`.
ghost use Rattle.std.specs.Prelude.{◌≡◌, map, IfOk, codes, IfSome};
ghost use Rattle.std.specs.List.{AllByRecursion};
ghost use Rattle.std.specs.Option.{option_copied};
ghost use Rattle.educe_body.specs.Held.{AreWordsOf};
ghost use Rattle.educe_syntax.specs.DeriveInput.{DeriveInput};
ghost use Rattle.educe_syntax.specs.Few.{all_fields};
ghost use Rattle.educe_syntax.specs.Readings.{AreNamed, AreReadGenerics};
ghost use Rattle.educe_attrs.specs.Fields.{HaveNoCauses};
ghost use Rattle.educe_bound_traits.specs.declared.traits.Trait.TheVariants as derived;
ghost use Rattle.educe_settings.specs.CaseSettings.{settings_in};
ghost use Rattle.educe_settings.specs.Ranked.{kept_of};
ghost use Rattle.educe_settings.specs.SeenTypes.{read_of, touched_of};
ghost use Rattle.educe_meaning.specs.Blocks as spec;
ghost use Rattle.educe_settings.specs.Cases.{cases_of};
ghost use Rattle.educe_meaning.specs.CloneBodies as bodies;
ghost use Rattle.educe_meaning.specs.CloneBodies.{AreCloneNames};
ghost use Rattle.educe_settings.specs.Copying.{copies_whole};
ghost use Rattle.educe_meaning.specs.Handlers.{IsReady};
ghost use Rattle.educe_meaning.specs.Headers.{ImplAdds};
ghost use Rattle.educe_settings.specs.Packed.{AreCopied};
ghost use Rattle.educe_settings.specs.Listed as listing;
ghost use Rattle.educe_settings.specs.Rows.{field_row};
ghost use Rattle.educe_settings.specs.Settings.{all_kept, IsBoundOf};
ghost use Rattle.educe_settings.specs.Types.{AreCloneTypes};
ghost use Rattle.educe_make_clone.specs.CloneNames.{names_of};
ghost use Rattle.educe_make_markers.specs.Marking.{MayMark};

use crate::clone_cases::{CloneBlocks, clone_blocks};
use crate::clone_fields::all_kept;
use crate::clone_names::CloneNames;
use educe_attrs::FieldSettings;
use educe_body::{Body, Form, Forms, Functions, ImplItem, InputWords, Item, Items};
use educe_bound::{Bound, Trait};
use educe_handlers::{TraitHandlerContext, body_of, function, impl_of};
use educe_make_markers::method_markers;
use educe_settings::{Ranked, SeenTypes, Task, is_copied};
use educe_syntax::{DeriveInput, Duplicate, Predicates};
use educe_tokens::{Seq, Word};
use std::alloc::{AllocError, Global};

/// The functions of an impl whose values are copied as a whole: `clone` alone.
fn copying(alloc: Global) -> Result<Functions, AllocError>
    ensures { IfOk result spec.AreCopying }
{
    let body = body_of(alloc, Form::WholeCopy)?;
    function(alloc, "clone", body)
}

/// The function `clone` with this block.
fn own_function(alloc: Global, block: Forms) -> Result<Functions, AllocError>
    ensures { (definition : DeriveInput) (names : bodies.CloneNames) → bodies.IsCloneBlockFor definition names definition.shape block →
        IfOk result (spec.IsFunction (codes "clone") (bodies.IsCloneBody definition names)) }
{
    let params = Seq::new(alloc);
    function(alloc, "clone", Body { params, block })
}

/// The function `clone_from` with this block, whose parameter has the name of the source.
fn from_function(alloc: Global, names: &CloneNames, block: Forms) -> Result<Functions, AllocError>
    ensures { (definition : DeriveInput) → bodies.IsFromBlockFor definition (names_of names.now) definition.shape block →
        IfOk result (spec.IsFunction (codes "clone_from") (bodies.IsFromBody definition (names_of names.now))) }
{
    let mut params = Seq::new(alloc);
    params.push(Word::new(names.source.text.duplicate(alloc)?))?;
    function(alloc, "clone_from", Body { params, block })
}

/// The functions that clone field by field.
fn cloning(
    alloc: Global,
    task: Task<'_, '_>,
    names: &CloneNames,
    settings: &[Seq<FieldSettings>],
    copied: bool,
) -> Result<Functions, AllocError>
    requires clones { task.trait_ ≡ derived.Clone }
    requires settings { settings.now ≡ settings_in derived.Clone task.ast.now (cases_of task.ast.now) }
    requires copied { AreCopied task.ast.now copied }
    ensures { IfOk result (spec.AreCloning task.entry.ast.now (names_of names.now)) }
{
    let blocks = clone_blocks(alloc, task, names, settings, copied)?;
    let CloneBlocks { clone, clone_from } = blocks;
    let mut functions = own_function(alloc, clone)?;
    functions.append(from_function(alloc, names, clone_from)?)?;
    Ok(functions)
}

/// The functions of the impl: with true `clone` alone, which copies the value as a whole.
fn functions(
    alloc: Global,
    task: Task<'_, '_>,
    names: &CloneNames,
    settings: &[Seq<FieldSettings>],
    copied: bool,
    copies: bool,
) -> Result<Functions, AllocError>
    requires clones { task.trait_ ≡ derived.Clone }
    requires settings { settings.now ≡ settings_in derived.Clone task.ast.now (cases_of task.ast.now) }
    requires copied { AreCopied task.ast.now copied }
    ensures { IfOk result (spec.AreCloneFunctions copies task.entry.ast.now (names_of names.now)) }
{
    if copies {
        copying(alloc)
    } else {
        cloning(alloc, task, names, settings, copied)
    }
}

/// This impl, and behind it the markers of fields with methods, where there are any.
fn clone_items(
    alloc: Global,
    ast: &DeriveInput,
    names: &CloneNames,
    item: ImplItem,
    kept: &[Ranked<'_, '_>],
) -> Result<Items, AllocError>
    requires names { AreCloneNames ast.now (names_of names.now) }
    requires item { spec.IsImpl derived.Clone ast.now (spec.AreCloneFunctions (copies_whole ast.now) ast.now (names_of names.now)) item }
    requires kept { map kept_of kept.now ≡ all_kept derived.Clone ast.now }
    requires named { AreNamed ast.now }
    requires generics { AreReadGenerics item.generics }
    requires marks { AllByRecursion MayMark (map kept_of kept.now) }
    ensures { IfOk result (spec.IsCloneBlock ast.now) }
{
    let (which, own) = (Trait::Clone, &names.marker);
    let markers = method_markers(alloc, which, ast, own, &item.generics, kept)?;
    let mut items = Seq::new(alloc);
    items.push(Item::Impl(item))?;
    items.append(markers)?;
    Ok(items)
}

/// The block of `Clone` with this bound, where the fields have these settings, with true values are copied
/// as a whole, and these are the types that bounds speak of; and the predicates that its impl adds.
pub fn make_clone(
    alloc: Global,
    ast: &DeriveInput,
    listed: &[Trait],
    bound: &Bound,
    settings: &[Seq<FieldSettings>],
    copies: bool,
    types: &SeenTypes<'_>,
    ctx: &TraitHandlerContext,
    words: Option<&InputWords>,
) -> Result<(Items, Predicates), AllocError>
    requires ready { IsReady derived.Clone ast.now listed.now ctx.now }
    requires words { IfSome (option_copied words) (AreWordsOf ast.now.tokens) }
    requires bound { IsBoundOf derived.Clone ast.now bound.now }
    requires settings { settings.now ≡ settings_in derived.Clone ast.now (cases_of ast.now) }
    requires copies { copies ≡ copies_whole ast.now }
    requires types { AreCloneTypes (copies_whole ast.now) ast.now (read_of types.now) (touched_of types.now) }
    requires read { HaveNoCauses derived.Clone (field_row derived.Clone) (listing.listed ast.now) (all_fields ast.now) }
    ensures block { IfOk result (λ found. spec.IsCloneBlock ast.now found.0) }
    ensures added { IfOk result (λ found. ImplAdds ast.now derived.Clone found.1) }
{
    let trait_ = Trait::Clone;
    let task = Task {
        trait_,
        ast,
        listed,
    };
    let names = CloneNames::choose(alloc, ast, words)?;
    let copied = is_copied(alloc, ast)?;
    let functions = functions(alloc, task, &names, settings, copied, copies)?;
    let (item, added) = impl_of(alloc, task, bound, types, functions, ctx)?;
    let kept = all_kept(alloc, task, settings)?;
    let items = clone_items(alloc, ast, &names, item, &kept)?;
    Ok((items, added))
}
