//! The headers of impls: their generic parameters and where clauses.
ghost use Rattle.std.specs.Prelude.{◌≡◌, ◌++◌, ◌&&◌, IfOk};
ghost use Rattle.std.specs.List.{AllByRecursion};
ghost use Rattle.educe_syntax.specs.Readings.{IsReadType};
ghost use Rattle.educe_syntax.specs.Refusal.{IsDefinition};
ghost use Rattle.educe_bound.specs.Predicates.{keys_of, exceptions_of, AreByBound, AreRead, IsReadBound, lifetimes_first};
ghost use Rattle.educe_bound_classes.specs.Needs.{AreNames};
ghost use Rattle.educe_handlers.specs.Adding.{Adds, IsByRule};
ghost use Rattle.educe_settings.specs.SeenTypes.{read_of, touched_of};
ghost use Rattle.educe_meaning.specs.Handlers.{IsReady, AreNotedRead, inherited_from};
ghost use Rattle.educe_meaning.specs.Headers as spec;
ghost use Rattle.educe_settings.specs.Packed.{AreCopied};
ghost use Rattle.educe_settings.specs.Rows as rows;
ghost use Rattle.educe_settings.specs.Settings as settings;
ghost use Rattle.educe_settings.specs.Types.{AreTypes};
ghost use Rattle.educe_bound.specs.Sets.{AreOnceByBound};

use crate::context::TraitHandlerContext;
use crate::prerequisites::inherit;
use educe_bound::{
    Bound, PredicateSet, Trait, exceptions_of, extend_where_predicates, lifetimes_first,
    with_predicates,
};
use educe_settings::{SeenTypes, Task, reads_fields};
use educe_syntax::{DeriveInput, Generics, Predicates};
use educe_tokens::Seq;
use std::alloc::{AllocError, Global};

/// The generics of an impl, and the predicates among them that it adds to those of the definition.
#[derive(Drop)]
pub struct Header {
    pub generics: Generics,
    pub added: Predicates,
}

/// The predicates that the bound asks for by itself, in a set.
fn own_set(
    alloc: Global,
    task: Task<'_, '_>,
    bound: &Bound,
    types: &SeenTypes<'_>,
) -> Result<PredicateSet, AllocError>
    ensures keys { let which = task.entry.trait_ in let ast = task.entry.ast.now in
        IfOk result (λ found. AreOnceByBound bound.now (exceptions_of which) ast.generics.params ast.ident.text which
        (touched_of types.now) (keys_of found)) }
    ensures read { IsReadBound bound.now → AreNames task.entry.ast.now.generics.params →
        AllByRecursion IsReadType (touched_of types.now) → IfOk result AreRead }
{
    let exceptions = exceptions_of(task.trait_);
    bound.predicate_set(
        alloc,
        &task.ast.generics.params,
        task.trait_,
        &types.touched,
        &task.ast.ident,
        &exceptions,
    )
}

/// The predicates that the bound asks for by itself, as a list.
fn own_predicates(
    alloc: Global,
    task: Task<'_, '_>,
    bound: &Bound,
    types: &SeenTypes<'_>,
) -> Result<Predicates, AllocError>
    ensures keys { let which = task.entry.trait_ in let ast = task.entry.ast.now in
        IfOk result (λ found. AreByBound bound.now (exceptions_of which) ast.generics.params ast.ident.text which
        (touched_of types.now) (keys_of found)) }
    ensures read { IsReadBound bound.now → AreNames task.entry.ast.now.generics.params →
        AllByRecursion IsReadType (touched_of types.now) → IfOk result AreRead }
{
    let exceptions = exceptions_of(task.trait_);
    bound.into_where_predicates_by_generic_parameters_check_types(
        alloc,
        &task.ast.generics.params,
        task.trait_,
        &types.touched,
        &task.ast.ident,
        &exceptions,
    )
}

/// Whether the functions of the trait read copies of fields, where a trait that reads fields has to.
fn are_copied(which: Trait, copied: bool) -> bool
    ensures { result ≡ (rows.reads_fields which && copied) }
{
    reads_fields(which) && copied
}

/// The predicates by which fields may be read by copies, where they are.
fn copy_predicates(
    alloc: Global,
    ast: &DeriveInput,
    bound: &Bound,
    types: &SeenTypes<'_>,
    copied: bool,
) -> Result<Predicates, AllocError>
    ensures keys { IfOk result (λ found. spec.ArePacked copied bound.now ast.now (read_of types.now) (keys_of found)) }
    ensures read { AreNames ast.now.generics.params → AllByRecursion IsReadType (read_of types.now) → IfOk result AreRead }
{
    if copied {
        bound.packed_copy_predicates(alloc, &ast.generics.params, &types.read, &ast.ident)
    } else {
        Ok(Seq::new(alloc))
    }
}

/// The predicates that an impl adds under a bound whose predicates are made by rule: one set takes its
/// own, those for copies, and those that it inherits.
fn added_by_rule(
    alloc: Global,
    task: Task<'_, '_>,
    bound: &Bound,
    types: &SeenTypes<'_>,
    copied: bool,
    ctx: &TraitHandlerContext,
) -> Result<Predicates, AllocError>
    requires by_rule { IsByRule bound.now }
    requires is_read { IsDefinition task.ast.now.tokens task.ast.now }
    requires bound { settings.IsBoundOf task.trait_ task.ast.now bound.now }
    requires types { AreTypes task.trait_ task.ast.now (read_of types.now) (touched_of types.now) }
    requires copied { AreCopied task.ast.now copied }
    requires noted { AreNotedRead ctx.now }
    ensures adds { IfOk result (λ all. Adds task.entry.trait_ task.entry.ast.now
        (inherited_from ctx.now (spec.prerequisites task.entry.trait_)) (keys_of all)) }
    ensures read { IfOk result AreRead }
{
    let by_copies = are_copied(task.trait_, copied);
    let mut all = own_set(alloc, task, bound, types)?;
    let copies = copy_predicates(alloc, task.ast, bound, types, by_copies)?;
    extend_where_predicates(&mut all, &copies)?;
    inherit(task.trait_, bound, ctx, &mut all)?;
    Ok(all.into_list())
}

/// The predicates that an impl adds to those of the definition: its own, those for copies, and those
/// that it inherits (documentation of `educe`, Bounds). A list that the bound gives stays as it is.
fn added(
    alloc: Global,
    task: Task<'_, '_>,
    bound: &Bound,
    types: &SeenTypes<'_>,
    copied: bool,
    ctx: &TraitHandlerContext,
) -> Result<Predicates, AllocError>
    requires is_read { IsDefinition task.ast.now.tokens task.ast.now }
    requires bound { settings.IsBoundOf task.trait_ task.ast.now bound.now }
    requires types { AreTypes task.trait_ task.ast.now (read_of types.now) (touched_of types.now) }
    requires copied { AreCopied task.ast.now copied }
    requires noted { AreNotedRead ctx.now }
    ensures adds { IfOk result (λ all. Adds task.entry.trait_ task.entry.ast.now
        (inherited_from ctx.now (spec.prerequisites task.entry.trait_)) (keys_of all)) }
    ensures read { IfOk result AreRead }
{
    match bound {
        Bound::Auto => added_by_rule(alloc, task, bound, types, copied, ctx),
        Bound::All => added_by_rule(alloc, task, bound, types, copied, ctx),
        Bound::Disabled => own_predicates(alloc, task, bound, types),
        Bound::Custom(_) => own_predicates(alloc, task, bound, types),
    }
}

/// The generics of an impl that adds these predicates.
fn generics_with(
    alloc: Global,
    generics: &Generics,
    added: &Predicates,
) -> Result<Generics, AllocError>
    ensures params { IfOk result (λ found. found.params ≡ lifetimes_first generics.now.params) }
    ensures predicates { IfOk result (λ found. found.predicates ≡ generics.now.predicates ++ added.now) }
{
    let Generics { params, predicates } = with_predicates(alloc, generics, added)?;
    let params = lifetimes_first(alloc, &params)?;
    Ok(Generics { params, predicates })
}

/// The header of the impl of a trait that is next. The types are those that its bounds speak of.
pub fn header_of(
    alloc: Global,
    task: Task<'_, '_>,
    bound: &Bound,
    types: &SeenTypes<'_>,
    copied: bool,
    ctx: &TraitHandlerContext,
) -> Result<Header, AllocError>
    requires ready { IsReady task.trait_ task.ast.now task.listed.now ctx.now }
    requires bound { settings.IsBoundOf task.trait_ task.ast.now bound.now }
    requires types { AreTypes task.trait_ task.ast.now (read_of types.now) (touched_of types.now) }
    requires copied { AreCopied task.ast.now copied }
    ensures generics { IfOk result (λ header. spec.IsHeader task.entry.trait_ task.entry.ast.now header.generics) }
    ensures added { IfOk result (λ header. spec.ImplAdds task.entry.ast.now task.entry.trait_ header.added) }
{
    let added = added(alloc, task, bound, types, copied, ctx)?;
    let generics = generics_with(alloc, &task.ast.generics, &added)?;
    Ok(Header { generics, added })
}
