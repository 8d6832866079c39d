//! The traits that a type lists.
ghost use Rattle.std.specs.Prelude.{◌≡◌, ◌≢◌, [], IfOk, IfErr};
ghost use Rattle.educe_attrs_values.specs.Chains.{Gives};
ghost use Rattle.educe_attrs_places.specs.Causes.{OfStop, NoCause};
ghost use Rattle.educe_attrs_places.specs.Listing as spec;

use crate::lists::{all_metas, is_educe};
use educe_attrs_values::{Stop, at_name, place_of};
use educe_bound::{Trait, Traits, is_listed};
use educe_syntax::{Attribute, Meta, MetaPath};
use educe_tokens::{EduceError, Kind, Seq, Span, Spelling};
use std::alloc::{AllocError, Global};

/// The rejection of an `educe` attribute of a type that is no list.
fn format_incorrect(alloc: Global, path: &MetaPath) -> Result<EduceError, AllocError>
    ensures { IfOk result (λ e. e ≡ spec.format_incorrect path.now) }
{
    let mut words = Seq::new(alloc);
    words.push(Spelling::from_str(alloc, "educe")?)?;
    words.push(Spelling::from_str(alloc, "#[educe(Trait1, Trait2, ..., TraitN)]")?)?;
    Ok(EduceError {
        kind: Kind::EduceFormatIncorrect,
        span: place_of(path.written.tokens().as_slice()),
        words,
    })
}

/// Rejects an attribute without a list whose path is `educe`.
fn check_other(alloc: Global, path: &MetaPath) -> Result<(), Stop>
    ensures { Gives Stop.Memory (spec.checked_other path.now) result }
{
    if is_educe(path) {
        Err(Stop::Refused(format_incorrect(alloc, path)?))
    } else {
        Ok(())
    }
}

/// Rejects an `educe` attribute that is no list.
fn check_list(alloc: Global, meta: &Meta) -> Result<(), Stop>
    ensures { Gives Stop.Memory (spec.checked_list meta.now) result }
{
    match meta {
        Meta::Word(path) => check_other(alloc, path),
        Meta::List(_, _, _) => Ok(()),
        Meta::NameValue(path, _, _) => check_other(alloc, path),
        Meta::Doc(_) => Ok(()),
        Meta::Unread(path, _, _) => check_other(alloc, path),
    }
}

/// Rejects each `educe` attribute that is no list.
fn check_lists(alloc: Global, attributes: &[Attribute]) -> Result<(), Stop>
    ensures { Gives Stop.Memory (spec.checked_lists attributes.now) result }
{
    for attribute in attributes {
        check_list(alloc, &attribute.meta)?;
    }
    Ok(())
}

/// The traits with the one that the path names behind them.
fn add_named(alloc: Global, path: &MetaPath, before: Traits) -> Result<Traits, Stop>
    ensures { Gives Stop.Memory (spec.with_named before path.now) result }
{
    let Some(which) = Trait::from_path(path) else {
        return Err(Stop::Refused(at_name(alloc, Kind::UnsupportedTrait, path)?));
    };
    if is_listed(before.as_slice(), which) {
        return Err(Stop::Refused(at_name(alloc, Kind::ReuseATrait, path)?));
    }
    let mut traits = before;
    traits.push(which)?;
    Ok(traits)
}

/// The traits, followed by the one that the meta names.
fn add_listed(alloc: Global, meta: &Meta, before: Traits) -> Result<Traits, Stop>
    ensures { Gives Stop.Memory (spec.with_listed before meta.now) result }
{
    match meta {
        Meta::Word(path) => add_named(alloc, path, before),
        Meta::List(path, _, _) => add_named(alloc, path, before),
        Meta::NameValue(path, _, _) => add_named(alloc, path, before),
        Meta::Doc(_) => Ok(before),
        Meta::Unread(_, _, _) => Ok(before),
    }
}

/// The traits that metas list, in their order.
fn traits_of(alloc: Global, metas: &[Meta]) -> Result<Traits, Stop>
    ensures { Gives Stop.Memory (spec.traits_of [] metas.now) result }
{
    let mut traits = Seq::new(alloc);
    for meta in metas {
        traits = add_listed(alloc, meta, traits)?;
    }
    Ok(traits)
}

/// The traits, of which there is at least one.
fn if_set_up(alloc: Global, traits: Traits, end: u32) -> Result<Traits, Stop>
    ensures { Gives Stop.Memory (spec.if_set_up end traits) result }
{
    let kind = Kind::DeriveAttributeNotSetUpYet;
    match traits.as_slice() {
        [] => Err(Stop::Refused(EduceError::new(alloc, kind, Span { start: 0, end }))),
        _ => Ok(traits),
    }
}

/// The program that reads the attributes of a type.
#[tactic(auto, unfolding(crate::specs::Listing::read_listing))]
fn read_listing(alloc: Global, attributes: &[Attribute], end: u32) -> Result<Traits, Stop>
    ensures { Gives Stop.Memory (spec.read_listing attributes.now end) result }
{
    check_lists(alloc, attributes)?;
    let metas = all_metas(alloc, attributes)?;
    let traits = traits_of(alloc, metas.as_slice())?;
    if_set_up(alloc, traits, end)
}

/// The traits that the attributes of a type list, as they are written (documentation of `educe`,
/// Traits). `end` is the end of the last token of the source. The attributes are rejected exactly
/// where they have a cause, or when out of memory.
pub fn type_listing(alloc: Global, attributes: &[Attribute], end: u32) -> Result<Traits, Stop>
    ensures listed { IfOk result (λ traits. traits ≡ spec.listed_traits attributes.now) }
    ensures listing { IfOk result (λ traits. spec.IsListing attributes.now traits) }
    ensures cause { IfErr result (λ s. OfStop (spec.OfListing attributes.now end) s) }
    ensures uncaused { IfOk result (λ _. NoCause (spec.OfListing attributes.now end)) }
{
    read_listing(alloc, attributes, end)
}
