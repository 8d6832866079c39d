//! The traits that metas name.
ghost use Rattle.std.specs.Prelude.{◌≡◌};
ghost use Rattle.educe_attrs_values.specs.Chains.{Gives};
ghost use Rattle.educe_attrs_places.specs.Named as spec;

use educe_attrs_values::{Stop, at_name};
use educe_bound::{Trait, is_listed, same_trait};
use educe_syntax::{Meta, MetaPath};
use educe_tokens::Kind;
use std::alloc::Global;

/// The trait that a meta names, if it names one.
pub fn trait_of(meta: &Meta) -> Option<Trait>
    ensures { result ≡ spec.trait_of meta.now }
{
    match meta {
        Meta::Word(path) => Trait::from_path(path),
        Meta::List(path, _, _) => Trait::from_path(path),
        Meta::NameValue(path, _, _) => Trait::from_path(path),
        Meta::Doc(_) => None,
        Meta::Unread(_, _, _) => None,
    }
}

/// Whether the meta is of the trait.
pub fn is_of(which: Trait, meta: &Meta) -> bool
    ensures { result ≡ spec.is_of which meta.now }
{
    match trait_of(meta) {
        Some(other) => same_trait(which, other),
        None => false,
    }
}

/// Rejects a path that names no listed trait.
fn check_path(alloc: Global, listed: &[Trait], path: &MetaPath) -> Result<(), Stop>
    ensures { Gives Stop.Memory (spec.checked_path listed.now path.now) result }
{
    let Some(which) = Trait::from_path(path) else {
        return Err(Stop::Refused(at_name(alloc, Kind::UnsupportedTrait, path)?));
    };
    if is_listed(listed, which) {
        Ok(())
    } else {
        Err(Stop::Refused(at_name(alloc, Kind::TraitNotUsed, path)?))
    }
}

/// Rejects a meta that names no listed trait.
fn check_meta(alloc: Global, listed: &[Trait], meta: &Meta) -> Result<(), Stop>
    ensures { Gives Stop.Memory (spec.checked listed.now meta.now) result }
{
    match meta {
        Meta::Word(path) => check_path(alloc, listed, path),
        Meta::List(path, _, _) => check_path(alloc, listed, path),
        Meta::NameValue(path, _, _) => check_path(alloc, listed, path),
        Meta::Doc(_) => Ok(()),
        Meta::Unread(_, _, _) => Ok(()),
    }
}

/// Rejects the first of the metas that names no listed trait.
pub fn check_metas(alloc: Global, listed: &[Trait], metas: &[Meta]) -> Result<(), Stop>
    ensures { Gives Stop.Memory (spec.all_checked listed.now metas.now) result }
{
    for meta in metas {
        check_meta(alloc, listed, meta)?;
    }
    Ok(())
}
