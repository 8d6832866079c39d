//! What the metas of a place say of a trait.
ghost use Rattle.std.specs.Prelude.{◌≡◌, None};
ghost use Rattle.educe_attrs_values.specs.Metas.{IsNamed};
ghost use Rattle.educe_attrs_values.specs.Chains.{Gives};
ghost use Rattle.educe_attrs_places.specs.Said as spec;

use crate::lists::all_metas;
use crate::named::{check_metas, is_of};
use educe_attrs_rows::{Row, Values, read_form};
use educe_attrs_values::{Stop, at_name, path_of};
use educe_bound::Trait;
use educe_syntax::{Attribute, Meta, Metas};
use educe_tokens::Kind;
use std::alloc::Global;

/// The metas of a place, if each names a listed trait.
pub fn listed_metas(
    alloc: Global,
    listed: &[Trait],
    attributes: &[Attribute],
) -> Result<Metas, Stop>
    ensures { Gives Stop.Memory (spec.listed_metas listed.now attributes.now) result }
{
    let metas = all_metas(alloc, attributes)?;
    check_metas(alloc, listed, metas.as_slice())?;
    Ok(metas)
}

/// What a meta of the trait says, where none stood before it.
fn said_once(
    alloc: Global,
    row: &Row,
    meta: &Meta,
    before: &Option<Values>,
) -> Result<Option<Values>, Stop>
    requires { IsNamed meta.now }
    ensures { Gives Stop.Memory (spec.said_once row.now meta.now before.now) result }
{
    let Some(_) = before else {
        return Ok(Some(read_form(alloc, row, meta)?));
    };
    match path_of(meta) {
        Some(path) => Err(Stop::Refused(at_name(alloc, Kind::ReuseATrait, path)?)),
        None => Err(Stop::Memory),
    }
}

/// The values after one more meta, of any trait.
fn next_said(
    alloc: Global,
    which: Trait,
    row: &Row,
    meta: &Meta,
    before: Option<Values>,
) -> Result<Option<Values>, Stop>
    ensures { Gives Stop.Memory (spec.next_said which row.now meta.now before) result }
{
    if is_of(which, meta) {
        said_once(alloc, row, meta, &before)
    } else {
        Ok(before)
    }
}

/// The values of the only meta of the trait, if there is one.
pub fn read_one(
    alloc: Global,
    which: Trait,
    row: &Row,
    metas: &[Meta],
) -> Result<Option<Values>, Stop>
    ensures { Gives Stop.Memory (spec.read_one which row.now metas.now None) result }
{
    let mut said = None;
    for meta in metas {
        said = next_said(alloc, which, row, meta, said)?;
    }
    Ok(said)
}
