//! The places of type parameters, by their names: so the names that were found are put in declared
//! order without a walk over all parameters.
ghost use Rattle.std.specs.Prelude.{◌≡◌, ℕ, ◌||◌, IfOk, OnOk};
ghost use Rattle.std.specs.BTreeSet.{contains};
ghost use Rattle.std.specs.Ordering.{nat_cmp};
ghost use Rattle.educe_bound_classes.specs.Places as spec;

use educe_tokens::Spelling;
use educe_tree::{GenericParam, Params};
use std::alloc::{AllocError, Global};
use std::collections::{BTreeMap, BTreeSet};

/// Adds a place of a name behind its earlier ones.
fn add_place<'a>(
    alloc: Global,
    name: &'a Spelling,
    place: usize,
    places: &mut BTreeMap<&'a str, Vec<usize>>,
) -> Result<(), AllocError>
    ensures keeps { OnOk result (spec.KeepsPlaces places.old places.new) }
    ensures has { OnOk result (spec.IsPlacedAs name.now place places.new) }
{
    let name = name.as_str();
    let mut known = places.remove(name).unwrap_or(Vec::new(alloc));
    known.push(place)?;
    places.insert(name, known)?;
    Ok(())
}

/// Adds the place of a parameter, where it is a type parameter.
fn add_param<'a>(
    alloc: Global,
    param: &'a GenericParam,
    place: usize,
    places: &mut BTreeMap<&'a str, Vec<usize>>,
) -> Result<(), AllocError>
    ensures keeps { OnOk result (spec.KeepsPlaces places.old places.new) }
    ensures has { OnOk result (spec.IsPlaced param.now place places.new) }
{
    match param {
        GenericParam::Lifetime(_) => Ok(()),
        GenericParam::TypeParam(param) => add_place(alloc, &param.ident.text, place, places),
        GenericParam::Const(_) => Ok(()),
    }
}

/// The places of the type parameters.
pub(crate) fn type_places<'a>(
    alloc: Global,
    params: &'a Params,
) -> Result<BTreeMap<&'a str, Vec<usize>>, AllocError>
    ensures { IfOk result (λ places. spec.ArePlaced params.now places) }
{
    let mut places = BTreeMap::new(alloc);
    let params = params.as_slice();
    for (place, param) in params.iter().enumerate() {
        add_param(alloc, param, place, &mut places)?;
    }
    Ok(places)
}

/// Adds places to those that were found.
fn add_each(places: &[usize], found: &mut BTreeSet<usize>) -> Result<(), AllocError>
    ensures { OnOk result ((place : ℕ) →
        contains nat_cmp found.new place ≡ (contains nat_cmp found.old place || spec.is_among places.now place)) }
{
    for place in places {
        found.insert(*place)?;
    }
    Ok(())
}

/// Adds the places of a name to those that were found.
fn add_places(
    places: &BTreeMap<&str, Vec<usize>>,
    name: &str,
    found: &mut BTreeSet<usize>,
) -> Result<(), AllocError>
    ensures { OnOk result (spec.AddsPlaces places.now name.now found.old found.new) }
{
    match places.get(name) {
        Some(known) => add_each(known.as_slice(), found),
        None => Ok(()),
    }
}

/// The places of the names, in order.
pub(crate) fn places_of(
    alloc: Global,
    places: &BTreeMap<&str, Vec<usize>>,
    names: &BTreeSet<&str>,
) -> Result<BTreeSet<usize>, AllocError>
    ensures { IfOk result (λ found. spec.HaveTheirPlaces places.now names.now.keys found) }
{
    let mut found = BTreeSet::new(alloc);
    for name in names {
        add_places(places, name, &mut found)?;
    }
    Ok(found)
}
