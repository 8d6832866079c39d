//! The settings of a trait at a place.
ghost use Rattle.std.specs.Prelude.{◌≡◌, IfOk, IfErr};
ghost use Rattle.educe_attrs_values.specs.Chains.{Gives};
ghost use Rattle.educe_attrs_places.specs.Causes.{OfStop, NoCause};
ghost use Rattle.educe_attrs_places.specs.Places as spec;

use crate::said::{listed_metas, read_one};
use educe_attrs_rows::{Row, Values};
use educe_attrs_values::Stop;
use educe_bound::{Trait, is_listed};
use educe_syntax::{Attribute, Meta};
use std::alloc::Global;

/// The settings of a trait at a field.
#[derive(Drop)]
pub struct FieldSettings {
    pub values: Values,
    /// The method is one of `Ord`, which `PartialOrd` takes: it returns an `Ordering`.
    pub method_returns_ordering: bool,
}

impl FieldSettings {
    /// What a field's own attribute says.
    fn own(values: Values) -> FieldSettings
        ensures { result ≡ spec.own_settings values }
    {
        FieldSettings {
            values,
            method_returns_ordering: false,
        }
    }
}

/// The program that reads the attributes of a type or a variant.
#[tactic(auto, unfolding(crate::specs::Places::read_place))]
fn read_place(
    alloc: Global,
    which: Trait,
    row: &Row,
    listed: &[Trait],
    attributes: &[Attribute],
) -> Result<Values, Stop>
    ensures { Gives Stop.Memory (spec.read_place which row.now listed.now attributes.now) result }
{
    let metas = listed_metas(alloc, listed, attributes)?;
    match read_one(alloc, which, row, metas.as_slice())? {
        Some(values) => Ok(values),
        None => Ok(Values::none()),
    }
}

/// The settings of a trait at a type or a variant, by the row of its place (documentation of `educe`,
/// Traits). The attributes are rejected exactly where they have a cause, or memory fails.
pub fn place_settings(
    alloc: Global,
    which: Trait,
    row: &Row,
    listed: &[Trait],
    attributes: &[Attribute],
) -> Result<Values, Stop>
    ensures settings { IfOk result (λ v. v ≡ spec.place_settings which row.now listed.now attributes.now) }
    ensures said { IfOk result (λ v. spec.IsSaid which row.now attributes.now v) }
    ensures cause { IfErr result (λ s. OfStop (spec.OfPlace which row.now listed.now attributes.now) s) }
    ensures uncaused { IfOk result (λ _. NoCause (spec.OfPlace which row.now listed.now attributes.now)) }
{
    read_place(alloc, which, row, listed, attributes)
}

/// The order whose settings an order takes where it has none of its own: each is the other's.
fn other_order(which: Trait) -> Option<Trait>
    ensures { result ≡ spec.other_order which }
{
    match which {
        Trait::PartialOrd => Some(Trait::Ord),
        Trait::Ord => Some(Trait::PartialOrd),
        _ => None,
    }
}

/// The other order, if both are listed.
fn fallback(which: Trait, listed: &[Trait]) -> Option<Trait>
    ensures { result ≡ spec.fallback which listed.now }
{
    let other = other_order(which)?;
    if is_listed(listed, which) && is_listed(listed, other) {
        Some(other)
    } else {
        None
    }
}

/// What is taken from the other order: `Ord` takes no method.
fn taken(which: Trait, values: Values) -> FieldSettings
    ensures { result ≡ spec.taken which values }
{
    match which {
        Trait::PartialOrd => {
            let method_returns_ordering = values.method.is_some();
            FieldSettings {
                values,
                method_returns_ordering,
            }
        }
        _ => {
            let mut values = values;
            values.method = None;
            FieldSettings::own(values)
        }
    }
}

/// What is said of the other order, if there is one.
fn read_other(
    alloc: Global,
    which: Trait,
    row: &Row,
    metas: &[Meta],
    other: Option<Trait>,
) -> Result<FieldSettings, Stop>
    ensures { Gives Stop.Memory (spec.read_other which row.now metas.now other) result }
{
    let Some(other) = other else {
        return Ok(FieldSettings::own(Values::none()));
    };
    match read_one(alloc, other, row, metas)? {
        Some(values) => Ok(taken(which, values)),
        None => Ok(FieldSettings::own(Values::none())),
    }
}

/// What is said of the trait, or else of the other order.
fn read_among(
    alloc: Global,
    which: Trait,
    row: &Row,
    listed: &[Trait],
    metas: &[Meta],
) -> Result<FieldSettings, Stop>
    ensures { Gives Stop.Memory (spec.read_among which row.now listed.now metas.now) result }
{
    match read_one(alloc, which, row, metas)? {
        Some(values) => Ok(FieldSettings::own(values)),
        None => read_other(alloc, which, row, metas, fallback(which, listed)),
    }
}

/// The program that reads the attributes of a field.
#[tactic(auto, unfolding(crate::specs::Places::read_field))]
fn read_field(
    alloc: Global,
    which: Trait,
    row: &Row,
    listed: &[Trait],
    attributes: &[Attribute],
) -> Result<FieldSettings, Stop>
    ensures { Gives Stop.Memory (spec.read_field which row.now listed.now attributes.now) result }
{
    let metas = listed_metas(alloc, listed, attributes)?;
    read_among(alloc, which, row, listed, metas.as_slice())
}

/// The settings of a trait at a field, by the row of its place: an order that has no attribute of its
/// own takes those of the other one, where both are listed (documentation of `educe`, Ord). The
/// attributes are rejected exactly where they have a cause, or memory fails.
pub fn field_settings(
    alloc: Global,
    which: Trait,
    row: &Row,
    listed: &[Trait],
    attributes: &[Attribute],
) -> Result<FieldSettings, Stop>
    ensures settings { IfOk result (λ v. v ≡ spec.field_settings which row.now listed.now attributes.now) }
    ensures said { IfOk result (λ v. spec.IsFieldSaid which row.now listed.now attributes.now v) }
    ensures cause { IfErr result (λ s. OfStop (spec.OfField which row.now listed.now attributes.now) s) }
    ensures uncaused { IfOk result (λ _. NoCause (spec.OfField which row.now listed.now attributes.now)) }
{
    read_field(alloc, which, row, listed, attributes)
}
