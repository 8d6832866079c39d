//! The values that parameters have.
ghost use Rattle.std.specs.Prelude.{◌≡◌};
ghost use Rattle.educe_attrs_values.specs.Chains.{Gives};
ghost use Rattle.educe_attrs_values.specs.Readings as spec;

use crate::choices::{IdentOrBool, WherePredicatesOrBool};
use crate::fault::Fault;
use crate::kind::ValueKind;
use crate::opening::{expr_in, ident_in, path_in};
use crate::reading::{bound_in, integer, name_in, truth};
use crate::refusing::{missing, not_carried, wrong};
use crate::source::{value_place, value_source};
use crate::stop::Stop;
use educe_syntax::{Expr, ExprPath, Ident, Meta, MetaPath};
use educe_tokens::{EduceError, Kind, Span};
use std::alloc::Global;

/// What was read as a value of the kind at this place, or its rejection.
fn or_refused<T>(
    alloc: Global,
    kind: ValueKind,
    path: &MetaPath,
    place: Span,
    read: Result<T, Fault>,
) -> Result<T, Stop>
    ensures { Gives Stop.Memory (spec.or_refused kind path.now place read) result }
{
    match read {
        Ok(value) => Ok(value),
        Err(Fault::Wrong) => Err(Stop::Refused(wrong(alloc, kind, path, place)?)),
        Err(Fault::TooDeep(span)) => {
            Err(Stop::Refused(EduceError::new(alloc, Kind::TooDeep, span)))
        }
        Err(Fault::TooDeepText) => {
            Err(Stop::Refused(EduceError::new(alloc, Kind::TooDeep, place)))
        }
        Err(Fault::NotCarried(words)) => Err(Stop::Refused(not_carried(place, words))),
        Err(Fault::Memory) => Err(Stop::Memory),
    }
}

/// The name that a parameter has as its value.
pub fn read_ident(alloc: Global, path: &MetaPath, meta: &Meta) -> Result<Ident, Stop>
    ensures { Gives Stop.Memory (spec.value_of ValueKind.Ident path.now meta.now) result }
{
    let kind = ValueKind::Ident;
    let Some(source) = value_source(meta)? else {
        return Err(Stop::Refused(missing(alloc, kind, path)?));
    };
    let read = ident_in(alloc, &source.tokens);
    or_refused(alloc, kind, path, value_place(meta), read)
}

/// The name or truth value that a parameter has as its value.
pub fn read_name(alloc: Global, path: &MetaPath, meta: &Meta) -> Result<IdentOrBool, Stop>
    ensures { Gives Stop.Memory (spec.value_of ValueKind.Name path.now meta.now) result }
{
    let kind = ValueKind::Name;
    let Some(source) = value_source(meta)? else {
        return Err(Stop::Refused(missing(alloc, kind, path)?));
    };
    let read = name_in(alloc, &source.tokens);
    or_refused(alloc, kind, path, value_place(meta), read)
}

/// The truth value that a parameter has as its value.
pub fn read_truth(alloc: Global, path: &MetaPath, meta: &Meta) -> Result<bool, Stop>
    ensures { Gives Stop.Memory (spec.value_of ValueKind.Truth path.now meta.now) result }
{
    let kind = ValueKind::Truth;
    let Some(source) = value_source(meta)? else {
        return Err(Stop::Refused(missing(alloc, kind, path)?));
    };
    let read = truth(source.tokens.as_slice());
    or_refused(alloc, kind, path, value_place(meta), read)
}

/// The truth value that a parameter has as its value, where the parameter alone means `true`.
pub fn read_flag(alloc: Global, path: &MetaPath, meta: &Meta) -> Result<bool, Stop>
    ensures { Gives Stop.Memory (spec.value_of ValueKind.Flag path.now meta.now) result }
{
    let kind = ValueKind::Flag;
    let Some(source) = value_source(meta)? else {
        return Ok(true);
    };
    let read = truth(source.tokens.as_slice());
    or_refused(alloc, kind, path, value_place(meta), read)
}

/// The path that a parameter has as its value.
pub fn read_path(alloc: Global, path: &MetaPath, meta: &Meta) -> Result<ExprPath, Stop>
    ensures { Gives Stop.Memory (spec.value_of ValueKind.Path path.now meta.now) result }
{
    let kind = ValueKind::Path;
    let Some(source) = value_source(meta)? else {
        return Err(Stop::Refused(missing(alloc, kind, path)?));
    };
    let read = path_in(alloc, &source.tokens);
    or_refused(alloc, kind, path, value_place(meta), read)
}

/// The integer that a parameter has as its value.
pub fn read_integer(alloc: Global, path: &MetaPath, meta: &Meta) -> Result<i64, Stop>
    ensures { Gives Stop.Memory (spec.value_of ValueKind.Integer path.now meta.now) result }
{
    let kind = ValueKind::Integer;
    let Some(source) = value_source(meta)? else {
        return Err(Stop::Refused(missing(alloc, kind, path)?));
    };
    let read = integer(alloc, source.tokens.as_slice());
    or_refused(alloc, kind, path, value_place(meta), read)
}

/// The expression that a parameter has as its value.
pub fn read_expr(alloc: Global, path: &MetaPath, meta: &Meta) -> Result<Expr, Stop>
    ensures { Gives Stop.Memory (spec.value_of ValueKind.Expr path.now meta.now) result }
{
    let kind = ValueKind::Expr;
    let Some(source) = value_source(meta)? else {
        return Err(Stop::Refused(missing(alloc, kind, path)?));
    };
    let read = expr_in(alloc, &source.tokens);
    or_refused(alloc, kind, path, value_place(meta), read)
}

/// The bound that a parameter has as its value.
pub fn read_bound(
    alloc: Global,
    path: &MetaPath,
    meta: &Meta,
) -> Result<WherePredicatesOrBool, Stop>
    ensures { Gives Stop.Memory (spec.value_of ValueKind.Bound path.now meta.now) result }
{
    let kind = ValueKind::Bound;
    let Some(source) = value_source(meta)? else {
        return Err(Stop::Refused(missing(alloc, kind, path)?));
    };
    let read = bound_in(alloc, &source);
    or_refused(alloc, kind, path, value_place(meta), read)
}
