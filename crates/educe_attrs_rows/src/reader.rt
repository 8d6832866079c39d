//! What an attribute says, by the row of its place.
ghost use Rattle.std.specs.Prelude.{◌≡◌, IfOk, IfErr};
ghost use Rattle.std.specs.List.{AllByRecursion};
ghost use Rattle.educe_tokens.specs.Message.{HasWords};
ghost use Rattle.educe_attrs_values.specs.Chains.{Gives, map_ok};
ghost use Rattle.educe_attrs_values.specs.Metas.{IsNamed};
ghost use Rattle.educe_attrs_rows.specs.Causes.{Says, IsCause, HasNoCause};
ghost use Rattle.educe_attrs_rows.specs.Metas as metas;
ghost use Rattle.educe_attrs_rows.specs.Settings as settings;
ghost use Rattle.educe_attrs_rows.specs.Program as spec;

use crate::behind::{read_default, read_kept, read_shown, read_shown_or_kept};
use crate::giving::with_param;
use crate::refusing::{incorrect_format, incorrect_place, parameter_reset};
use crate::row::{Equals, Row};
use crate::values::Values;
use educe_attrs_values::{Stop, error_of, inside, path_of, place_of};
use educe_syntax::{Meta, MetaPath, Metas, parse_metas};
use educe_tokens::{EduceError, Kind, Span, TokenSlice};
use std::alloc::Global;

/// The metas that tokens are.
fn whole_metas(alloc: Global, tokens: &TokenSlice) -> Result<Metas, Stop>
    ensures { Gives Stop.Memory (metas.whole_metas tokens.now) result }
{
    match parse_metas(alloc, tokens) {
        Ok(metas) => Ok(metas),
        Err(error) => match error.kind {
            Kind::Alloc => Err(Stop::Memory),
            _ => Err(Stop::Refused(error)),
        },
    }
}

/// The metas in a bracket pair (Rust Reference, Meta item attribute syntax).
pub fn metas_in_pair(alloc: Global, tokens: &TokenSlice) -> Result<Metas, Stop>
    ensures metas { Gives Stop.Memory (metas.metas_in tokens.now) result }
    ensures named { IfOk result (AllByRecursion IsNamed) }
{
    let inside = inside(tokens)?;
    whole_metas(alloc, &inside)
}

/// Writes what one more meta of the list says.
fn next_param(
    alloc: Global,
    row: &Row,
    name: &MetaPath,
    meta: &Meta,
    values: &mut Values,
) -> Result<(), Stop>
    ensures { Gives Stop.Memory (spec.next_param row.now name.now meta.now values.old) (map_ok (λ _. values.exit.now) result) }
{
    let Some(path) = path_of(meta) else {
        return Err(Stop::Refused(incorrect_format(alloc, row, name)?));
    };
    let Some(param) = row.param_of(path) else {
        return Err(Stop::Refused(incorrect_format(alloc, row, name)?));
    };
    if values.has(param) {
        return Err(Stop::Refused(parameter_reset(alloc, path)?));
    }
    with_param(alloc, row, param, path, meta, values)
}

/// What the metas of a list say.
fn read_params(
    alloc: Global,
    row: &Row,
    name: &MetaPath,
    metas: &[Meta],
    place: Span,
) -> Result<Values, Stop>
    ensures { Gives Stop.Memory (spec.read_params row.now name.now metas.now (settings.values_at place)) result }
{
    let mut values = Values::at(place);
    for meta in metas {
        next_param(alloc, row, name, meta, &mut values)?;
    }
    Ok(values)
}

/// What the trait alone says, or an empty list.
fn read_bare(alloc: Global, row: &Row, name: &MetaPath, place: Span) -> Result<Values, Stop>
    ensures { Gives Stop.Memory (spec.read_bare row.now name.now place) result }
{
    if !row.flag {
        return Err(Stop::Refused(incorrect_format(alloc, row, name)?));
    }
    let mut values = Values::at(place);
    values.flag = true;
    Ok(values)
}

/// What the trait alone says, which stands at this path.
fn read_word(alloc: Global, row: &Row, name: &MetaPath) -> Result<Values, Stop>
    ensures { Gives Stop.Memory (spec.read_word row.now name.now) result }
{
    let place = place_of(name.written.tokens().as_slice());
    read_bare(alloc, row, name, place)
}

/// What a value behind `=` says.
fn read_equals(alloc: Global, row: &Row, name: &MetaPath, meta: &Meta) -> Result<Values, Stop>
    ensures { Gives Stop.Memory (spec.read_equals row.now name.now meta.now) result }
{
    match row.equals {
        Equals::Nothing => Err(Stop::Refused(incorrect_format(alloc, row, name)?)),
        Equals::Truth => read_kept(alloc, name, meta),
        Equals::Ident => read_shown(alloc, name, meta),
        Equals::Name => read_shown_or_kept(alloc, name, meta),
        Equals::Expr => read_default(alloc, name, meta),
    }
}

/// What a list says.
fn read_list(
    alloc: Global,
    row: &Row,
    name: &MetaPath,
    tokens: &TokenSlice,
    place: Span,
) -> Result<Values, Stop>
    ensures { Gives Stop.Memory (spec.read_list row.now name.now tokens.now place) result }
{
    let metas = metas_in_pair(alloc, tokens)?;
    match metas.as_slice() {
        [] => read_bare(alloc, row, name, place),
        metas => read_params(alloc, row, name, metas, place),
    }
}

/// The values of an attribute, by the row of its place: the program of which `read_meta` has the
/// laws.
pub fn read_form(alloc: Global, row: &Row, meta: &Meta) -> Result<Values, Stop>
    requires { IsNamed meta.now }
    ensures { Gives Stop.Memory (spec.read_meta row.now meta.now) result }
{
    let Some(name) = path_of(meta) else {
        unreachable!()
    };
    if row.is_empty() {
        return Err(Stop::Refused(incorrect_place(alloc, name)?));
    }
    match meta {
        Meta::Word(_) => read_word(alloc, row, name),
        Meta::List(_, written, place) => read_list(alloc, row, name, written.tokens(), *place),
        Meta::NameValue(_, _, _) => read_equals(alloc, row, name, meta),
        Meta::Doc(_) => unreachable!(),
        Meta::Unread(_, _, _) => unreachable!(),
    }
}

/// The values of an attribute, by the row of its place. It is rejected exactly where it has a
/// cause, or when out of memory.
pub fn read_meta(alloc: Global, row: &Row, meta: &Meta) -> Result<Values, EduceError>
    requires { IsNamed meta.now }
    ensures said { IfOk result (λ values. Says row.now meta.now values) }
    ensures cause { IfErr result (λ e. IsCause row.now meta.now e) }
    ensures words { IfErr result (λ e. HasWords e.kind e.words) }
    ensures uncaused { IfOk result (λ _. HasNoCause row.now meta.now) }
{
    match read_form(alloc, row, meta) {
        Ok(values) => Ok(values),
        Err(stop) => Err(error_of(alloc, stop)),
    }
}
