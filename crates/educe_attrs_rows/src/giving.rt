//! The value of a parameter, beside those that are read already.
ghost use Rattle.std.specs.Prelude.{◌≡◌};
ghost use Rattle.educe_attrs_values.specs.Chains.{Gives, map_ok};
ghost use Rattle.educe_attrs_rows.specs.Settings as spec;

use crate::param::Param;
use crate::row::{NameKind, Row};
use crate::values::{Rank, Values};
use educe_attrs_values::{
    IdentOrBool, Stop, meta_place, read_bound, read_expr, read_flag, read_ident, read_integer,
    read_name, read_path, read_truth,
};
use educe_syntax::{Meta, MetaPath};
use std::alloc::Global;

/// The value of `name`.
fn read_name_by(
    alloc: Global,
    kind: Option<NameKind>,
    path: &MetaPath,
    meta: &Meta,
) -> Result<IdentOrBool, Stop>
    ensures { Gives Stop.Memory (spec.name_by kind path.now meta.now) result }
{
    match kind {
        Some(NameKind::Ident) => Ok(IdentOrBool::Ident(read_ident(alloc, path, meta)?)),
        Some(NameKind::Name(_)) => read_name(alloc, path, meta),
        None => read_name(alloc, path, meta),
    }
}

/// The value of `rank`, with its place.
fn read_rank(alloc: Global, path: &MetaPath, meta: &Meta) -> Result<Rank, Stop>
    ensures { Gives Stop.Memory (spec.rank_of path.now meta.now) result }
{
    let number = read_integer(alloc, path, meta)?;
    let span = meta_place(meta);
    Ok(Rank { number, span })
}

/// Writes the value of `name`.
fn with_name(
    alloc: Global,
    row: &Row,
    path: &MetaPath,
    meta: &Meta,
    values: &mut Values,
) -> Result<(), Stop>
    ensures { Gives Stop.Memory (spec.with_name row.now.name path.now meta.now values.old) (map_ok (λ _. values.exit.now) result) }
{
    values.name = Some(read_name_by(alloc, row.name, path, meta)?);
    Ok(())
}

/// Writes the value of `named_field`.
fn with_named_field(
    alloc: Global,
    path: &MetaPath,
    meta: &Meta,
    values: &mut Values,
) -> Result<(), Stop>
    ensures { Gives Stop.Memory (spec.with_named_field path.now meta.now values.old) (map_ok (λ _. values.exit.now) result) }
{
    values.named_field = Some(read_truth(alloc, path, meta)?);
    Ok(())
}

/// Writes the value of `new`.
fn with_new(alloc: Global, path: &MetaPath, meta: &Meta, values: &mut Values) -> Result<(), Stop>
    ensures { Gives Stop.Memory (spec.with_new path.now meta.now values.old) (map_ok (λ _. values.exit.now) result) }
{
    values.new = Some(read_flag(alloc, path, meta)?);
    Ok(())
}

/// Writes the value of `expression`.
fn with_expression(
    alloc: Global,
    path: &MetaPath,
    meta: &Meta,
    values: &mut Values,
) -> Result<(), Stop>
    ensures { Gives Stop.Memory (spec.with_expression path.now meta.now values.old) (map_ok (λ _. values.exit.now) result) }
{
    values.expression = Some(read_expr(alloc, path, meta)?);
    Ok(())
}

/// Writes the value of `ignore`.
fn with_ignore(alloc: Global, path: &MetaPath, meta: &Meta, values: &mut Values) -> Result<(), Stop>
    ensures { Gives Stop.Memory (spec.with_ignore path.now meta.now values.old) (map_ok (λ _. values.exit.now) result) }
{
    values.ignore = Some(read_flag(alloc, path, meta)?);
    Ok(())
}

/// Writes the value of `method`.
fn with_method(alloc: Global, path: &MetaPath, meta: &Meta, values: &mut Values) -> Result<(), Stop>
    ensures { Gives Stop.Memory (spec.with_method path.now meta.now values.old) (map_ok (λ _. values.exit.now) result) }
{
    values.method = Some(read_path(alloc, path, meta)?);
    Ok(())
}

/// Writes the value of `rank`.
fn with_rank(alloc: Global, path: &MetaPath, meta: &Meta, values: &mut Values) -> Result<(), Stop>
    ensures { Gives Stop.Memory (spec.with_rank path.now meta.now values.old) (map_ok (λ _. values.exit.now) result) }
{
    values.rank = Some(read_rank(alloc, path, meta)?);
    Ok(())
}

/// Writes the value of `reverse`.
fn with_reverse(
    alloc: Global,
    path: &MetaPath,
    meta: &Meta,
    values: &mut Values,
) -> Result<(), Stop>
    ensures { Gives Stop.Memory (spec.with_reverse path.now meta.now values.old) (map_ok (λ _. values.exit.now) result) }
{
    values.reverse = Some(read_flag(alloc, path, meta)?);
    Ok(())
}

/// Writes the value of `bound`.
fn with_bound(alloc: Global, path: &MetaPath, meta: &Meta, values: &mut Values) -> Result<(), Stop>
    ensures { Gives Stop.Memory (spec.with_bound path.now meta.now values.old) (map_ok (λ _. values.exit.now) result) }
{
    values.bound = Some(read_bound(alloc, path, meta)?);
    Ok(())
}

/// Writes the value of one more parameter.
pub fn with_param(
    alloc: Global,
    row: &Row,
    param: Param,
    path: &MetaPath,
    meta: &Meta,
    values: &mut Values,
) -> Result<(), Stop>
    ensures { Gives Stop.Memory (spec.with_param row.now param path.now meta.now values.old) (map_ok (λ _. values.exit.now) result) }
{
    match param {
        Param::Name => with_name(alloc, row, path, meta, values),
        Param::NamedField => with_named_field(alloc, path, meta, values),
        Param::New => with_new(alloc, path, meta, values),
        Param::Expression => with_expression(alloc, path, meta, values),
        Param::Ignore => with_ignore(alloc, path, meta, values),
        Param::Method => with_method(alloc, path, meta, values),
        Param::Rank => with_rank(alloc, path, meta, values),
        Param::Reverse => with_reverse(alloc, path, meta, values),
        Param::Bound => with_bound(alloc, path, meta, values),
    }
}
