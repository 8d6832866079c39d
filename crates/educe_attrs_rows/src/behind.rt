//! The value behind `=`.
ghost use Rattle.std.specs.Prelude.{◌≡◌};
ghost use Rattle.educe_attrs_values.specs.Chains.{Gives};
ghost use Rattle.educe_attrs_rows.specs.Settings as spec;

use crate::values::Values;
use educe_attrs_values::{
    IdentOrBool, Stop, meta_place, read_expr, read_ident, read_name, read_truth,
};
use educe_syntax::{Meta, MetaPath};
use std::alloc::Global;

/// Whether the field is kept: `false` ignores it.
pub fn read_kept(alloc: Global, name: &MetaPath, meta: &Meta) -> Result<Values, Stop>
    ensures { Gives Stop.Memory (spec.said_behind spec.kept name.now meta.now) result }
{
    let kept = read_truth(alloc, name, meta)?;
    let mut values = Values::at(meta_place(meta));
    values.ignore = Some(!kept);
    Ok(values)
}

/// The name that is shown.
pub fn read_shown(alloc: Global, name: &MetaPath, meta: &Meta) -> Result<Values, Stop>
    ensures { Gives Stop.Memory (spec.said_behind spec.shown_name name.now meta.now) result }
{
    let ident = read_ident(alloc, name, meta)?;
    let mut values = Values::at(meta_place(meta));
    values.name = Some(IdentOrBool::Ident(ident));
    Ok(values)
}

/// The name that is shown, or whether the field is kept.
pub fn read_shown_or_kept(alloc: Global, name: &MetaPath, meta: &Meta) -> Result<Values, Stop>
    ensures { Gives Stop.Memory (spec.said_behind spec.shown_or_kept name.now meta.now) result }
{
    let read = read_name(alloc, name, meta)?;
    let mut values = Values::at(meta_place(meta));
    match read {
        IdentOrBool::Ident(ident) => values.name = Some(IdentOrBool::Ident(ident)),
        IdentOrBool::Bool(kept) => values.ignore = Some(!kept),
    }
    Ok(values)
}

/// The default value.
pub fn read_default(alloc: Global, name: &MetaPath, meta: &Meta) -> Result<Values, Stop>
    ensures { Gives Stop.Memory (spec.said_behind spec.default_value name.now meta.now) result }
{
    let expression = read_expr(alloc, name, meta)?;
    let mut values = Values::at(meta_place(meta));
    values.expression = Some(expression);
    Ok(values)
}
