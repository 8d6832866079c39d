//! The rejections of attributes that their row does not allow.
ghost use Rattle.std.specs.Prelude.{◌≡◌, IfOk};
ghost use Rattle.educe_attrs_rows.specs.Refusals as spec;

use crate::row::Row;
use crate::usage::with_usage;
use educe_attrs_values::{at_name, name_of, place_of};
use educe_syntax::MetaPath;
use educe_tokens::{EduceError, Kind, Seq};
use std::alloc::{AllocError, Global};

/// The rejection of a trait's attribute where no form of it is allowed.
pub fn incorrect_place(alloc: Global, path: &MetaPath) -> Result<EduceError, AllocError>
    ensures { IfOk result (λ e. e ≡ spec.incorrect_place path.now) }
{
    at_name(alloc, Kind::AttributeIncorrectPlace, path)
}

/// The rejection of a parameter, the path, that is given earlier in the same list.
pub fn parameter_reset(alloc: Global, path: &MetaPath) -> Result<EduceError, AllocError>
    ensures { IfOk result (λ e. e ≡ spec.parameter_reset path.now) }
{
    at_name(alloc, Kind::ParameterReset, path)
}

/// The rejection of a form that is not in the row; the words list the forms of the row.
pub fn incorrect_format(alloc: Global, row: &Row, path: &MetaPath) -> Result<EduceError, AllocError>
    ensures { IfOk result (λ e. e ≡ spec.incorrect_format row.now path.now) }
{
    let kind = Kind::AttributeIncorrectFormat;
    let span = place_of(path.written.tokens().as_slice());
    let name = name_of(alloc, path)?;
    let mut words = Seq::new(alloc);
    words.push(name.duplicate(alloc)?)?;
    let words = with_usage(alloc, words, name.as_str(), row)?;
    Ok(EduceError { kind, span, words })
}
