//! The readers of values: each reads a meta as a value of one kind (documentation of `educe`, Traits).
ghost use Rattle.std.specs.Prelude.{◌≡◌, IfOk, IfErr, Some};
ghost use Rattle.educe_attrs_values.specs.Causes.{HasNoReaderCause, IsReaderCause};
ghost use Rattle.educe_attrs_values.specs.Chains.{map_err};
ghost use Rattle.educe_attrs_values.specs.Metas.{IsNamed};
ghost use Rattle.educe_attrs_values.specs.Refusals as refusals;
ghost use Rattle.educe_attrs_values.specs.Values.{Holds};
ghost use Rattle.educe_attrs_values.specs.Words as words;

use crate::choices::IdentOrBool;
use crate::kind::ValueKind;
use crate::stop::{Stop, error_of};
use crate::value::{
    read_expr, read_flag, read_ident, read_integer, read_name, read_path, read_truth,
};
use crate::word::path_of;
use educe_syntax::{Expr, ExprPath, Ident, Meta, MetaPath};
use educe_tokens::EduceError;
use std::alloc::Global;

/// The path of a meta that has a name.
fn named_path(meta: &Meta) -> &MetaPath
    requires { IsNamed meta.now }
    ensures { words.path_of meta.now ≡ Some result.now }
{
    match path_of(meta) {
        Some(path) => path,
        None => unreachable!(),
    }
}

/// The value, or the error of what stopped its reading.
fn told<T>(alloc: Global, read: Result<T, Stop>) -> Result<T, EduceError>
    ensures { result ≡ map_err refusals.error_of read }
{
    match read {
        Ok(value) => Ok(value),
        Err(stop) => Err(error_of(alloc, stop)),
    }
}

/// The name that the meta has as its value, or its rejection.
pub fn meta_2_ident(alloc: Global, meta: &Meta) -> Result<Ident, EduceError>
    requires { IsNamed meta.now }
    ensures said { IfOk result (λ v. Holds ValueKind.Ident meta.now v) }
    ensures cause { IfErr result (λ e. IsReaderCause ValueKind.Ident meta.now e) }
    ensures uncaused { IfOk result (λ _. HasNoReaderCause ValueKind.Ident meta.now) }
{
    told(alloc, read_ident(alloc, named_path(meta), meta))
}

/// The truth value that the meta has as its value, or its rejection.
pub fn meta_2_bool(alloc: Global, meta: &Meta) -> Result<bool, EduceError>
    requires { IsNamed meta.now }
    ensures said { IfOk result (λ v. Holds ValueKind.Truth meta.now v) }
    ensures cause { IfErr result (λ e. IsReaderCause ValueKind.Truth meta.now e) }
    ensures uncaused { IfOk result (λ _. HasNoReaderCause ValueKind.Truth meta.now) }
{
    told(alloc, read_truth(alloc, named_path(meta), meta))
}

/// The truth value that the meta has as its value, `true` where it has none; or its rejection.
pub fn meta_2_bool_allow_path(alloc: Global, meta: &Meta) -> Result<bool, EduceError>
    requires { IsNamed meta.now }
    ensures said { IfOk result (λ v. Holds ValueKind.Flag meta.now v) }
    ensures cause { IfErr result (λ e. IsReaderCause ValueKind.Flag meta.now e) }
    ensures uncaused { IfOk result (λ _. HasNoReaderCause ValueKind.Flag meta.now) }
{
    told(alloc, read_flag(alloc, named_path(meta), meta))
}

/// The name or truth value that the meta has as its value, where an empty string is `false`; or its
/// rejection.
pub fn meta_2_ident_and_bool(alloc: Global, meta: &Meta) -> Result<IdentOrBool, EduceError>
    requires { IsNamed meta.now }
    ensures said { IfOk result (λ v. Holds ValueKind.Name meta.now v) }
    ensures cause { IfErr result (λ e. IsReaderCause ValueKind.Name meta.now e) }
    ensures uncaused { IfOk result (λ _. HasNoReaderCause ValueKind.Name meta.now) }
{
    told(alloc, read_name(alloc, named_path(meta), meta))
}

/// The path of an expression that the meta has as its value, or its rejection.
pub fn meta_2_path(alloc: Global, meta: &Meta) -> Result<ExprPath, EduceError>
    requires { IsNamed meta.now }
    ensures said { IfOk result (λ v. Holds ValueKind.Path meta.now v) }
    ensures cause { IfErr result (λ e. IsReaderCause ValueKind.Path meta.now e) }
    ensures uncaused { IfOk result (λ _. HasNoReaderCause ValueKind.Path meta.now) }
{
    told(alloc, read_path(alloc, named_path(meta), meta))
}

/// The integer of 64 bits that the meta has as its value, or its rejection.
pub fn meta_2_isize(alloc: Global, meta: &Meta) -> Result<i64, EduceError>
    requires { IsNamed meta.now }
    ensures said { IfOk result (λ v. Holds ValueKind.Integer meta.now v) }
    ensures cause { IfErr result (λ e. IsReaderCause ValueKind.Integer meta.now e) }
    ensures uncaused { IfOk result (λ _. HasNoReaderCause ValueKind.Integer meta.now) }
{
    told(alloc, read_integer(alloc, named_path(meta), meta))
}

/// The expression that the meta has as its value, or its rejection.
pub fn meta_2_expr(alloc: Global, meta: &Meta) -> Result<Expr, EduceError>
    requires { IsNamed meta.now }
    ensures said { IfOk result (λ v. Holds ValueKind.Expr meta.now v) }
    ensures cause { IfErr result (λ e. IsReaderCause ValueKind.Expr meta.now e) }
    ensures uncaused { IfOk result (λ _. HasNoReaderCause ValueKind.Expr meta.now) }
{
    told(alloc, read_expr(alloc, named_path(meta), meta))
}
