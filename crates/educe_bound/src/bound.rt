//! The bounds that the parameter `bound` of a trait sets (documentation of `educe`, Bounds).
ghost use Rattle.std.specs.Prelude.{◌≡◌, IfOk, IfErr, Some};
ghost use Rattle.educe_attrs_values.specs.Causes.{HasNoReaderCause, IsReaderCause};
ghost use Rattle.educe_attrs_values.specs.Metas.{IsNamed};
ghost use Rattle.educe_attrs_values.specs.Words as words;
ghost use Rattle.educe_bound.specs.Bounds as spec;

use educe_attrs_values::{ValueKind, WherePredicatesOrBool, error_of, path_of, read_bound};
use educe_syntax::{Meta, MetaPath, Predicates};
use educe_tokens::EduceError;
use std::alloc::Global;

/// Which predicates an impl has besides those of the type (documentation of `educe`, Bounds).
#[derive(Drop)]
pub enum Bound {
    /// No predicates besides those of the type.
    Disabled,
    /// The predicates that the types of the fields need.
    Auto,
    /// One predicate for each type parameter.
    All,
    /// The listed predicates.
    Custom(Predicates),
}

/// The path of a meta that has a name.
fn named_path(meta: &Meta) -> &MetaPath
    requires { IsNamed meta.now }
    ensures { words.path_of meta.now ≡ Some result.now }
{
    match path_of(meta) {
        Some(path) => path,
        None => unreachable!(),
    }
}

impl Bound {
    /// The bound that a value of `bound` stands for: `true` is `Auto`, `false` is `Disabled`.
    pub fn from_value(value: WherePredicatesOrBool) -> Bound
        ensures { result ≡ spec.bound_of value }
    {
        match value {
            WherePredicatesOrBool::WherePredicates(predicates) => Bound::Custom(predicates),
            WherePredicatesOrBool::Bool(true) => Bound::Auto,
            WherePredicatesOrBool::Bool(false) => Bound::Disabled,
            WherePredicatesOrBool::All => Bound::All,
        }
    }

    /// The bound that the meta sets, or its rejection. Messages call the parameter `bound`,
    /// whatever the path of the meta.
    pub fn from_meta(alloc: Global, meta: &Meta) -> Result<Bound, EduceError>
        requires { IsNamed meta.now }
        ensures said { IfOk result (λ bound. spec.SaysBound meta.now bound) }
        ensures cause { IfErr result (λ e. IsReaderCause ValueKind.Bound meta.now e) }
        ensures uncaused { IfOk result (λ _. HasNoReaderCause ValueKind.Bound meta.now) }
    {
        match read_bound(alloc, named_path(meta), meta) {
            Ok(value) => Ok(Bound::from_value(value)),
            Err(stop) => Err(error_of(alloc, stop)),
        }
    }
}
