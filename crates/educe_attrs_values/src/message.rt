//! The messages for missing and wrong values.
ghost use Rattle.std.specs.Prelude.{◌≡◌, IfOk};
ghost use Rattle.std.specs.String.{string_bytes};
ghost use Rattle.educe_attrs_values.specs.Kinds as spec;

use crate::kind::ValueKind;
use std::alloc::{AllocError, Global};

/// The message for a missing value of the kind.
pub fn missing_text(alloc: Global, kind: ValueKind, name: &str) -> Result<String, AllocError>
    ensures { IfOk result (λ text. string_bytes text ≡ spec.missing_text kind name.now) }
{
    match kind {
        ValueKind::Name => missing_name(alloc, name),
        ValueKind::Bound => String::from_str(
            alloc,
            "expected `bound = \"where_predicates\"`, `bound(where_predicates)`, `bound(*)`, `bound = false`, or `bound(false)`",
        ),
        _ => missing_one(alloc, name, kind.sample()),
    }
}

/// The message for a missing value: it was expected after `=` or in brackets.
fn missing_one(alloc: Global, name: &str, sample: &str) -> Result<String, AllocError>
    ensures { IfOk result (λ text. string_bytes text ≡ spec.missing_one name.now sample.now) }
{
    format!(in alloc; "expected `{name} = {sample}` or `{name}({sample})`")
}

/// The message for a missing value that is a name or `false`.
fn missing_name(alloc: Global, name: &str) -> Result<String, AllocError>
    ensures { IfOk result (λ text. string_bytes text ≡ spec.missing_name name.now) }
{
    format!(in alloc;
        "expected `{name} = Ident`, `{name}(Ident)`, `{name} = false`, or `{name}(false)`"
    )
}

/// The message for a value that is not of the kind.
pub fn wrong_text(alloc: Global, kind: ValueKind, name: &str) -> Result<String, AllocError>
    ensures { IfOk result (λ text. string_bytes text ≡ spec.wrong_text kind name.now) }
{
    match kind {
        ValueKind::Name => wrong_name(alloc, name),
        ValueKind::Bound => String::from_str(
            alloc,
            "expected `bound = \"where_predicates\"` or `bound = false`",
        ),
        _ => wrong_one(alloc, name, kind.sample()),
    }
}

/// The message for a wrong value: another was expected after `=`.
fn wrong_one(alloc: Global, name: &str, sample: &str) -> Result<String, AllocError>
    ensures { IfOk result (λ text. string_bytes text ≡ spec.wrong_one name.now sample.now) }
{
    format!(in alloc; "expected `{name} = {sample}`")
}

/// The message for a wrong value where a name or `false` was expected.
fn wrong_name(alloc: Global, name: &str) -> Result<String, AllocError>
    ensures { IfOk result (λ text. string_bytes text ≡ spec.wrong_name name.now) }
{
    format!(in alloc; "expected `{name} = Ident` or `{name} = false`")
}
