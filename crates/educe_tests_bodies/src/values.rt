//! Values and tables, by what a test says of them.
ghost use Rattle.std.specs.Prelude.{◌≡◌, ◌↔◌, [], IfOk, IsTrue, Some, map};
ghost use Rattle.educe_tests_bodies.specs.Values.{numbered};

use educe_body::{Answers, FieldValue, Row, Scope, Value};
use educe_syntax::DeriveInput;
use educe_tokens::Seq;
use std::alloc::{AllocError, Global};

/// A value of a struct whose fields have one type.
pub fn value(alloc: Global, numbers: &[i128]) -> Result<Value, AllocError>
    ensures variant { IfOk result (λ made. made.variant ≡ 0) }
    ensures fields { IfOk result (λ made. made.fields ≡ map numbered numbers.now) }
{
    let mut fields = Seq::new(alloc);
    for number in numbers {
        fields.push(FieldValue {
            ty: 0,
            number: *number,
        })?;
    }
    Ok(Value { variant: 0, fields })
}

/// A value of a variant whose fields have one type.
pub fn variant_value(alloc: Global, variant: u32, numbers: &[i128]) -> Result<Value, AllocError>
    ensures variant { IfOk result (λ made. made.variant ≡ variant) }
    ensures fields { IfOk result (λ made. made.fields ≡ map numbered numbers.now) }
{
    let made = value(alloc, numbers)?;
    Ok(Value {
        variant,
        fields: made.fields,
    })
}

/// A definition with the values of `self` and, where there is one, of the other parameter.
pub fn scope<'a>(ast: &'a DeriveInput, this: &'a Value, other: Option<&'a Value>) -> Scope<'a>
    ensures ast { result.ast ≡ ast.entry }
    ensures this { result.this ≡ Some this.entry }
    ensures other { result.other ≡ other.entry }
{
    let this = Some(this);
    Scope { ast, this, other }
}

/// The table of these rows. Without rows, fields compare as their numbers do.
pub fn table(alloc: Global, rows: &[Row]) -> Result<Answers, AllocError>
    ensures rows { IfOk result (λ made. made.rows ≡ rows.now) }
    ensures by_number { IfOk result (λ made. IsTrue made.by_number ↔ (rows.now ≡ [])) }
{
    let mut found = Seq::new(alloc);
    for row in rows {
        found.push(row.duplicate(alloc)?)?;
    }
    Ok(Answers {
        rows: found,
        by_number: rows.is_empty(),
    })
}
