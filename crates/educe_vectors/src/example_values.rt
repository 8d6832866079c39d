//! Numbers and values that texts are.

use educe_body::{FieldValue, FieldValues, Value};
use educe_tokens::Seq;
use std::alloc::Global;
use std::test::Fail;

/// The number that a text is.
pub fn number(text: &str) -> Result<i128, Fail> {
    Ok(text.parse::<i128>().ok().ok_or(text)?)
}

/// The values of fields of the first type, as in `7, 8`.
pub fn numbers(alloc: Global, text: &str) -> Result<FieldValues, Fail> {
    let mut fields = Seq::new(alloc);
    if text.is_empty() {
        return Ok(fields);
    }
    for part in text.split(", ") {
        fields.push(FieldValue {
            ty: 0,
            number: number(part)?,
        })?;
    }
    Ok(fields)
}

/// The value that a text is, as in `1(7, 8`, without the last bracket: the place of a variant, and the numbers of its
/// fields.
pub fn value(alloc: Global, text: &str) -> Result<Value, Fail> {
    let (variant, fields) = text.split_once('(').ok_or(text)?;
    let variant = variant.parse::<u32>().ok().ok_or(text)?;
    let fields = numbers(alloc, fields)?;
    Ok(Value { variant, fields })
}
