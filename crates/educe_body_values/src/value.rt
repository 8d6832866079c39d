//! Values of a definition, by which bodies are tried.
ghost use Rattle.std.specs.Prelude.{◌≡◌, ◌++◌, IfOk};

use educe_tokens::Seq;
use std::alloc::{AllocError, Global};

/// The value of a field. The type is the place, counted over all fields of the definition, of the first field
/// whose type has the same tokens; the number distinguishes the values of one type.
#[derive(Clone, Copy, Debug, PartialEq, Eq)]
pub struct FieldValue {
    pub ty: u32,
    pub number: i128,
}

/// The values of fields in written order.
pub type FieldValues = Seq<FieldValue>;

/// A value of the defined type. The variant of a struct is 0.
#[derive(Drop)]
pub struct Value {
    pub variant: u32,
    pub fields: FieldValues,
}

impl Value {
    /// A copy of the value.
    pub fn duplicate(&self, alloc: Global) -> Result<Value, AllocError>
        ensures { IfOk result (λ value. value ≡ self.now) }
    {
        let fields = with_values(Seq::new(alloc), self.fields.as_slice())?;
        let variant = self.variant;
        Ok(Value { variant, fields })
    }
}

/// Values, and further ones behind them.
pub fn with_values(values: FieldValues, more: &[FieldValue]) -> Result<FieldValues, AllocError>
    ensures { IfOk result (λ all. all ≡ values ++ more.now) }
{
    let mut all = values;
    for x in more {
        all.push(*x)?;
    }
    Ok(all)
}

/// What a hasher is fed, in order.
pub type Parts = Seq<i128>;
