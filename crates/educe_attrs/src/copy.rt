//! The settings of `Copy`.

use crate::bound_only::BoundBuilder;
pub use crate::bound_only::TypeAttribute;
pub use crate::no_field::FieldAttribute;
use crate::no_field::NoFieldBuilder;
use crate::one_trait::COPY;

/// The forms of the attribute that a type allows.
pub type TypeAttributeBuilder = BoundBuilder<COPY>;

/// The forms of the attribute that a field allows.
pub type FieldAttributeBuilder = NoFieldBuilder<COPY>;

/// The only such builder.
pub const FieldAttributeBuilder: FieldAttributeBuilder = NoFieldBuilder {};
