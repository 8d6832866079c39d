//! The settings of `Eq`.

use crate::bound_only::BoundBuilder;
pub use crate::bound_only::TypeAttribute;
pub use crate::no_field::FieldAttribute;
use crate::no_field::NoFieldBuilder;
use crate::one_trait::EQ;

/// The forms of the attribute that a type allows.
pub type TypeAttributeBuilder = BoundBuilder<EQ>;

/// The forms of the attribute that a field allows.
pub type FieldAttributeBuilder = NoFieldBuilder<EQ>;

/// The only such builder.
pub const FieldAttributeBuilder: FieldAttributeBuilder = NoFieldBuilder {};
