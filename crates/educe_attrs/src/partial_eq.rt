//! The settings of `PartialEq`.

use crate::bound_only::BoundBuilder;
pub use crate::bound_only::TypeAttribute;
use crate::compared::ComparedBuilder;
pub use crate::compared::FieldAttribute;
use crate::one_trait::PARTIAL_EQ;

/// The forms of the attribute that a type allows.
pub type TypeAttributeBuilder = BoundBuilder<PARTIAL_EQ>;

/// The forms of the attribute that a field allows.
pub type FieldAttributeBuilder = ComparedBuilder<PARTIAL_EQ>;
