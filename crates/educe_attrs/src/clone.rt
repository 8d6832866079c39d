//! The settings of `Clone`.
ghost use Rattle.educe_attrs_values.specs.Metas.{IsNamed};
ghost use Rattle.educe_attrs.specs.Building.{Reads};
ghost use Rattle.educe_attrs.specs.Cloned as fields;

use crate::bound_only::BoundBuilder;
pub use crate::bound_only::TypeAttribute;
use crate::builder::{AttributeBuilder, FieldBuilder};
use crate::one_trait::CLONE;
use educe_attrs_places::FieldSettings;
use educe_attrs_rows::Row;
use educe_bound::Trait;
use educe_syntax::{ExprPath, Meta};
use educe_tokens::EduceError;
use std::alloc::{AllocError, Global};

/// The forms of the attribute that a type allows.
pub type TypeAttributeBuilder = BoundBuilder<CLONE>;

/// What the attribute says of a field (documentation of `educe`, Clone).
#[derive(Drop)]
pub struct FieldAttribute {
    pub method: Option<ExprPath>,
}

/// The forms of the attribute that a field allows.
#[derive(Clone, Copy)]
pub struct FieldAttributeBuilder {
    pub enable_method: bool,
}

impl AttributeBuilder for FieldAttributeBuilder {
    ghost use Rattle.educe_bound_traits.specs.declared.traits.Trait.TheVariants.{Clone};
    ghost use Rattle.educe_attrs.specs.Cloned.{clone_row, IsCloned};

    type Attribute = FieldAttribute;

    const TRAIT: Trait = Trait::Clone;

    ghost TRAIT = { Clone };

    ghost row_of = { λ builder. clone_row builder.enable_method };

    ghost IsOf = { λ _. IsCloned };

    fn row(&self) -> Row {
        Row {
            method: self.enable_method,
            ..Row::EMPTY
        }
    }

    fn attribute(
        &self,
        _alloc: Global,
        settings: FieldSettings,
    ) -> Result<FieldAttribute, AllocError> {
        let values = settings.values;
        Ok(FieldAttribute {
            method: values.method,
        })
    }
}

impl FieldBuilder for FieldAttributeBuilder {}

impl FieldAttributeBuilder {
    /// What a `Clone` attribute says of a field, as `build_from_meta`.
    pub fn build_from_clone_meta(
        &self,
        alloc: Global,
        meta: &Meta,
    ) -> Result<FieldAttribute, EduceError>
        requires { IsNamed meta.now }
        ensures { Reads (fields.clone_row self.now.enable_method) fields.IsCloned meta.now result }
    {
        self.build_from_meta(alloc, meta)
    }
}
