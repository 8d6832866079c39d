//! The settings of `Ord`.
ghost use Rattle.educe_attrs_values.specs.Metas.{IsNamed};
ghost use Rattle.educe_attrs.specs.Building.{Reads};
ghost use Rattle.educe_attrs.specs.Compared.{compared_row};
ghost use Rattle.educe_attrs.specs.Ordered as fields;

use crate::bound_only::BoundBuilder;
pub use crate::bound_only::TypeAttribute;
use crate::builder::{AttributeBuilder, FieldBuilder};
use crate::compared::{RankedBuilder, compared_row, number_of, place_of};
use crate::one_trait::ORD;
use educe_attrs_places::FieldSettings;
use educe_attrs_rows::Row;
use educe_bound::Trait;
use educe_syntax::{ExprPath, Meta};
use educe_tokens::{EduceError, Span};
use std::alloc::{AllocError, Global};

/// The forms of the attribute that a type allows.
pub type TypeAttributeBuilder = BoundBuilder<ORD>;

/// What the attribute says of a field (documentation of `educe`, Ord).
#[derive(Drop)]
pub struct FieldAttribute {
    pub ignore: bool,
    pub method: Option<ExprPath>,
    pub rank: i64,
    /// The place of the whole parameter `rank`, where it stands there.
    pub rank_span: Option<Span>,
    pub reverse: bool,
}

/// The forms of the attribute that a field allows.
pub type FieldAttributeBuilder = RankedBuilder<ORD>;

impl AttributeBuilder for FieldAttributeBuilder {
    ghost use Rattle.educe_bound_traits.specs.declared.traits.Trait.TheVariants.{Ord};
    ghost use Rattle.educe_attrs.specs.Compared.{compared_row};
    ghost use Rattle.educe_attrs.specs.Ordered.{IsOrdered};

    type Attribute = FieldAttribute;

    const TRAIT: Trait = Trait::Ord;

    ghost TRAIT = { Ord };

    ghost row_of = { λ builder.
        compared_row builder.enable_ignore builder.enable_method builder.enable_rank builder.enable_reverse };

    ghost IsOf = { λ builder. IsOrdered builder.rank };

    fn row(&self) -> Row {
        compared_row(
            self.enable_ignore,
            self.enable_method,
            self.enable_rank,
            self.enable_reverse,
        )
    }

    fn attribute(
        &self,
        _alloc: Global,
        settings: FieldSettings,
    ) -> Result<FieldAttribute, AllocError> {
        let values = settings.values;
        Ok(FieldAttribute {
            ignore: values.ignore.unwrap_or(false),
            method: values.method,
            rank: number_of(values.rank, self.rank),
            rank_span: place_of(values.rank),
            reverse: values.reverse.unwrap_or(false),
        })
    }
}

impl FieldBuilder for FieldAttributeBuilder {}

impl FieldAttributeBuilder {
    /// What an `Ord` attribute says of a field, as `build_from_meta`.
    pub fn build_from_ord_meta(
        &self,
        alloc: Global,
        meta: &Meta,
    ) -> Result<FieldAttribute, EduceError>
        requires { IsNamed meta.now }
        ensures { Reads (compared_row self.now.enable_ignore self.now.enable_method self.now.enable_rank self.now.enable_reverse)
            (fields.IsOrdered self.now.rank) meta.now result }
    {
        self.build_from_meta(alloc, meta)
    }
}
