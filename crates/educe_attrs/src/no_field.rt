//! The fields of which nothing may be said, and the builder that rejects their attributes.
ghost use Rattle.std.specs.Prelude.{MatchResult};
ghost use Rattle.educe_attrs_values.specs.Metas.{IsNamed};
ghost use Rattle.educe_attrs.specs.Building.{Reads};
ghost use Rattle.educe_attrs.specs.NoField as fields;

use crate::builder::{AttributeBuilder, FieldBuilder};
use crate::one_trait::{COPY, EQ, trait_at};
use educe_attrs_places::FieldSettings;
use educe_attrs_rows::{Row, read_meta};
use educe_bound::Trait;
use educe_syntax::Meta;
use educe_tokens::EduceError;
use std::alloc::{AllocError, Global};

/// What the attribute says of a field: nothing (documentation of `educe`, Copy; Eq).
#[derive(Clone, Copy)]
pub struct FieldAttribute;

/// The rejection of a meta of such a field.
#[tactic(auto, using(crate::proofs::NoField::out_of_place, crate::proofs::NoField::never_read))]
pub(crate) fn refused(alloc: Global, meta: &Meta) -> Result<FieldAttribute, EduceError>
    requires { IsNamed meta.now }
    ensures reads { Reads fields.no_row fields.IsOfNothing meta.now result }
    ensures refused { MatchResult result (λ _. ⊥) (fields.IsOutOfPlace meta.now) }
{
    // With `?` the clause would be of the converted error, and not of the one that is handed on.
    match read_meta(alloc, &Row::EMPTY, meta) {
        Ok(_) => Ok(FieldAttribute),
        Err(error) => Err(error),
    }
}

/// The forms of the attribute that a field allows, of the trait at this place in `Trait::VARIANTS`:
/// none.
#[derive(Clone, Copy)]
pub struct NoFieldBuilder<const PLACE: u8>;

impl<const PLACE: u8> AttributeBuilder for NoFieldBuilder<PLACE> {
    ghost use Rattle.educe_attrs.specs.OneTrait.{trait_at};
    ghost use Rattle.educe_attrs.specs.NoField.{no_row, IsOfNothing};

    type Attribute = FieldAttribute;

    const TRAIT: Trait = trait_at(PLACE);

    ghost TRAIT = { trait_at PLACE };

    ghost row_of = { λ _. no_row };

    ghost IsOf = { λ _. IsOfNothing };

    fn row(&self) -> Row {
        Row::EMPTY
    }

    fn attribute(
        &self,
        _alloc: Global,
        _settings: FieldSettings,
    ) -> Result<FieldAttribute, AllocError> {
        Ok(FieldAttribute)
    }
}

impl<const PLACE: u8> FieldBuilder for NoFieldBuilder<PLACE> {}

impl NoFieldBuilder<COPY> {
    /// Rejects a `Copy` attribute of a field, whatever it says.
    pub fn build_from_copy_meta(
        &self,
        alloc: Global,
        meta: &Meta,
    ) -> Result<FieldAttribute, EduceError>
        requires { IsNamed meta.now }
        ensures reads { Reads fields.no_row fields.IsOfNothing meta.now result }
        ensures refused { MatchResult result (λ _. ⊥) (fields.IsOutOfPlace meta.now) }
    {
        refused(alloc, meta)
    }
}

impl NoFieldBuilder<EQ> {
    /// Rejects an `Eq` attribute of a field, whatever it says.
    pub fn build_from_eq_meta(
        &self,
        alloc: Global,
        meta: &Meta,
    ) -> Result<FieldAttribute, EduceError>
        requires { IsNamed meta.now }
        ensures reads { Reads fields.no_row fields.IsOfNothing meta.now result }
        ensures refused { MatchResult result (λ _. ⊥) (fields.IsOutOfPlace meta.now) }
    {
        refused(alloc, meta)
    }
}
