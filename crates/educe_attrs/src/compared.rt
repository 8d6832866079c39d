//! What the attributes say of a field that is compared or hashed, and the builders.
ghost use Rattle.std.specs.Prelude.{◌≡◌, false};
ghost use Rattle.educe_attrs_values.specs.Metas.{IsNamed};
ghost use Rattle.educe_attrs.specs.Building.{Reads};
ghost use Rattle.educe_attrs.specs.Compared as spec;

use crate::builder::{AttributeBuilder, FieldBuilder};
use crate::one_trait::{HASH, PARTIAL_EQ, trait_at};
use educe_attrs_places::FieldSettings;
use educe_attrs_rows::{Equals, Rank, Row};
use educe_bound::Trait;
use educe_syntax::{ExprPath, Meta};
use educe_tokens::{EduceError, Span};
use std::alloc::{AllocError, Global};

/// What the attribute says of a field (documentation of `educe`, PartialEq; Hash).
#[derive(Drop)]
pub struct FieldAttribute {
    pub ignore: bool,
    pub method: Option<ExprPath>,
}

/// The forms of an attribute of a field that is compared or hashed: `ignore`, also behind `=`,
/// `method`, `rank` and `reverse` (documentation of `educe`, PartialEq; Ord).
pub fn compared_row(
    enable_ignore: bool,
    enable_method: bool,
    enable_rank: bool,
    enable_reverse: bool,
) -> Row
    ensures { result ≡ spec.compared_row enable_ignore enable_method enable_rank enable_reverse }
{
    Row {
        equals: if enable_ignore {
            Equals::Truth
        } else {
            Equals::Nothing
        },
        ignore: enable_ignore,
        method: enable_method,
        rank: enable_rank,
        reverse: enable_reverse,
        ..Row::EMPTY
    }
}

/// The rank that is given, or else the builder's.
pub(crate) fn number_of(given: Option<Rank>, own: i64) -> i64
    ensures { result ≡ spec.number_of given own }
{
    match given {
        Some(rank) => rank.number,
        None => own,
    }
}

/// The place of the rank that is given.
pub(crate) fn place_of(given: Option<Rank>) -> Option<Span>
    ensures { result ≡ spec.place_of given }
{
    match given {
        Some(rank) => Some(rank.span),
        None => None,
    }
}

/// The forms of the attribute that a field without a rank allows, of the trait at this place in
/// `Trait::VARIANTS`.
#[derive(Clone, Copy)]
pub struct ComparedBuilder<const PLACE: u8> {
    pub enable_ignore: bool,
    pub enable_method: bool,
}

impl<const PLACE: u8> AttributeBuilder for ComparedBuilder<PLACE> {
    ghost use Rattle.std.specs.Prelude.{false};
    ghost use Rattle.educe_attrs.specs.OneTrait.{trait_at};
    ghost use Rattle.educe_attrs.specs.Compared.{compared_row, IsCompared};

    type Attribute = FieldAttribute;

    const TRAIT: Trait = trait_at(PLACE);

    ghost TRAIT = { trait_at PLACE };

    ghost row_of = { λ builder. compared_row builder.enable_ignore builder.enable_method false false };

    ghost IsOf = { λ _. IsCompared };

    fn row(&self) -> Row {
        compared_row(self.enable_ignore, self.enable_method, false, false)
    }

    fn attribute(
        &self,
        _alloc: Global,
        settings: FieldSettings,
    ) -> Result<FieldAttribute, AllocError> {
        let values = settings.values;
        Ok(FieldAttribute {
            ignore: values.ignore.unwrap_or(false),
            method: values.method,
        })
    }
}

impl<const PLACE: u8> FieldBuilder for ComparedBuilder<PLACE> {}

impl ComparedBuilder<PARTIAL_EQ> {
    /// What a `PartialEq` attribute says of a field, as `build_from_meta`.
    pub fn build_from_partial_eq_meta(
        &self,
        alloc: Global,
        meta: &Meta,
    ) -> Result<FieldAttribute, EduceError>
        requires { IsNamed meta.now }
        ensures { Reads (spec.compared_row self.now.enable_ignore self.now.enable_method false false) spec.IsCompared meta.now result }
    {
        self.build_from_meta(alloc, meta)
    }
}

impl ComparedBuilder<HASH> {
    /// What a `Hash` attribute says of a field, as `build_from_meta`.
    pub fn build_from_hash_meta(
        &self,
        alloc: Global,
        meta: &Meta,
    ) -> Result<FieldAttribute, EduceError>
        requires { IsNamed meta.now }
        ensures { Reads (spec.compared_row self.now.enable_ignore self.now.enable_method false false) spec.IsCompared meta.now result }
    {
        self.build_from_meta(alloc, meta)
    }
}

/// The forms of the attribute that a field with a rank allows, of the trait at this place in
/// `Trait::VARIANTS`.
#[derive(Clone, Copy)]
pub struct RankedBuilder<const PLACE: u8> {
    pub enable_ignore: bool,
    pub enable_method: bool,
    pub enable_rank: bool,
    pub enable_reverse: bool,
    /// The rank where none is given.
    pub rank: i64,
}
