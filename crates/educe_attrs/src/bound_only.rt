//! What the attributes say of a type of which only `bound` may be said, and their builder.
ghost use Rattle.std.specs.Prelude.{◌≡◌};
ghost use Rattle.educe_attrs_values.specs.Metas.{IsNamed};
ghost use Rattle.educe_attrs.specs.Bounds as spec;
ghost use Rattle.educe_attrs.specs.Bounds.{bound_row, IsBound};
ghost use Rattle.educe_attrs.specs.Building.{Reads};

use crate::builder::{AttributeBuilder, TypeBuilder};
use crate::one_trait::{CLONE, COPY, EQ, HASH, ORD, PARTIAL_EQ, PARTIAL_ORD, trait_at};
use educe_attrs_places::FieldSettings;
use educe_attrs_rows::Row;
use educe_attrs_values::WherePredicatesOrBool;
use educe_bound::{Bound, Trait};
use educe_syntax::Meta;
use educe_tokens::EduceError;
use std::alloc::{AllocError, Global};

/// What the attribute says of a type or a variant (documentation of `educe`, Generic parameters bound
/// to the trait).
#[derive(Drop)]
pub struct TypeAttribute {
    pub bound: Bound,
}

/// The forms of an attribute of a type: the trait alone, and `bound` (documentation of `educe`, Generic
/// parameters bound to the trait).
pub fn bound_row(enable_flag: bool, enable_bound: bool) -> Row
    ensures { result ≡ spec.bound_row enable_flag enable_bound }
{
    Row {
        flag: enable_flag,
        bound: enable_bound,
        ..Row::EMPTY
    }
}

/// The bound that is said; without one the bounds are those that the trait needs.
pub(crate) fn bound_of(said: Option<WherePredicatesOrBool>) -> Bound
    ensures { result ≡ spec.bound_of said }
{
    match said {
        Some(value) => Bound::from_value(value),
        None => Bound::Auto,
    }
}

/// The forms of the attribute that a type allows, of the trait at this place in `Trait::VARIANTS`.
#[derive(Clone, Copy)]
pub struct BoundBuilder<const PLACE: u8> {
    pub enable_flag: bool,
    pub enable_bound: bool,
}

impl<const PLACE: u8> AttributeBuilder for BoundBuilder<PLACE> {
    ghost use Rattle.educe_attrs.specs.OneTrait.{trait_at};
    ghost use Rattle.educe_attrs.specs.Bounds.{bound_row, IsBound};

    type Attribute = TypeAttribute;

    const TRAIT: Trait = trait_at(PLACE);

    ghost TRAIT = { trait_at PLACE };

    ghost row_of = { λ builder. bound_row builder.enable_flag builder.enable_bound };

    ghost IsOf = { λ _. IsBound };

    fn row(&self) -> Row {
        bound_row(self.enable_flag, self.enable_bound)
    }

    fn attribute(
        &self,
        _alloc: Global,
        settings: FieldSettings,
    ) -> Result<TypeAttribute, AllocError> {
        let values = settings.values;
        Ok(TypeAttribute {
            bound: bound_of(values.bound),
        })
    }
}

impl<const PLACE: u8> TypeBuilder for BoundBuilder<PLACE> {}

impl BoundBuilder<CLONE> {
    /// What a `Clone` attribute says of a type, as `build_from_meta`.
    pub fn build_from_clone_meta(
        &self,
        alloc: Global,
        meta: &Meta,
    ) -> Result<TypeAttribute, EduceError>
        requires { IsNamed meta.now }
        ensures { Reads (bound_row self.now.enable_flag self.now.enable_bound) IsBound meta.now result }
    {
        self.build_from_meta(alloc, meta)
    }
}

impl BoundBuilder<COPY> {
    /// What a `Copy` attribute says of a type, as `build_from_meta`.
    pub fn build_from_copy_meta(
        &self,
        alloc: Global,
        meta: &Meta,
    ) -> Result<TypeAttribute, EduceError>
        requires { IsNamed meta.now }
        ensures { Reads (bound_row self.now.enable_flag self.now.enable_bound) IsBound meta.now result }
    {
        self.build_from_meta(alloc, meta)
    }
}

impl BoundBuilder<PARTIAL_EQ> {
    /// What a `PartialEq` attribute says of a type, as `build_from_meta`.
    pub fn build_from_partial_eq_meta(
        &self,
        alloc: Global,
        meta: &Meta,
    ) -> Result<TypeAttribute, EduceError>
        requires { IsNamed meta.now }
        ensures { Reads (bound_row self.now.enable_flag self.now.enable_bound) IsBound meta.now result }
    {
        self.build_from_meta(alloc, meta)
    }
}

impl BoundBuilder<EQ> {
    /// What an `Eq` attribute says of a type, as `build_from_meta`.
    pub fn build_from_eq_meta(
        &self,
        alloc: Global,
        meta: &Meta,
    ) -> Result<TypeAttribute, EduceError>
        requires { IsNamed meta.now }
        ensures { Reads (bound_row self.now.enable_flag self.now.enable_bound) IsBound meta.now result }
    {
        self.build_from_meta(alloc, meta)
    }
}

impl BoundBuilder<PARTIAL_ORD> {
    /// What a `PartialOrd` attribute says of a type, as `build_from_meta`.
    pub fn build_from_partial_ord_meta(
        &self,
        alloc: Global,
        meta: &Meta,
    ) -> Result<TypeAttribute, EduceError>
        requires { IsNamed meta.now }
        ensures { Reads (bound_row self.now.enable_flag self.now.enable_bound) IsBound meta.now result }
    {
        self.build_from_meta(alloc, meta)
    }
}

impl BoundBuilder<ORD> {
    /// What an `Ord` attribute says of a type, as `build_from_meta`.
    pub fn build_from_ord_meta(
        &self,
        alloc: Global,
        meta: &Meta,
    ) -> Result<TypeAttribute, EduceError>
        requires { IsNamed meta.now }
        ensures { Reads (bound_row self.now.enable_flag self.now.enable_bound) IsBound meta.now result }
    {
        self.build_from_meta(alloc, meta)
    }
}

impl BoundBuilder<HASH> {
    /// What a `Hash` attribute says of a type, as `build_from_meta`.
    pub fn build_from_hash_meta(
        &self,
        alloc: Global,
        meta: &Meta,
    ) -> Result<TypeAttribute, EduceError>
        requires { IsNamed meta.now }
        ensures { Reads (bound_row self.now.enable_flag self.now.enable_bound) IsBound meta.now result }
    {
        self.build_from_meta(alloc, meta)
    }
}
