//! Builders, which read attributes by the row of their switches.
ghost use Rattle.std.specs.Prelude.{◌≡◌, IfOk, IfErr};
ghost use Rattle.educe_bound_traits.specs.declared.traits.Trait.{Trait};
ghost use Rattle.educe_attrs_rows.specs.declared.row.Row.{Row};
ghost use Rattle.educe_attrs_values.specs.Metas.{IsNamed};
ghost use Rattle.educe_attrs_places.specs.declared.place.FieldSettings.{FieldSettings};
ghost use Rattle.educe_attrs_places.specs.Causes.{NoCause};
ghost use Rattle.educe_attrs_places.specs.Places as places;
ghost use Rattle.educe_attrs.specs.Building.{Reads, OfError};

use educe_attrs_places::{FieldSettings, field_settings, place_settings};
use educe_attrs_rows::{Row, read_meta};
use educe_attrs_values::error_of;
use educe_bound::Trait;
use educe_syntax::{Attributes, Meta};
use educe_tokens::EduceError;
use std::alloc::{AllocError, Global};

/// A builder of a trait's attributes at one kind of place. Its switches say which forms are allowed
/// there, and its other fields what holds where nothing is set.
pub trait AttributeBuilder {
    /// The attribute that is built.
    type Attribute: Drop;

    /// The trait whose attributes are read.
    const TRAIT: Trait;

    ghost TRAIT: { Trait };

    ghost row_of: { Self → Row };

    // the attribute is of these settings
    ghost IsOf: { Self → FieldSettings → Self.Attribute → Type 0 };

    /// The forms that the place allows.
    fn row(&self) -> Row
        ensures { result ≡ row_of self.now };

    /// The attribute of these settings. Fails only when out of memory.
    fn attribute(
        &self,
        alloc: Global,
        settings: FieldSettings,
    ) -> Result<Self::Attribute, AllocError>
        ensures { IfOk result (IsOf self.now settings) };

    /// The attribute that a meta of the trait sets. It is rejected exactly where it has a cause, or
    /// when out of memory.
    #[tactic(auto, using(crate::proofs::Refused::memory_of_meta))]
    final fn build_from_meta(
        &self,
        alloc: Global,
        meta: &Meta,
    ) -> Result<Self::Attribute, EduceError>
        requires { IsNamed meta.now }
        ensures { Reads (row_of self.now) (IsOf self.now) meta.now result }
    {
        let settings = FieldSettings {
            values: read_meta(alloc, &self.row(), meta)?,
            method_returns_ordering: false,
        };
        match self.attribute(alloc, settings) {
            Ok(attribute) => Ok(attribute),
            Err(_) => Err(EduceError::alloc(alloc)),
        }
    }
}

/// A builder of the attributes of a type or a variant.
pub trait TypeBuilder: AttributeBuilder {
    /// The attribute that the attributes of a type or a variant set for the trait. They are
    /// rejected exactly where they have a cause, or when out of memory.
    #[tactic(auto, using(crate::proofs::Refused::memory_of_place, crate::proofs::Refused::stopped, crate::proofs::Settings::said_as))]
    final fn build_from_attributes(
        &self,
        alloc: Global,
        attributes: &Attributes,
        traits: &[Trait],
    ) -> Result<Self::Attribute, EduceError>
        ensures settings { IfOk result (Self.IsOf self.now (places.own_settings
            (places.place_settings Self.TRAIT (Self.row_of self.now) traits.now attributes.now))) }
        ensures said { IfOk result (λ _. places.IsSaid Self.TRAIT (Self.row_of self.now) attributes.now
            (places.place_settings Self.TRAIT (Self.row_of self.now) traits.now attributes.now)) }
        ensures cause { IfErr result (OfError
            (places.OfPlace Self.TRAIT (Self.row_of self.now) traits.now attributes.now)) }
        ensures uncaused { IfOk result (λ _. NoCause
            (places.OfPlace Self.TRAIT (Self.row_of self.now) traits.now attributes.now)) }
    {
        match place_settings(
            alloc,
            Self::TRAIT,
            &self.row(),
            traits,
            attributes.as_slice(),
        ) {
            Ok(values) => {
                let settings = FieldSettings {
                    values,
                    method_returns_ordering: false,
                };
                match self.attribute(alloc, settings) {
                    Ok(attribute) => Ok(attribute),
                    Err(_) => Err(EduceError::alloc(alloc)),
                }
            }
            Err(stop) => Err(error_of(alloc, stop)),
        }
    }
}

/// A builder of the attributes of a field.
pub trait FieldBuilder: AttributeBuilder {
    /// The attribute that the attributes of a field set for the trait; an order that has none of
    /// its own takes those of the other one, where both are listed. They are rejected exactly where
    /// they have a cause, or when out of memory.
    #[tactic(auto, using(crate::proofs::Refused::memory_of_place, crate::proofs::Refused::stopped, crate::proofs::Settings::field_said_as))]
    final fn build_from_attributes(
        &self,
        alloc: Global,
        attributes: &Attributes,
        traits: &[Trait],
    ) -> Result<Self::Attribute, EduceError>
        ensures settings { IfOk result (Self.IsOf self.now
            (places.field_settings Self.TRAIT (Self.row_of self.now) traits.now attributes.now)) }
        ensures said { IfOk result (λ _. places.IsFieldSaid Self.TRAIT (Self.row_of self.now) traits.now attributes.now
            (places.field_settings Self.TRAIT (Self.row_of self.now) traits.now attributes.now)) }
        ensures cause { IfErr result (OfError
            (places.OfField Self.TRAIT (Self.row_of self.now) traits.now attributes.now)) }
        ensures uncaused { IfOk result (λ _. NoCause
            (places.OfField Self.TRAIT (Self.row_of self.now) traits.now attributes.now)) }
    {
        match field_settings(
            alloc,
            Self::TRAIT,
            &self.row(),
            traits,
            attributes.as_slice(),
        ) {
            Ok(settings) => match self.attribute(alloc, settings) {
                Ok(attribute) => Ok(attribute),
                Err(_) => Err(EduceError::alloc(alloc)),
            },
            Err(stop) => Err(error_of(alloc, stop)),
        }
    }
}
