//! The settings of `Default`.
ghost use Rattle.std.specs.Prelude.{◌≡◌, IfOk, IfErr};
ghost use Rattle.std.specs.Option.{option_copied};
ghost use Rattle.educe_bound_traits.specs.declared.traits.Trait.TheVariants as derived;
ghost use Rattle.educe_tokens.specs.Refusals.{placeless};
ghost use Rattle.educe_tokens.specs.declared.error.Kind.TheVariants.{Alloc};
ghost use Rattle.educe_attrs_values.specs.Metas.{IsNamed};
ghost use Rattle.educe_attrs_places.specs.Causes.{NoCause};
ghost use Rattle.educe_attrs_places.specs.Places as places;
ghost use Rattle.educe_attrs.specs.Building.{Reads, OfError};
ghost use Rattle.educe_attrs.specs.Default as spec;

use crate::bound_only::bound_of;
use crate::builder::{AttributeBuilder, TypeBuilder};
use educe_attrs_generated::auto_adjust_expr;
use educe_attrs_places::{FieldSettings, field_settings};
use educe_attrs_rows::{Equals, Row, Values, read_meta};
use educe_attrs_values::error_of;
use educe_bound::{Bound, Trait};
use educe_syntax::{Attributes, Expr, Meta, Ty};
use educe_tokens::{EduceError, Span};
use std::alloc::{AllocError, Global};

/// What the attribute says of a type or a variant (documentation of `educe`, Default).
#[derive(Drop)]
pub struct TypeAttribute {
    /// The attribute is the trait alone, or an empty list.
    pub flag: bool,
    /// Whether there is a function `new`.
    pub new: bool,
    /// The default value, as it is written.
    pub expression: Option<Expr>,
    pub bound: Bound,
    /// The place of the whole attribute; `Span::NONE` where none stands.
    pub span: Span,
}

/// The forms of the attribute that a type or a variant allows.
#[derive(Clone, Copy)]
pub struct TypeAttributeBuilder {
    pub enable_flag: bool,
    pub enable_new: bool,
    pub enable_expression: bool,
    pub enable_bound: bool,
}

/// The default value as it is written for a field of the type; a type's own has no type to fit.
fn adjusted(
    alloc: Global,
    expression: Option<Expr>,
    ty: Option<&Ty>,
) -> Result<Option<Expr>, AllocError>
    ensures { IfOk result (spec.IsAdjusted expression (option_copied ty.entry)) }
{
    match expression {
        Some(expression) => Ok(Some(auto_adjust_expr(alloc, expression, ty)?)),
        None => Ok(None),
    }
}

impl AttributeBuilder for TypeAttributeBuilder {
    ghost use Rattle.educe_bound_traits.specs.declared.traits.Trait.TheVariants.{Default};
    ghost use Rattle.educe_attrs.specs.Default.{type_row, IsTyped};

    type Attribute = TypeAttribute;

    const TRAIT: Trait = Trait::Default;

    ghost TRAIT = { Default };

    ghost row_of = { type_row };

    ghost IsOf = { λ _. IsTyped };

    fn row(&self) -> Row {
        Row {
            flag: self.enable_flag,
            new: self.enable_new,
            expression: self.enable_expression,
            bound: self.enable_bound,
            ..Row::EMPTY
        }
    }

    fn attribute(
        &self,
        alloc: Global,
        settings: FieldSettings,
    ) -> Result<TypeAttribute, AllocError> {
        let values = settings.values;
        let expression = adjusted(alloc, values.expression, None)?;
        Ok(TypeAttribute {
            flag: values.flag,
            new: values.new.unwrap_or(false),
            expression,
            bound: bound_of(values.bound),
            span: values.span,
        })
    }
}

impl TypeBuilder for TypeAttributeBuilder {}

impl TypeAttributeBuilder {
    /// What a `Default` attribute says of a type or a variant, as `build_from_meta`.
    pub fn build_from_default_meta(
        &self,
        alloc: Global,
        meta: &Meta,
    ) -> Result<TypeAttribute, EduceError>
        requires { IsNamed meta.now }
        ensures { Reads (spec.type_row self.now) spec.IsTyped meta.now result }
    {
        self.build_from_meta(alloc, meta)
    }
}

/// What the attribute says of a field (documentation of `educe`, Default).
#[derive(Drop)]
pub struct FieldAttribute {
    /// The attribute is the trait alone, or an empty list.
    pub flag: bool,
    /// The default value, as it is written for the field's type.
    pub expression: Option<Expr>,
    /// The place of the whole attribute; `Span::NONE` where none stands.
    pub span: Span,
}

/// The forms of the attribute that a field allows.
#[derive(Clone, Copy)]
pub struct FieldAttributeBuilder {
    pub enable_flag: bool,
    pub enable_expression: bool,
}

/// The attribute of a field of the type.
fn field_attribute(alloc: Global, values: Values, ty: &Ty) -> Result<FieldAttribute, EduceError>
    ensures ok { IfOk result (spec.IsField ty.now values) }
    ensures err { IfErr result (λ e. e ≡ placeless Alloc) }
{
    match adjusted(alloc, values.expression, Some(ty)) {
        Ok(expression) => Ok(FieldAttribute {
            flag: values.flag,
            expression,
            span: values.span,
        }),
        Err(_) => Err(EduceError::alloc(alloc)),
    }
}

impl FieldAttributeBuilder {
    /// The forms that the field allows.
    pub fn row(&self) -> Row
        ensures { result ≡ spec.field_row self.now }
    {
        Row {
            flag: self.enable_flag,
            equals: if self.enable_expression {
                Equals::Expr
            } else {
                Equals::Nothing
            },
            expression: self.enable_expression,
            ..Row::EMPTY
        }
    }

    /// What a `Default` attribute says of a field of the type. It is rejected exactly where it has a
    /// cause, or memory fails.
    #[tactic(auto, using(crate::proofs::Refused::memory_of_meta))]
    pub fn build_from_default_meta(
        &self,
        alloc: Global,
        meta: &Meta,
        ty: &Ty,
    ) -> Result<FieldAttribute, EduceError>
        requires { IsNamed meta.now }
        ensures { Reads (spec.field_row self.now) (λ settings. spec.IsField ty.now settings.values) meta.now result }
    {
        field_attribute(alloc, read_meta(alloc, &self.row(), meta)?, ty)
    }

    /// What the attributes of a field of the type say of `Default`. They are rejected exactly where
    /// they have a cause, or memory fails.
    #[tactic(auto, using(crate::proofs::Refused::memory_of_place, crate::proofs::Refused::stopped, crate::proofs::Settings::field_said_as))]
    pub fn build_from_attributes(
        &self,
        alloc: Global,
        attributes: &Attributes,
        traits: &[Trait],
        ty: &Ty,
    ) -> Result<FieldAttribute, EduceError>
        ensures settings { IfOk result (spec.IsField ty.now
            (places.field_settings derived.Default (spec.field_row self.now) traits.now attributes.now).values) }
        ensures said { IfOk result (λ _. places.IsFieldSaid derived.Default (spec.field_row self.now) traits.now attributes.now
            (places.field_settings derived.Default (spec.field_row self.now) traits.now attributes.now)) }
        ensures cause { IfErr result (OfError
            (places.OfField derived.Default (spec.field_row self.now) traits.now attributes.now)) }
        ensures uncaused { IfOk result (λ _. NoCause
            (places.OfField derived.Default (spec.field_row self.now) traits.now attributes.now)) }
    {
        match field_settings(
            alloc,
            Trait::Default,
            &self.row(),
            traits,
            attributes.as_slice(),
        ) {
            Ok(settings) => field_attribute(alloc, settings.values, ty),
            Err(stop) => Err(error_of(alloc, stop)),
        }
    }
}
