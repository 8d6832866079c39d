//! The settings of `Debug`.
ghost use Rattle.std.specs.Prelude.{◌≡◌, Option, IfOk};
ghost use Rattle.educe_attrs_values.specs.declared.choices.IdentOrBool.{IdentOrBool};
ghost use Rattle.educe_attrs_values.specs.Metas.{IsNamed};
ghost use Rattle.educe_attrs.specs.Building.{Reads};
ghost use Rattle.educe_attrs.specs.Debug as spec;

use crate::bound_only::bound_of;
use crate::builder::{AttributeBuilder, FieldBuilder, TypeBuilder};
use educe_attrs_places::FieldSettings;
use educe_attrs_rows::{Equals, NameKind, Row};
use educe_attrs_values::IdentOrBool;
use educe_bound::{Bound, Trait};
use educe_syntax::{Duplicate, ExprPath, Ident, Meta};
use educe_tokens::EduceError;
use std::alloc::{AllocError, Global};

/// The name that is shown of a type or a variant (documentation of `educe`, Debug).
#[derive(Drop)]
pub enum TypeName {
    /// No name.
    Disable,
    /// The name of the type or the variant.
    Default,
    Custom(Ident),
}

impl TypeName {
    /// Whether no name is shown.
    fn is_disabled(&self) -> bool
        ensures { result ≡ spec.is_disabled self.now }
    {
        matches!(self, TypeName::Disable)
    }

    /// The name that is said; without one an equal one to this.
    fn or_said(&self, alloc: Global, said: Option<IdentOrBool>) -> Result<TypeName, AllocError>
        ensures { IfOk result (λ name. name ≡ spec.type_name_of self.now said) }
    {
        match said {
            Some(IdentOrBool::Ident(name)) => Ok(TypeName::Custom(name)),
            Some(IdentOrBool::Bool(true)) => Ok(TypeName::Default),
            Some(IdentOrBool::Bool(false)) => Ok(TypeName::Disable),
            None => self.duplicate(alloc),
        }
    }
}

impl Duplicate for TypeName {
    fn duplicate(&self, alloc: Global) -> Result<TypeName, AllocError> {
        match self {
            TypeName::Disable => Ok(TypeName::Disable),
            TypeName::Default => Ok(TypeName::Default),
            TypeName::Custom(name) => Ok(TypeName::Custom(name.duplicate(alloc)?)),
        }
    }
}

/// The name that is shown of a field (documentation of `educe`, Debug).
#[derive(Drop)]
pub enum FieldName {
    /// The name or the index of the field.
    Default,
    Custom(Ident),
}

impl FieldName {
    /// The name that is said; without one an equal one to this.
    fn or_said(&self, alloc: Global, said: Option<IdentOrBool>) -> Result<FieldName, AllocError>
        ensures { IfOk result (λ name. name ≡ spec.field_name_of self.now said) }
    {
        match said {
            Some(IdentOrBool::Ident(name)) => Ok(FieldName::Custom(name)),
            Some(IdentOrBool::Bool(_)) => self.duplicate(alloc),
            None => self.duplicate(alloc),
        }
    }
}

impl Duplicate for FieldName {
    fn duplicate(&self, alloc: Global) -> Result<FieldName, AllocError> {
        match self {
            FieldName::Default => Ok(FieldName::Default),
            FieldName::Custom(name) => Ok(FieldName::Custom(name.duplicate(alloc)?)),
        }
    }
}

/// What the attribute says of a type or a variant (documentation of `educe`, Debug).
#[derive(Drop)]
pub struct TypeAttribute {
    pub name: TypeName,
    /// Whether the names of the fields are shown.
    pub named_field: bool,
    pub bound: Bound,
}

/// The forms of the attribute that a type or a variant allows.
#[derive(Drop)]
pub struct TypeAttributeBuilder {
    pub enable_flag: bool,
    pub enable_name: bool,
    pub enable_named_field: bool,
    pub enable_bound: bool,
    /// The name where none is set.
    pub name: TypeName,
    /// Whether the names of the fields are shown, where that is not set.
    pub named_field: bool,
}

impl AttributeBuilder for TypeAttributeBuilder {
    ghost use Rattle.educe_bound_traits.specs.declared.traits.Trait.TheVariants.{Debug};
    ghost use Rattle.educe_attrs.specs.Debug.{type_row, IsTyped};

    type Attribute = TypeAttribute;

    const TRAIT: Trait = Trait::Debug;

    ghost TRAIT = { Debug };

    ghost row_of = { type_row };

    ghost IsOf = { IsTyped };

    fn row(&self) -> Row {
        Row {
            flag: self.enable_flag,
            equals: if self.enable_name {
                Equals::Ident
            } else {
                Equals::Nothing
            },
            name: if self.enable_name {
                Some(NameKind::Name(self.name.is_disabled()))
            } else {
                None
            },
            named_field: if self.enable_named_field {
                Some(!self.named_field)
            } else {
                None
            },
            bound: self.enable_bound,
            ..Row::EMPTY
        }
    }

    fn attribute(
        &self,
        alloc: Global,
        settings: FieldSettings,
    ) -> Result<TypeAttribute, AllocError> {
        let values = settings.values;
        Ok(TypeAttribute {
            name: self.name.or_said(alloc, values.name)?,
            named_field: values.named_field.unwrap_or(self.named_field),
            bound: bound_of(values.bound),
        })
    }
}

impl TypeBuilder for TypeAttributeBuilder {}

impl TypeAttributeBuilder {
    /// What a `Debug` attribute says of a type or a variant, as `build_from_meta`.
    pub fn build_from_debug_meta(
        &self,
        alloc: Global,
        meta: &Meta,
    ) -> Result<TypeAttribute, EduceError>
        requires { IsNamed meta.now }
        ensures { Reads (spec.type_row self.now) (spec.IsTyped self.now) meta.now result }
    {
        self.build_from_meta(alloc, meta)
    }
}

/// What the attribute says of a field (documentation of `educe`, Debug).
#[derive(Drop)]
pub struct FieldAttribute {
    pub name: FieldName,
    pub ignore: bool,
    pub method: Option<ExprPath>,
}

/// The forms of the attribute that a field allows.
#[derive(Drop)]
pub struct FieldAttributeBuilder {
    pub enable_name: bool,
    pub enable_ignore: bool,
    pub enable_method: bool,
    /// The name where none is set.
    pub name: FieldName,
}

/// What may stand behind `=` at a field: a name, where one is shown, and whether the field is kept,
/// where it may be ignored.
fn field_equals(enable_name: bool, enable_ignore: bool) -> Equals
    ensures { result ≡ spec.field_equals enable_name enable_ignore }
{
    match (enable_name, enable_ignore) {
        (true, true) => Equals::Name,
        (true, false) => Equals::Ident,
        (false, true) => Equals::Truth,
        (false, false) => Equals::Nothing,
    }
}

impl AttributeBuilder for FieldAttributeBuilder {
    ghost use Rattle.educe_bound_traits.specs.declared.traits.Trait.TheVariants.{Debug};
    ghost use Rattle.educe_attrs.specs.Debug.{field_row, IsField};

    type Attribute = FieldAttribute;

    const TRAIT: Trait = Trait::Debug;

    ghost TRAIT = { Debug };

    ghost row_of = { field_row };

    ghost IsOf = { IsField };

    fn row(&self) -> Row {
        Row {
            equals: field_equals(self.enable_name, self.enable_ignore),
            name: if self.enable_name {
                Some(NameKind::Ident)
            } else {
                None
            },
            ignore: self.enable_ignore,
            method: self.enable_method,
            ..Row::EMPTY
        }
    }

    fn attribute(
        &self,
        alloc: Global,
        settings: FieldSettings,
    ) -> Result<FieldAttribute, AllocError> {
        let values = settings.values;
        Ok(FieldAttribute {
            name: self.name.or_said(alloc, values.name)?,
            ignore: values.ignore.unwrap_or(false),
            method: values.method,
        })
    }
}

impl FieldBuilder for FieldAttributeBuilder {}

impl FieldAttributeBuilder {
    /// What a `Debug` attribute says of a field, as `build_from_meta`.
    pub fn build_from_debug_meta(
        &self,
        alloc: Global,
        meta: &Meta,
    ) -> Result<FieldAttribute, EduceError>
        requires { IsNamed meta.now }
        ensures { Reads (spec.field_row self.now) (spec.IsField self.now) meta.now result }
    {
        self.build_from_meta(alloc, meta)
    }
}
