//! Duplicate names: in a definition names must be distinct, a leading `r#` aside (Rust Reference,
//! Names).
ghost use Rattle.std.specs.Prelude.{◌≡◌, ◌⊎◌, ◌<◌, ◌≤◌, [], ◌∷◌, ◌++◌, MatchBool, IfOk, IfSome, IfNone, List, Option, map, chars, encode_utf8_all};
ghost use Rattle.std.specs.List.{filter_map};
ghost use Rattle.educe_tokens.specs.declared.error.Kind.TheVariants.{Alloc};
ghost use Rattle.educe_tokens.specs.Refusals.{placeless};
ghost use Rattle.educe_tree.specs.Names.{unraw as unraw_of};
ghost use Rattle.educe_grammar.specs.Naming as spec;
ghost use Rattle.educe_grammar.specs.Naming.{Named, AreApart, IsRepeated, IsEarliest, scopes};

use educe_tokens::{EduceError, Kind, Span, Spelling};
use educe_tree::{DeriveInput, Field, GenericParam, Ident, Shape, Variant, unraw};
use std::alloc::{AllocError, Global};
use std::collections::BTreeSet;
use std::marker::Model;

/// A name as it was written, and its place. The text is lent.
#[derive(Drop)]
pub struct Name<'a> {
    text: &'a Spelling,
    span: Span,
}

impl<'a> Model for Name<'a> {
    ghost use Rattle.educe_grammar.specs.Naming.{Named};

    ghost Value = { Named };

    ghost view = { λ name. record { text = name.text.now; span = name.span } };
}

impl<'a> Name<'a> {
    /// The name of an identifier.
    fn of_ident(ident: &'a Ident) -> Name<'a>
        ensures { result ≡ spec.ident_named ident.now }
    {
        Name {
            text: &ident.text,
            span: ident.span,
        }
    }

    /// A second reference to this name.
    fn same(&self) -> Name<'a>
        ensures { result ≡ self.now }
    {
        Name {
            text: self.text,
            span: self.span,
        }
    }

    /// The name without a leading `r#`, by which names are compared (Rust Reference, Raw
    /// identifiers).
    fn unraw(&self) -> &'a str
        ensures chars { chars result.now ≡ unraw_of self.now.text }
        ensures bytes { result.now ≡ encode_utf8_all (unraw_of self.now.text) }
    {
        unraw(self.text)
    }

    /// The error for this name as a duplicate.
    pub fn duplicate_error(&self, alloc: Global) -> EduceError
        ensures { (result ≡ placeless Alloc) ⊎ (result ≡ spec.duplicate_of self.now) }
    {
        EduceError::citing(alloc, Kind::DuplicateName, self.span, self.text)
    }

    /// Whether this name is written before the other.
    fn is_before(&self, other: &Name<'_>) -> bool
        ensures { MatchBool result (self.now.span.start < other.now.span.start) (other.now.span.start ≤ self.now.span.start) }
    {
        self.span.start < other.span.start
    }
}

/// The name of a lifetime parameter.
fn lifetime_name(param: &GenericParam) -> Option<Name<'_>>
    ensures { result ≡ spec.lifetime_named param.now }
{
    match param {
        GenericParam::Lifetime(param) => Some(Name {
            text: &param.lifetime.text,
            span: param.lifetime.span,
        }),
        _ => None,
    }
}

/// The name of a type parameter or of a const parameter.
fn type_name(param: &GenericParam) -> Option<Name<'_>>
    ensures { result ≡ spec.type_named param.now }
{
    match param {
        GenericParam::Lifetime(_) => None,
        GenericParam::TypeParam(param) => Some(Name::of_ident(&param.ident)),
        GenericParam::Const(param) => Some(Name::of_ident(&param.ident)),
    }
}

/// The name of a field, if it has one.
fn field_name(field: &Field) -> Option<Name<'_>>
    ensures { result ≡ spec.field_named field.now }
{
    field.ident.as_ref().map(|ident| Name::of_ident(ident))
}

/// The names of lifetime parameters.
fn lifetime_names(alloc: Global, params: &[GenericParam]) -> Result<Vec<Name<'_>>, AllocError>
    ensures { IfOk result (λ names. names.items ≡ filter_map spec.lifetime_named params.now) }
{
    params
        .iter()
        .filter_map(|param| lifetime_name(param))
        .collect(alloc)
}

/// The names of type parameters and of const parameters.
fn type_names(alloc: Global, params: &[GenericParam]) -> Result<Vec<Name<'_>>, AllocError>
    ensures { IfOk result (λ names. names.items ≡ filter_map spec.type_named params.now) }
{
    params
        .iter()
        .filter_map(|param| type_name(param))
        .collect(alloc)
}

/// The names of fields.
fn field_names(alloc: Global, fields: &[Field]) -> Result<Vec<Name<'_>>, AllocError>
    ensures { IfOk result (λ names. names.items ≡ spec.field_names fields.now) }
{
    fields
        .iter()
        .filter_map(|field| field_name(field))
        .collect(alloc)
}

/// The names of variants.
fn variant_names(alloc: Global, variants: &[Variant]) -> Result<Vec<Name<'_>>, AllocError>
    ensures { IfOk result (λ names. names.items ≡ spec.variant_names variants.now) }
{
    variants
        .iter()
        .map(|variant| Name::of_ident(&variant.ident))
        .collect(alloc)
}

/// The first name that an earlier one of the list equals; none where the names are distinct.
fn first_repeat<'a>(alloc: Global, names: &[Name<'a>]) -> Result<Option<Name<'a>>, AllocError>
    ensures some { IfOk result (λ found. IfSome found (λ name. IsRepeated name names.now)) }
    ensures none { IfOk result (λ found. IfNone found (AreApart names.now)) }
{
    let mut seen = BTreeSet::new(alloc);
    for name in names {
        if !seen.insert(name.unraw())? {
            return Ok(Some(name.same()));
        }
    }
    Ok(None)
}

/// The earliest of the repeated names, given that of the other lists, after one more list.
fn earliest<'a>(
    alloc: Global,
    known: Option<Name<'a>>,
    names: Vec<Name<'a>>,
) -> Result<Option<Name<'a>>, AllocError>
    ensures { (lists : List (List Named)) → IsEarliest known.entry lists →
        IfOk result (λ found. IsEarliest found (lists ++ names.entry.items ∷ [])) }
{
    let Some(found) = first_repeat(alloc, names.as_slice())? else {
        return Ok(known);
    };
    let Some(known) = known else {
        return Ok(Some(found));
    };
    let first = if found.is_before(&known) {
        found
    } else {
        known
    };
    Ok(Some(first))
}

/// The earliest of the repeated names of some lists and of the fields of each variant.
fn earliest_of_fields<'a>(
    alloc: Global,
    known: Option<Name<'a>>,
    variants: &'a [Variant],
) -> Result<Option<Name<'a>>, AllocError>
    ensures { (lists : List (List Named)) → IsEarliest known.entry lists
        → IfOk result (λ found. IsEarliest found (lists ++ map (λ v. spec.field_names v.fields.fields) variants.now)) }
{
    let mut found = known;
    for variant in variants {
        let names = field_names(alloc, variant.fields.fields.as_slice())?;
        found = earliest(alloc, found, names)?;
    }
    Ok(found)
}

/// The first duplicate name of a definition, in the order of the source: a name that an earlier one
/// of its scope equals.
pub fn first_duplicate(alloc: Global, ast: &DeriveInput) -> Result<Option<Name<'_>>, AllocError>
    ensures { IfOk result (λ found. IsEarliest found (scopes ast.now)) }
{
    let params = ast.generics.params.as_slice();
    let names = lifetime_names(alloc, params)?;
    let found = earliest(alloc, None, names)?;
    let names = type_names(alloc, params)?;
    let found = earliest(alloc, found, names)?;
    match &ast.shape {
        Shape::Struct(shape) => {
            let names = field_names(alloc, shape.fields.as_slice())?;
            earliest(alloc, found, names)
        }
        Shape::Enum(variants) => {
            let names = variant_names(alloc, variants.as_slice())?;
            let found = earliest(alloc, found, names)?;
            earliest_of_fields(alloc, found, variants.as_slice())
        }
    }
}
