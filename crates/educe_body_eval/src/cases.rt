//! What is built of fields: a struct, or a variant of an enum (Rust Reference, Struct expressions).
ghost use Rattle.std.specs.Prelude.{◌≡◌};
ghost use Rattle.std.specs.Option.{option_map};
ghost use Rattle.educe_body_values.specs.Cases as spec;

use educe_body_forms::is_text;
use educe_tokens::Spelling;
use educe_tree::{DeriveInput, Field, Ident, Shape, Variant};

/// What is built: the place of its variant, and the fields.
#[derive(Drop)]
pub(crate) struct Case<'a> {
    pub variant: u32,
    pub fields: &'a [Field],
}

/// The variant at a place, with its fields, where a value can hold the place.
fn case_at(place: usize, fields: &[Field]) -> Option<Case<'_>>
    ensures { option_map (λ case. (case.variant, case.fields.now)) result ≡ spec.case_at place fields.now }
{
    if place > u32::MAX as usize {
        return None;
    }
    Some(Case {
        variant: place as u32,
        fields,
    })
}

/// The first variant of a name.
fn variant_named<'a>(variants: &'a [Variant], name: &Spelling) -> Option<Case<'a>>
    ensures { option_map (λ case. (case.variant, case.fields.now)) result ≡ spec.variant_named 0 variants.now name.now }
{
    for (place, variant) in variants.iter().enumerate() {
        if is_text(&variant.ident.text, name.as_str()) {
            return case_at(place, variant.fields.fields.as_slice());
        }
    }
    None
}

/// What is built of a definition: `Self`, or with a name a variant.
pub(crate) fn case_named<'a>(ast: &'a DeriveInput, name: &Option<Ident>) -> Option<Case<'a>>
    ensures { option_map (λ case. (case.variant, case.fields.now)) result ≡ spec.case_named ast.now name.now }
{
    match (&ast.shape, name) {
        (Shape::Struct(shape), None) => Some(Case {
            variant: 0,
            fields: shape.fields.as_slice(),
        }),
        (Shape::Enum(variants), Some(name)) => variant_named(variants.as_slice(), &name.text),
        _ => None,
    }
}
