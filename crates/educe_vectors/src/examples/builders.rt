//! A worked example of what a builder answers when it is called by itself: `Clone` at a variant (documentation of
//! `educe`, Clone).

use crate::lexing::cites;
use educe_attrs::{Trait, TypeBuilder, clone};
use educe_syntax::{Attributes, DeriveInput, Shape};
use educe_tests::{check_at, definition};
use educe_tokens::{EduceError, Kind, Span};
use std::alloc::Global;
use std::test::Fail;

/// The attributes of the first variant of an enum.
fn first_attributes(ast: &DeriveInput) -> Option<&Attributes> {
    match &ast.shape {
        Shape::Struct(_) => None,
        Shape::Enum(variants) => match variants.get(0) {
            Some(variant) => Some(&variant.attrs),
            None => None,
        },
    }
}

/// Why what the attributes of a variant say of `Clone` is rejected.
fn clone_refused(alloc: Global, attributes: &Attributes) -> Option<EduceError> {
    let builder = clone::TypeAttributeBuilder {
        enable_flag: false,
        enable_bound: false,
    };
    match builder.build_from_attributes(alloc, attributes, &[Trait::Clone]) {
        Ok(attribute) => {
            drop(attribute);
            None
        }
        Err(error) => Some(error),
    }
}

/// Why what the attributes of the first variant of the enum that a text is say of `Clone` is rejected.
fn refusal(alloc: Global, source: &str) -> Result<EduceError, Fail> {
    let ast = definition(alloc, source)?;
    let refused = match first_attributes(&ast) {
        Some(attributes) => clone_refused(alloc, attributes),
        None => None,
    };
    drop(ast);
    Ok(refused.ok_or("not refused")?)
}

#[test]
fn bounds_of_clone_have_no_place_at_a_variant(rt: HostRuntime) -> Result<(), Fail> {
    let source = "#[educe(Clone)] enum E { #[educe(Clone(bound(T: X)))] A }";
    let error = refusal(rt.alloc(), source)?;
    check_at(source, error.kind, Kind::AttributeIncorrectPlace)?;
    check_at(source, error.span, Span { start: 33, end: 38 })?;
    check_at(source, cites(&error, "Clone"), true)
}
