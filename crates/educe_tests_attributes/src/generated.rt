//! What generated items take from the attributes of a type.

use crate::answers::{attributes, with_struct};
use educe_attrs_generated::{
    discriminant_type, generated_impl_attributes, generated_lint_attributes, is_packed,
};
use educe_discriminants::DiscriminantType;
use educe_syntax::Attributes;
use educe_tests::{check_at, printed};
use educe_tokens::{Token, TokenKind};
use std::alloc::{AllocError, Global};
use std::test::Fail;

/// What stands between a token and the next: a blank, unless they are joint.
fn gap(kind: TokenKind) -> &'static str {
    if matches!(kind, TokenKind::Punct(_, true)) {
        ""
    } else {
        " "
    }
}

/// The text of tokens.
pub(crate) fn spelled(alloc: Global, tokens: &[Token]) -> Result<String, AllocError> {
    let mut text = String::new(alloc);
    let mut between = "";
    for token in tokens {
        text.push_str(between)?;
        text.push_str(token.spelling.as_str())?;
        between = gap(token.kind);
    }
    Ok(text)
}

/// The lint attributes for those of a type.
fn lints(alloc: Global, attributes: &Attributes) -> Result<String, AllocError> {
    let tokens = generated_lint_attributes(alloc, attributes)?;
    spelled(alloc, tokens.as_slice())
}

/// The attributes of an impl for those of a type.
fn impl_attributes(alloc: Global, attributes: &Attributes) -> Result<String, AllocError> {
    let tokens = generated_impl_attributes(alloc, attributes)?;
    spelled(alloc, tokens.as_slice())
}

/// The lint attributes for those of a type. An impl has them behind its own.
fn lints_of(alloc: Global, source: &str, attributes: &Attributes) -> Result<String, Fail> {
    let lints = lints(alloc, attributes)?;
    let all = format!(in alloc; "# [ automatically_derived ] {lints}")?;
    let found = impl_attributes(alloc, attributes)?;
    check_at(source, found.as_str(), all.as_str().trim_end())?;
    Ok(lints)
}

/// The lint attributes for those of a type, which a text is.
pub(crate) fn lint_text(alloc: Global, source: &str) -> Result<String, Fail> {
    let attributes = attributes(alloc, &with_struct(alloc, source)?)?;
    let lints = lints_of(alloc, source, &attributes);
    drop(attributes);
    lints
}

/// Whether a type with these attributes is packed.
fn packed(alloc: Global, source: &str) -> Result<bool, Fail> {
    let attributes = attributes(alloc, &with_struct(alloc, source)?)?;
    let packed = is_packed(alloc, &attributes);
    drop(attributes);
    Ok(packed?)
}

/// Whether a type with these attributes is packed, in words.
pub(crate) fn packed_words(alloc: Global, source: &str) -> Result<String, Fail> {
    let words = if packed(alloc, source)? {
        "packed"
    } else {
        "not packed"
    };
    Ok(String::from_str(alloc, words)?)
}

/// The type of the discriminants of an enum with these attributes.
fn discriminants(alloc: Global, source: &str) -> Result<DiscriminantType, Fail> {
    let attributes = attributes(alloc, &format!(in alloc; "{source} enum E {{}}")?)?;
    let ty = discriminant_type(alloc, &attributes);
    drop(attributes);
    Ok(ty?)
}

/// The name of the type of the discriminants of an enum with these attributes.
pub(crate) fn discriminants_name(alloc: Global, source: &str) -> Result<String, Fail> {
    let ty = discriminants(alloc, source)?;
    Ok(String::from_str(alloc, ty.as_str())?)
}

/// The type of discriminants that has this name, and the path as which it is printed.
pub(crate) fn named_type(alloc: Global, name: &str) -> Result<String, Fail> {
    match DiscriminantType::parse_str(name) {
        Some(ty) => {
            check_at(name, ty.as_str(), name)?;
            let path = printed(alloc, ty)?;
            Ok(format!(in alloc; "{ty:?}, {path}")?)
        }
        None => Ok(String::from_str(alloc, "no type")?),
    }
}
