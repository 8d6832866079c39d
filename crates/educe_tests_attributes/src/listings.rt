//! Which traits types list.

use crate::answers::{attributes, line, with_struct};
use educe_attrs_places::type_listing;
use educe_attrs_values::error_of;
use educe_bound::Trait;
use educe_tests::check_at;
use educe_tokens::{EduceError, Kind, SOURCE_LIMIT, Span};
use std::alloc::{AllocError, Global};
use std::test::Fail;

/// The names of the traits.
fn names(alloc: Global, traits: &[Trait]) -> Result<String, AllocError> {
    let mut names = String::new(alloc);
    let mut between = "";
    for which in traits {
        names.push_str(between)?;
        names.push_str(which.name())?;
        between = " ";
    }
    Ok(names)
}

/// The rejection; that of an `educe` attribute that is no list has the message of an attribute of
/// another form than its place allows.
fn with_format(error: EduceError) -> EduceError {
    match error.kind {
        Kind::EduceFormatIncorrect => EduceError {
            kind: Kind::AttributeIncorrectFormat,
            span: error.span,
            words: error.words,
        },
        _ => error,
    }
}

/// The end of a text.
fn end_of(source: &str) -> Result<u32, Fail> {
    let len = source.len();
    if len <= SOURCE_LIMIT {
        Ok(len as u32)
    } else {
        Err(Fail::from("too long"))
    }
}

/// The names of the traits that a type with these attributes lists, or the line of the rejection.
pub(crate) fn listing(alloc: Global, text: &str) -> Result<String, Fail> {
    let source = with_struct(alloc, text)?;
    let end = end_of(&source)?;
    let attributes = attributes(alloc, &source)?;
    let listed = type_listing(alloc, attributes.as_slice(), end);
    drop(attributes);
    match listed {
        Ok(traits) => Ok(names(alloc, traits.as_slice())?),
        Err(stop) => line(alloc, &source, &with_format(error_of(alloc, stop))),
    }
}

/// The place at which a text that lists no trait is rejected.
fn refused_place(alloc: Global, source: &str) -> Result<Span, Fail> {
    let end = end_of(source)?;
    let attributes = attributes(alloc, source)?;
    let listed = type_listing(alloc, attributes.as_slice(), end);
    drop(attributes);
    match listed {
        Ok(_) => Err(Fail::from(source)),
        Err(stop) => Ok(error_of(alloc, stop).span),
    }
}

/// The text is rejected from its start to its end.
pub(crate) fn check_whole(alloc: Global, source: &str) -> Result<(), Fail> {
    let place = refused_place(alloc, source)?;
    check_at(source, (place.start, place.end), (0, end_of(source)?))
}
