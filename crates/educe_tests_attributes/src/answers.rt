//! What calls answer to texts, as lines. Trees are dropped by `drop`, which is generic: that keeps the
//! proofs cheap.
ghost use Rattle.std.specs.Prelude.{◌≡◌, ◌≢◌, ◌<◌, [], IsTrue, IfOk, ℕ, List, length};
ghost use Rattle.educe_tokens.specs.Message.{HasWords};
ghost use Rattle.educe_attrs_values.specs.Metas.{IsNamed};

use crate::words::Worded;
use educe_attrs::{AttributeBuilder, FieldBuilder, TypeBuilder};
use educe_bound::Trait;
use educe_syntax::{Attributes, Duplicate, Meta, parse_metas};
use educe_tests::{check_rows, definition, found, lexed_slice};
use educe_tokens::{EduceError, Kind, SOURCE_LIMIT};
use std::alloc::Global;
use std::test::Fail;

/// Whether the message of the kind cites no word.
fn cites_nothing(kind: Kind) -> bool
    ensures some { IsTrue result → kind ≢ Kind.Alloc }
    ensures words { IsTrue result → HasWords kind [] }
{
    matches!(
        kind,
        Kind::Syntax | Kind::TooDeep | Kind::DeriveAttributeNotSetUpYet
    )
}

/// Whether the message of the kind may cite one word.
fn cites_a_word(kind: Kind) -> bool
    ensures some { IsTrue result → kind ≢ Kind.Alloc }
    ensures words { IsTrue result → (words : List (List ℕ)) → length words ≡ 1 → HasWords kind words }
{
    matches!(
        kind,
        Kind::NotCarried
            | Kind::UnsupportedTrait
            | Kind::ReuseATrait
            | Kind::TraitNotUsed
            | Kind::AttributeIncorrectPlace
            | Kind::AttributeIncorrectFormat
            | Kind::ParameterReset
            | Kind::ExpectedValue
    )
}

/// Whether the message of the kind may cite a word and lines.
fn cites_lines(kind: Kind) -> bool
    ensures some { IsTrue result → kind ≢ Kind.Alloc }
    ensures words { IsTrue result → (words : List (List ℕ)) → 0 < length words → HasWords kind words }
{
    matches!(kind, Kind::AttributeIncorrectFormat)
}

/// Whether the words of a rejection are those that its message cites.
fn is_worded(error: &EduceError) -> bool
    ensures some { IsTrue result → error.now.kind ≢ Kind.Alloc }
    ensures words { IsTrue result → HasWords error.now.kind error.now.words }
{
    match error.words.as_slice() {
        [] => cites_nothing(error.kind),
        [_] => cites_a_word(error.kind),
        [_, ..] => cites_lines(error.kind),
    }
}

/// The message of a rejection.
fn message(alloc: Global, error: &EduceError) -> Result<String, Fail> {
    if is_worded(error) {
        Ok(error.message(alloc)?)
    } else {
        Err(Fail::from(error.kind))
    }
}

/// The line and the column of a rejection.
fn place(source: &str, error: &EduceError) -> Result<(u32, u32), Fail> {
    if source.len() <= SOURCE_LIMIT && source.is_char_boundary(error.span.start as usize) {
        Ok(error.span.line_column(source))
    } else {
        Err(Fail::from(source))
    }
}

/// The place and the message of a rejection, as a line.
pub(crate) fn line(alloc: Global, source: &str, error: &EduceError) -> Result<String, Fail> {
    let (line, column) = place(source, error)?;
    let message = message(alloc, error)?;
    Ok(format!(in alloc; "{line}:{column}: {message}")?)
}

/// What an attribute says in words, or the line of its rejection.
pub(crate) fn answer<A: Worded + Drop>(
    alloc: Global,
    source: &str,
    answered: Result<A, EduceError>,
) -> Result<String, Fail> {
    match answered {
        Ok(attribute) => attribute.words(alloc),
        Err(error) => line(alloc, source, &error),
    }
}

/// Whether the meta has a name.
fn is_named(meta: &Meta) -> bool
    ensures { IsTrue result → IsNamed meta.now }
{
    matches!(
        meta,
        Meta::Word(_) | Meta::List(_, _, _) | Meta::NameValue(_, _, _)
    )
}

/// The one meta that a text is, which has a name.
pub(crate) fn only_meta(alloc: Global, source: &str) -> Result<Meta, Fail>
    ensures { IfOk result IsNamed }
{
    let metas = found(parse_metas(alloc, &lexed_slice(alloc, source)?))?;
    match metas.as_slice() {
        [meta] if is_named(meta) => Ok(meta.duplicate(alloc)?),
        _ => Err(Fail::from(source)),
    }
}

/// What a builder reads in the one meta that a text is.
fn read_meta<B: AttributeBuilder>(alloc: Global, builder: &B, source: &str) -> Result<String, Fail>
where
    B::Attribute: Worded,
{
    let meta = only_meta(alloc, source)?;
    let answered = builder.build_from_meta(alloc, &meta);
    drop(meta);
    answer(alloc, source, answered)
}

/// What a builder reads in each meta of a table.
pub(crate) fn check_metas<B: AttributeBuilder + Drop>(
    alloc: Global,
    builder: B,
    table: &str,
) -> Result<(), Fail>
where
    B::Attribute: Worded,
{
    check_rows(
        alloc,
        |alloc, source| read_meta(alloc, &builder, source),
        table,
    )
}

/// The text of a struct with these attributes.
pub(crate) fn with_struct(alloc: Global, attributes: &str) -> Result<String, Fail> {
    Ok(format!(in alloc; "{attributes} struct S;")?)
}

/// The attributes of the definition that a text is.
pub(crate) fn attributes(alloc: Global, source: &str) -> Result<Attributes, Fail> {
    let input = definition(alloc, source)?;
    Ok(input.attrs)
}

/// What a builder reads in the attributes of a type or a variant, which a text is.
fn read_type<B: TypeBuilder>(
    alloc: Global,
    builder: &B,
    traits: &[Trait],
    text: &str,
) -> Result<String, Fail>
where
    B::Attribute: Worded,
{
    let source = with_struct(alloc, text)?;
    let attributes = attributes(alloc, &source)?;
    let answered = builder.build_from_attributes(alloc, &attributes, traits);
    drop(attributes);
    answer(alloc, &source, answered)
}

/// What a builder reads in attributes of types or variants whose type lists these traits.
pub(crate) fn check_types<B: TypeBuilder + Drop>(
    alloc: Global,
    builder: B,
    traits: &[Trait],
    table: &str,
) -> Result<(), Fail>
where
    B::Attribute: Worded,
{
    check_rows(
        alloc,
        |alloc, text| read_type(alloc, &builder, traits, text),
        table,
    )
}

/// What a builder reads in the attributes of a field, which a text is.
fn read_field<B: FieldBuilder>(
    alloc: Global,
    builder: &B,
    traits: &[Trait],
    text: &str,
) -> Result<String, Fail>
where
    B::Attribute: Worded,
{
    let source = with_struct(alloc, text)?;
    let attributes = attributes(alloc, &source)?;
    let answered = builder.build_from_attributes(alloc, &attributes, traits);
    drop(attributes);
    answer(alloc, &source, answered)
}

/// What a builder reads in attributes of fields whose type lists these traits.
pub(crate) fn check_fields<B: FieldBuilder + Drop>(
    alloc: Global,
    builder: B,
    traits: &[Trait],
    table: &str,
) -> Result<(), Fail>
where
    B::Attribute: Worded,
{
    check_rows(
        alloc,
        |alloc, text| read_field(alloc, &builder, traits, text),
        table,
    )
}
