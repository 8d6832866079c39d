//! What the builder of `Default` at fields answers, to which the type of the field is given.

use crate::answers::{answer, attributes, only_meta, with_struct};
use educe_attrs::default::FieldAttributeBuilder;
use educe_attrs_generated::auto_adjust_expr;
use educe_bound::Trait;
use educe_syntax::{Duplicate, Expr, Field, FieldShape, Shape, Ty, parse_expr};
use educe_tests::{check_rows, definition, found, lexed_slice, printed};
use std::alloc::Global;
use std::test::Fail;

/// The fields of a struct.
fn fields(shape: &Shape) -> Result<&[Field], Fail> {
    match shape {
        Shape::Struct(FieldShape { fields, .. }) => Ok(fields.as_slice()),
        Shape::Enum(_) => Err(Fail::from("an enum")),
    }
}

/// The type of the only field of a struct.
pub(crate) fn only_type(shape: &Shape) -> Result<&Ty, Fail> {
    match fields(shape)? {
        [field] => Ok(&field.ty),
        _ => Err(Fail::from("not one field")),
    }
}

/// The text of a struct with a field of the type.
fn with_field(alloc: Global, ty: &str) -> Result<String, Fail> {
    Ok(format!(in alloc; "struct S({ty});")?)
}

/// A copy of the type of the only field of a struct.
fn copied_type(alloc: Global, shape: &Shape) -> Result<Ty, Fail> {
    Ok(only_type(shape)?.duplicate(alloc)?)
}

/// The type that a text is.
fn type_of(alloc: Global, text: &str) -> Result<Ty, Fail> {
    let input = definition(alloc, &with_field(alloc, text)?)?;
    let ty = copied_type(alloc, &input.shape);
    drop(input);
    ty
}

/// What the builder reads in the one meta that a text is, for a field of the type.
fn read_meta(
    alloc: Global,
    builder: &FieldAttributeBuilder,
    ty: &Ty,
    source: &str,
) -> Result<String, Fail> {
    let meta = only_meta(alloc, source)?;
    let answered = builder.build_from_default_meta(alloc, &meta, ty);
    drop(meta);
    answer(alloc, source, answered)
}

/// What the builder reads in each meta of a table, for a field of the type that a text is.
pub(crate) fn check_defaults(
    alloc: Global,
    builder: &FieldAttributeBuilder,
    ty: &str,
    table: &str,
) -> Result<(), Fail> {
    let ty = type_of(alloc, ty)?;
    let checked = check_rows(
        alloc,
        |alloc, source| read_meta(alloc, builder, &ty, source),
        table,
    );
    drop(ty);
    checked
}

/// What the builder reads in the attributes of a field of the type, which a text is, where its struct
/// lists these traits.
fn read_attributes(
    alloc: Global,
    builder: &FieldAttributeBuilder,
    ty: &Ty,
    traits: &[Trait],
    text: &str,
) -> Result<String, Fail> {
    let source = with_struct(alloc, text)?;
    let attributes = attributes(alloc, &source)?;
    let answered = builder.build_from_attributes(alloc, &attributes, traits, ty);
    drop(attributes);
    answer(alloc, &source, answered)
}

/// What the builder reads in attributes of fields of the type that a text is.
pub(crate) fn check_default_places(
    alloc: Global,
    builder: &FieldAttributeBuilder,
    ty: &str,
    traits: &[Trait],
    table: &str,
) -> Result<(), Fail> {
    let ty = type_of(alloc, ty)?;
    let checked = check_rows(
        alloc,
        |alloc, text| read_attributes(alloc, builder, &ty, traits, text),
        table,
    );
    drop(ty);
    checked
}

/// The expression that a text is.
fn expression(alloc: Global, text: &str) -> Result<Expr, Fail> {
    found(parse_expr(alloc, &lexed_slice(alloc, text)?))
}

/// The default value of a text, as it is written for a field of the type.
fn written_for(alloc: Global, ty: &Ty, value: &str) -> Result<String, Fail> {
    let written = auto_adjust_expr(alloc, expression(alloc, value)?, Some(ty))?;
    Ok(printed(alloc, written)?)
}

/// The default value for a type, as it is written for a field, of a text such as `u8 = 1`.
pub(crate) fn written(alloc: Global, text: &str) -> Result<String, Fail> {
    let (ty, value) = text.split_once(" = ").ok_or(text)?;
    let ty = type_of(alloc, ty)?;
    let written = written_for(alloc, &ty, value);
    drop(ty);
    written
}
