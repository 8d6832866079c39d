//! Definitions and paths, with what calls ask of them: each is the reading of its tokens.
ghost use Rattle.std.specs.Prelude.{IfOk};
ghost use Rattle.std.specs.List.{AllByRecursion};
ghost use Rattle.educe_syntax.specs.Readings.{HasReadParts, IsReadField, IsReadPath};
ghost use Rattle.educe_syntax.specs.Refusal.{IsDefinition};

use educe_body::{Items, spell};
use educe_syntax::{
    DeriveInput, ExprPath, Field, Fields, Shape, ToTokens, parse_path, text_of_tree,
};
use educe_tests::{definition, lexed_slice};
use std::alloc::{AllocError, Global};
use std::test::Fail;

/// The definition that a text is.
pub(crate) fn read_definition(alloc: Global, source: &str) -> Result<DeriveInput, Fail>
    ensures read { IfOk result (λ ast. IsDefinition ast.tokens ast) }
    ensures parts { IfOk result HasReadParts }
{
    Ok(definition(alloc, source)?)
}

/// The path that a text is.
pub(crate) fn read_path(alloc: Global, source: &str) -> Result<ExprPath, Fail>
    ensures { IfOk result IsReadPath }
{
    let tokens = lexed_slice(alloc, source)?;
    match parse_path(alloc, &tokens) {
        Ok(path) => Ok(path),
        Err(error) => Err(Fail::from(error.kind)),
    }
}

/// The fields of a struct.
fn struct_fields(ast: &DeriveInput) -> Result<&Fields, Fail>
    requires { HasReadParts ast.now }
    ensures { IfOk result (λ fields. AllByRecursion IsReadField fields.now) }
{
    match &ast.shape {
        Shape::Struct(shape) => Ok(&shape.fields),
        Shape::Enum(_) => Err(Fail::from("an enum")),
    }
}

/// The field of a struct at a place.
pub(crate) fn field_at(ast: &DeriveInput, place: usize) -> Result<&Field, Fail>
    requires { HasReadParts ast.now }
    ensures { IfOk result (λ field. IsReadField field.now) }
{
    let fields = struct_fields(ast)?;
    match fields.get(place) {
        Some(field) => Ok(field),
        None => Err(Fail::from("no such field")),
    }
}

/// The texts of trees, with a comma behind each.
pub(crate) fn texts<T: ToTokens>(alloc: Global, trees: &[T]) -> Result<String, AllocError> {
    let mut texts = String::new(alloc);
    for tree in trees {
        let text = text_of_tree(alloc, tree)?;
        write!(texts, " {text},")?;
    }
    Ok(texts)
}

/// The text of items.
pub(crate) fn spelled(alloc: Global, items: Items) -> Result<String, AllocError> {
    let text = spell(alloc, &items);
    drop(items);
    text
}
