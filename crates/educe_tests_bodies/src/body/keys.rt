//! Keys of fields.

use educe_body::key_word;
use educe_syntax::{DeriveInput, Field, Shape};
use educe_tests::{check_rows, definition, first};
use std::alloc::Global;
use std::test::Fail;

/// The first field of a struct.
fn first_field(ast: &DeriveInput) -> Result<&Field, Fail> {
    match &ast.shape {
        Shape::Struct(shape) => first(&shape.fields),
        Shape::Enum(_) => Err(Fail::from("no struct")),
    }
}

/// The key of the first field of a struct, were it at this place.
fn key_of_first(alloc: Global, ast: &DeriveInput, place: usize) -> Result<String, Fail> {
    let key = key_word(alloc, place, first_field(ast)?)?;
    Ok(String::from_str(alloc, key.as_str())?)
}

/// The key of the first field of the definition behind ` in `, were it at the place in front of it.
fn key(alloc: Global, text: &str) -> Result<String, Fail> {
    let (place, source) = text.split_once(" in ").ok_or(text)?;
    let place = place.parse::<usize>().ok().ok_or(text)?;
    key_of_first(alloc, &definition(alloc, source)?, place)
}

static KEYS: &str = r#"
3 in struct S { x: u8 }
: x

0 in struct S(u8);
: 0

9 in struct S(u8);
: 9

10 in struct S(u8);
: 10

18446744073709551615 in struct S(u8);
: 18446744073709551615
"#;

#[test]
fn keys_are_names_and_places(rt: HostRuntime) -> Result<(), Fail> {
    check_rows(rt.alloc(), key, KEYS)
}
