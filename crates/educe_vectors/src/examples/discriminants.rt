//! The discriminants of enums, which the call gives (Rust Reference, Enumerations; Primitive representations).

use educe_cmp::{Constants, discriminants_of};
use educe_syntax::{DeriveInput, text_of_tree};
use educe_tests::{check_rows, definition};
use std::alloc::{AllocError, Global};
use std::test::Fail;

/// The texts of constants, as in ` 10, base = 10 + 1 as u8,`.
fn constant_texts(alloc: Global, constants: &Constants) -> Result<String, AllocError> {
    let mut texts = String::new(alloc);
    for constant in constants.as_slice() {
        let value = text_of_tree(alloc, constant.value.get())?;
        match &constant.distance {
            Some(distance) => {
                let base = distance.base.text.as_str();
                let steps = distance.steps;
                let ty = distance.ty.as_str();
                write!(texts, " {base} = {value} + {steps} as {ty},")?;
            }
            None => write!(texts, " {value},")?,
        }
    }
    Ok(texts)
}

/// The name of the type of the discriminants, and the constants.
fn discriminant_text(alloc: Global, ast: &DeriveInput) -> Result<String, AllocError> {
    let (ty, constants) = discriminants_of(alloc, ast)?;
    let texts = constant_texts(alloc, &constants);
    drop(constants);
    let texts = texts?;
    let name = ty.as_str();
    format!(in alloc; "{name}:{texts}")
}

/// The name of the type of the discriminants, and the constants, of the definition that a text is.
fn answer(alloc: Global, source: &str) -> Result<String, Fail> {
    let ast = definition(alloc, source)?;
    let text = discriminant_text(alloc, &ast);
    drop(ast);
    Ok(text?)
}

/// A definition, the type of its discriminants and the constant of each variant.
static ENUMS: &str = r#"
enum E {}
struct S { a: u8 }
: isize:

#[repr(u8)] enum E { A }
: u8: 0,

#[repr(C, i16)] enum E { A, B(u8), C { a: u8 } }
: i16: 0, base = 0 + 1 as i16, base = 0 + 2 as i16,

enum E { A = 10, B, C = N - 1, D, F }
: isize: 10, base = 10 + 1 as isize, N - 1, base = N - 1 + 1 as isize, base = N - 1 + 2 as isize,

enum E { A, base }
: isize: 0, _base = 0 + 1 as isize,
"#;

#[test]
fn variants_have_constants(rt: HostRuntime) -> Result<(), Fail> {
    check_rows(rt.alloc(), answer, ENUMS)
}
