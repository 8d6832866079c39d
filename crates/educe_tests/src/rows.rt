//! Tables as texts.
//!
//! A table is one text. Its rows have an empty line between; a line feed stands in front of the first and behind the
//! last. A row is one or more inputs, a line each, and what is answered to each of them, which begins with `: ` and
//! goes on to the end of the row:
//!
//!     p = X
//!     p(X)
//!     : X
//!
//!     p
//!     : 1:1: expected `p = Ident` or `p(Ident)`
//!
//! `∅` alone is the empty text. `␊`, `␍`, `␉`, `␀` and `␡` stand for the control characters that they show, and `␠` for
//! a blank.

use crate::values::check_at;
use std::alloc::Global;
use std::test::Fail;

/// What stands in front of an answer.
pub const LINE: &str = "\n: ";

/// The rows of a table, which an empty line keeps apart.
pub fn rows_of(table: &str) -> Result<&str, Fail> {
    let behind = table.strip_prefix('\n').ok_or("no line feed in front")?;
    Ok(behind.strip_suffix('\n').ok_or("no line feed behind")?)
}

/// The character that a character of a table stands for.
fn meant(written: char) -> char {
    match written {
        '␊' => '\n',
        '␍' => '\r',
        '␉' => '\t',
        '␀' => '\0',
        '␡' => '\u{7F}',
        '␠' => ' ',
        _ => written,
    }
}

/// The text that an input or an answer of a table stands for.
fn text(alloc: Global, written: &str) -> Result<String, Fail> {
    if written.is_empty() {
        return Err(Fail::from("an empty line"));
    }
    let mut text = String::new(alloc);
    if written != "∅" {
        for character in written.chars() {
            text.push(meant(character))?;
        }
    }
    Ok(text)
}

/// Compares what a function answers to each input of a row.
fn check_row<F>(alloc: Global, answer: &F, row: &str) -> Result<(), Fail>
where
    F: Fn(Global, &str) -> Result<String, Fail>,
    requires { F.IsAlwaysCallable answer.now }
{
    let (inputs, expected) = row.split_once(LINE).ok_or(row)?;
    let expected = text(alloc, expected)?;
    for input in inputs.split('\n') {
        let input = text(alloc, input)?;
        let found = answer(alloc, &input)?;
        check_at(input.as_str(), found.as_str(), expected.as_str())?;
    }
    Ok(())
}

/// Compares what a function answers to each input of a table.
pub fn check_rows<F>(alloc: Global, answer: F, table: &str) -> Result<(), Fail>
where
    F: Fn(Global, &str) -> Result<String, Fail>,
    requires { F.IsAlwaysCallable answer }
{
    for row in rows_of(table)?.split("\n\n") {
        check_row(alloc, &answer, row)?;
    }
    Ok(())
}
