//! The rows of a table.

use educe_tests::LINE;
use std::test::Fail;

/// A row of a table: its name, its source, and the lines behind it, which `LINE` keeps apart.
#[derive(Clone, Copy)]
pub struct Example<'a> {
    pub name: &'a str,
    pub source: &'a str,
    pub lines: &'a str,
}

/// The word that a line begins with.
pub fn word_of(line: &str) -> &str {
    match line.split_once(' ') {
        Some((word, _)) => word,
        None => line,
    }
}

/// The row that a text is.
pub fn read_example(row: &str) -> Result<Example<'_>, Fail> {
    let (front, lines) = row.split_once(LINE).ok_or(row)?;
    let (name, source) = front.split_once('\n').unwrap_or((front, ""));
    if name.is_empty() {
        return Err(Fail::from(row));
    }
    Ok(Example {
        name,
        source,
        lines,
    })
}
