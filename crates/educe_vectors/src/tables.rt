//! Tables of worked examples.
//!
//! A table is one text. Its rows have an empty line between; a line feed stands in front of the first and behind the
//! last. A row is a name, the source in the lines behind it, and answers of one of three kinds. An answer begins with
//! `: ` and a word, and goes on in the lines behind it until the next one.
//!
//! **What the program makes of the source:**
//!
//! - `: writes TEXT`: it is expanded, to exactly this text
//! - `: ends TEXT`: it is expanded, to a text that ends so
//! - `: holds TEXT`: it is expanded, to a text that has this in it
//! - `: items N`: it is expanded, to this many items, each of which is a line of the text
//! - `: expands`: it is expanded
//! - `: rejected TEXT`: it is rejected with these notes; where several answers begin so, with one of them
//!
//! **What the functions of its impls evaluate to**, over values `V(N, ..)` of the variant at the place `V`, whose fields
//! have the numbers `N`:
//!
//! - `: eq V(N, ..) V(N, ..) = true`, `false` or `stuck`, where there is no value
//! - `: cmp V(N, ..) V(N, ..) = Less`, `Equal`, `Greater` or `stuck`
//! - `: partial_cmp V(N, ..) V(N, ..) = Some(Less)`, .., `None` or `stuck`
//! - `: hash V(N, ..) = [N, ..]`, the parts that are fed to a hasher
//! - `: default = V(N, ..)`, `whole N`, a value of the whole type, or `stuck`; and `: new` in the same way
//! - `: clone V(N, ..) = V(N, ..)`, and `: clone_from V(N, ..) V(N, ..) = V(N, ..)`
//! - `: fmt V(N, ..) = TEXT`, what is shown, where each field prints as its number
//!
//! and beside these, what calls in the functions answer. Other fields are compared, and fed to a hasher, as their
//! numbers:
//!
//! - `: method PATH(N, ..) -> ANSWER`: `true`, `Less` or `Some(Less)` and so on of a method that compares, `[N]` of
//!   one that feeds a hasher, `N` of one that makes a value
//! - `: const TEXT -> N`: the number of the expression of a discriminant
//! - `: value TEXT -> N`: the value of an expression
//! - `: Default N -> N`: the default value of the type at this place
//! - `: Clone N -> N`, `: CloneFrom N, N -> N`: what is made of fields
//! - `: CloneWhole N -> N`: what `Clone` makes of a whole value of the variant at this place
//! - `: Ne N, N -> ANSWER`: whether fields differ; then no fields are compared as their numbers
//!
//! **What the tokens of the source are:**
//!
//! - `: prints TEXT`, printed; `: tokens N`, how many; `: integer N` and `: string TEXT`, the value of the only one
//! - `: cause KIND WORD`: why there are none, and the word that this cites, if it cites one

use crate::calls::check_calls;
use crate::lexing::check_tokens;
use crate::program::{Case, Outcome, shown};
use crate::rows::{Example, read_example, word_of};
use crate::told::is_told;
use educe_core::{Expansion, expand};
use educe_tests::{LINE, check_at, definition, found, rows_of};
use educe_tokens::SOURCE_LIMIT;
use std::alloc::Global;
use std::test::Fail;

/// What a source is expanded to.
pub fn expansion(alloc: Global, source: &str) -> Result<Expansion, Fail> {
    if source.len() > SOURCE_LIMIT {
        return Err(Fail::from("too long"));
    }
    found(expand(alloc, source))
}

/// How many bytes a source is expanded to.
pub fn text_size(alloc: Global, source: &str) -> Result<usize, Fail> {
    let expansion = expansion(alloc, source)?;
    Ok(expansion.text().len())
}

/// Each call of a row evaluates as its line says.
fn check_functions(alloc: Global, example: &Example) -> Result<(), Fail> {
    let ast = definition(alloc, example.source)?;
    let expansion = expansion(alloc, example.source)?;
    check_calls(alloc, &ast, expansion.items(), example)
}

/// What a run writes, without the end of its last line, where it ends well.
fn text_of(found: &Outcome) -> Result<&str, Fail> {
    let notes = shown(found.notes.bytes());
    check_at(notes, found.code, 0)?;
    check_at("notes", notes, "")?;
    Ok(
        shown(found.text.bytes())
            .strip_suffix('\n')
            .ok_or("no end of line")?,
    )
}

/// The notes of a run, without the end of their last line, where it rejects its input.
fn notes_of(found: &Outcome) -> Result<&str, Fail> {
    let text = shown(found.text.bytes());
    check_at(text, found.code, 1)?;
    check_at("text", text, "")?;
    Ok(
        shown(found.notes.bytes())
            .strip_suffix('\n')
            .ok_or("no end of line")?,
    )
}

/// How many lines a text has.
fn line_count(text: &str) -> usize {
    text.split('\n').count()
}

/// Whether a line says this of the text that is written.
fn says(line: &str, text: &str) -> bool {
    let (word, part) = line.split_once(' ').unwrap_or((line, ""));
    match word {
        "writes" => text == part,
        "ends" => text.ends_with(part),
        "holds" => text.contains(part),
        "items" => part.parse::<usize>().ok() == Some(line_count(text)),
        _ => line == "expands",
    }
}

/// Each line of a row says what the text is that is written.
fn check_text(example: &Example, text: &str) -> Result<(), Fail> {
    for line in example.lines.split(LINE) {
        if !says(line, text) {
            let name = example.name;
            return Err(Fail::new(format_args!("at {name:?}: found {text:?}")));
        }
    }
    Ok(())
}

/// Each line of a row has notes, and those of one are these.
fn check_notes(example: &Example, notes: &str) -> Result<(), Fail> {
    let mut is_one = false;
    for line in example.lines.split(LINE) {
        is_one |= line.strip_prefix("rejected ").ok_or(line)? == notes;
    }
    check_at((example.name, notes), is_one, true)
}

/// What the program makes of the source is as the lines of a row say.
fn check_run(alloc: Global, example: &Example, is_refused: bool) -> Result<(), Fail> {
    let found = Case::of(example.source.as_bytes(), 0, "", "").outcome(alloc)?;
    if is_refused {
        check_notes(example, notes_of(&found)?)
    } else {
        check_text(example, text_of(&found)?)
    }
}

/// The first word of a row that states no answer: what the lines of the row speak of.
fn topic<'a>(example: &Example<'a>) -> Result<&'a str, Fail> {
    for line in example.lines.split(LINE) {
        if !is_told(line) {
            return Ok(word_of(line));
        }
    }
    Err(Fail::from(example.name))
}

/// The lines of a row are as they say.
fn check_example(alloc: Global, example: &Example) -> Result<(), Fail> {
    match topic(example)? {
        "writes" | "ends" | "holds" | "items" | "expands" => check_run(alloc, example, false),
        "rejected" => check_run(alloc, example, true),
        "prints" | "tokens" | "integer" | "string" | "cause" => check_tokens(alloc, example),
        _ => check_functions(alloc, example),
    }
}

/// Each row of a table is answered as it says.
pub fn check_table(alloc: Global, table: &str) -> Result<(), Fail> {
    for row in rows_of(table)?.split("\n\n") {
        check_example(alloc, &read_example(row)?)?;
    }
    Ok(())
}
