//! What lines of a row state that calls answer, as rows of the table that bodies are evaluated by.

use crate::example_values::number;
use crate::rows::word_of;
use educe_body::{Answer, Answers, Callee, FieldValue, Row};
use educe_tests::LINE;
use educe_tokens::{Seq, Spelling};
use std::alloc::Global;
use std::cmp::Ordering;
use std::test::Fail;

/// The words of lines that state what is answered.
const WORDS: [&str; 8] = [
    "method",
    "const",
    "value",
    "Ne",
    "Clone",
    "CloneFrom",
    "CloneWhole",
    "Default",
];

/// The text of what is called, and those of its arguments.
fn split<'a>(word: &str, call: &'a str) -> Option<(&'a str, &'a str)> {
    match word {
        "method" => call.strip_suffix(')')?.rsplit_once('('),
        "const" | "value" | "Default" => Some((call, "")),
        _ => Some(("", call)),
    }
}

/// What is called.
fn callee(alloc: Global, word: &str, text: &str) -> Result<Callee, Fail> {
    match word {
        "Ne" => Ok(Callee::Ne),
        "Clone" | "CloneWhole" => Ok(Callee::Clone),
        "CloneFrom" => Ok(Callee::CloneFrom),
        "Default" => Ok(Callee::Default(place(word, text)?)),
        _ => Ok(Callee::Written(Spelling::from_str(alloc, text)?)),
    }
}

/// The place of the type of what is made.
fn place(word: &str, text: &str) -> Result<u32, Fail> {
    match word {
        "Default" => Ok(text.parse::<u32>().ok().ok_or(text)?),
        _ => Ok(0),
    }
}

/// The place of the type of what a call is handed: a whole value has none.
fn handed(word: &str) -> u32 {
    match word {
        "CloneWhole" => u32::MAX,
        _ => 0,
    }
}

/// A value of the type at a place.
fn field(ty: u32, text: &str) -> Result<FieldValue, Fail> {
    let number = number(text)?;
    Ok(FieldValue { ty, number })
}

/// The two arguments of a call, as far as it has them.
fn arguments(ty: u32, text: &str) -> Result<(Option<FieldValue>, Option<FieldValue>), Fail> {
    if text.is_empty() {
        return Ok((None, None));
    }
    match text.split_once(", ") {
        Some((first, second)) => Ok((Some(field(ty, first)?), Some(field(ty, second)?))),
        None => Ok((Some(field(ty, text)?), None)),
    }
}

/// What compares answers.
fn compared(text: &str) -> Option<Answer> {
    match text {
        "true" => Some(Answer::Truth(true)),
        "false" => Some(Answer::Truth(false)),
        "Less" => Some(Answer::Order(Ordering::Less)),
        "Equal" => Some(Answer::Order(Ordering::Equal)),
        "Greater" => Some(Answer::Order(Ordering::Greater)),
        "Some(Less)" => Some(Answer::PartialOrder(Some(Ordering::Less))),
        "Some(Equal)" => Some(Answer::PartialOrder(Some(Ordering::Equal))),
        "Some(Greater)" => Some(Answer::PartialOrder(Some(Ordering::Greater))),
        "None" => Some(Answer::PartialOrder(None)),
        _ => None,
    }
}

/// What a call answers: what compares, a part that is fed to a hasher, a number, or a value of the type at a place.
fn answer(word: &str, ty: u32, text: &str) -> Result<Answer, Fail> {
    if let Some(answer) = compared(text) {
        return Ok(answer);
    }
    if let Some(part) = text.strip_prefix('[') {
        return Ok(Answer::Part(number(part.strip_suffix(']').ok_or(text)?)?));
    }
    match word {
        "const" => Ok(Answer::Number(number(text)?)),
        _ => Ok(Answer::Made(field(ty, text)?)),
    }
}

/// Whether a line begins with one of the words that state what is answered.
pub fn is_told(line: &str) -> bool {
    let word = word_of(line);
    for told in &WORDS {
        if *told == word {
            return true;
        }
    }
    false
}

/// What a line states.
fn row(alloc: Global, line: &str) -> Result<Row, Fail> {
    let (word, rest) = line.split_once(' ').ok_or(line)?;
    let (call, answered) = rest.rsplit_once(" -> ").ok_or(line)?;
    let (text, given) = split(word, call).ok_or(line)?;
    let (first, second) = arguments(handed(word), given)?;
    let answer = answer(word, place(word, text)?, answered)?;
    let callee = callee(alloc, word, text)?;
    Ok(Row {
        callee,
        first,
        second,
        answer,
    })
}

/// The table of what the lines of a row state. It compares and hashes fields by their numbers, unless a line
/// states what `Ne` answers.
pub fn answers(alloc: Global, lines: &str) -> Result<Answers, Fail> {
    let mut rows = Seq::new(alloc);
    let mut by_number = true;
    for line in lines.split(LINE) {
        if is_told(line) {
            rows.push(row(alloc, line)?)?;
            by_number &= word_of(line) != "Ne";
        }
    }
    Ok(Answers { rows, by_number })
}
