//! What is found of the tokens of a source, as a text.

use crate::rows::Example;
use educe_tests::{LINE, check_at, lex_answer, lexed, printed_source};
use educe_tokens::{EduceError, Token, int_value, string_value};
use std::alloc::{AllocError, Global};
use std::test::Fail;

/// The one token of a source.
fn token(alloc: Global, source: &str) -> Result<Token, Fail> {
    let tokens = lexed(alloc, source)?;
    match tokens.as_slice() {
        [token] => Ok(token.duplicate(alloc)?),
        _ => Err(Fail::from(source)),
    }
}

/// How many tokens a source has.
fn count(alloc: Global, source: &str) -> Result<String, Fail> {
    Ok(lexed(alloc, source)?.len().to_string(alloc)?)
}

/// The value of the one token of a source, which is an integer.
fn integer(alloc: Global, source: &str) -> Result<String, Fail> {
    let value = int_value(&token(alloc, source)?).ok_or(source)?;
    Ok(value.to_string(alloc)?)
}

/// The value of the one token of a source, which is a string.
fn string(alloc: Global, source: &str) -> Result<String, Fail> {
    Ok(string_value(alloc, &token(alloc, source)?)?.ok_or(source)?)
}

/// Whether a rejection cites this word first, or none where it is empty.
pub fn cites(error: &EduceError, word: &str) -> bool {
    match error.words.get(0) {
        Some(cited) => cited.as_str() == word,
        None => word.is_empty(),
    }
}

/// The kind of a rejection, and behind it the first word that it cites.
fn shown(alloc: Global, error: &EduceError) -> Result<String, AllocError> {
    let kind = error.kind;
    match error.words.get(0) {
        Some(cited) => format!(in alloc; "{kind:?} {}", cited.as_str()),
        None => format!(in alloc; "{kind:?}"),
    }
}

/// Why a source has no tokens.
fn cause(alloc: Global, source: &str) -> Result<String, Fail> {
    match lex_answer(alloc, source)? {
        Err(error) => Ok(shown(alloc, &error)?),
        Ok(_) => Err(Fail::from(source)),
    }
}

/// What a line with this word says of the tokens of a source.
fn lexical(alloc: Global, word: &str, source: &str) -> Result<String, Fail> {
    match word {
        "prints" => printed_source(alloc, source),
        "tokens" => count(alloc, source),
        "integer" => integer(alloc, source),
        "string" => string(alloc, source),
        "cause" => cause(alloc, source),
        _ => Err(Fail::from(word)),
    }
}

/// Each line of a row says what the tokens of the source are.
pub fn check_tokens(alloc: Global, example: &Example) -> Result<(), Fail> {
    for line in example.lines.split(LINE) {
        let (word, expected) = line.split_once(' ').ok_or(line)?;
        let found = lexical(alloc, word, example.source)?;
        check_at(example.name, found.as_str(), expected)?;
    }
    Ok(())
}
