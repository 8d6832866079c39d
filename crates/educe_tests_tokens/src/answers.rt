//! What calls answer to the texts of tables.

use crate::common::{characters, or_none, piece_text};
use crate::pieces::{comments, numbers, quotes, raw_strings};
use crate::tokens::described::described;
use crate::tokens::{kinds, nesting, refusals, values};
use educe_tests::{check_rows, lex_answer, printed_source};
use educe_tokens::Token;
use educe_tokens_pieces::{comment_at, raw_len, str_value};
use educe_tokens_scan::piece_at;
use std::alloc::{AllocError, Global};
use std::test::Fail;

/// What is asked of the characters of a text.
#[derive(Clone, Copy)]
pub(crate) enum OfCharacters {
    CommentAt,
    /// Whether a comment or documentation of so many characters may stand before the rest.
    EndsLineBefore(usize),
    NumberAt,
    IsBody,
    QuoteEnd,
    RawLen,
    PieceAt,
}

/// What is asked of the tokens of a text, or of the rejection.
#[derive(Clone, Copy)]
pub(crate) enum OfTokens {
    /// The kinds; or the kind and the place.
    Kinds,
    /// How many there are; or the kind, the place and the words.
    Count,
    /// Where each stands, its kind and its spelling.
    All,
    IntegerValue,
    StringValue,
}

/// What is asked of a text.
#[derive(Clone, Copy)]
pub(crate) enum Call {
    Characters(OfCharacters),
    Tokens(OfTokens),
    /// The limit on nesting, and how many tokens a text has that nests as deep as is said.
    Within,
    DocValue,
    IntValue,
    StrValue,
    RawValue,
    Printed,
    Message,
    LineColumn,
}

/// What is found of characters.
fn of_characters(alloc: Global, asked: OfCharacters, text: &[char]) -> Result<String, AllocError> {
    match asked {
        OfCharacters::CommentAt => piece_text(alloc, comment_at(text)),
        OfCharacters::EndsLineBefore(len) => {
            or_none(alloc, comments::may_stand_before_rest(text, len))
        }
        OfCharacters::NumberAt => piece_text(alloc, numbers::number_before_rest(text)),
        OfCharacters::IsBody => or_none(alloc, quotes::fits(text)),
        OfCharacters::QuoteEnd => or_none(alloc, quotes::end(text)),
        OfCharacters::RawLen => or_none(alloc, raw_len(text)),
        OfCharacters::PieceAt => piece_text(alloc, piece_at(text)),
    }
}

/// What is found of the characters of a text.
fn characters_answer(alloc: Global, asked: OfCharacters, text: &str) -> Result<String, AllocError> {
    of_characters(alloc, asked, &characters(alloc, text)?)
}

/// What is found of tokens.
fn of_tokens(alloc: Global, asked: OfTokens, tokens: &[Token]) -> Result<String, AllocError> {
    match asked {
        OfTokens::Kinds => kinds::kind_names(alloc, tokens),
        OfTokens::Count => format!(in alloc; "{} tokens", tokens.len()),
        OfTokens::All => described(alloc, tokens),
        OfTokens::IntegerValue => or_none(alloc, values::integer(tokens)),
        OfTokens::StringValue => or_none(alloc, values::string(alloc, tokens)?),
    }
}

/// What is found of the tokens of a text, or of the rejection.
fn tokens_answer(alloc: Global, asked: OfTokens, text: &str) -> Result<String, Fail> {
    match lex_answer(alloc, text)? {
        Ok(tokens) => Ok(of_tokens(alloc, asked, tokens.as_slice())?),
        Err(error) => Ok(refusals::refusal(alloc, asked, &error)?),
    }
}

/// What is found of a text.
fn answer(alloc: Global, call: Call, text: &str) -> Result<String, Fail> {
    match call {
        Call::Characters(asked) => Ok(characters_answer(alloc, asked, text)?),
        Call::Tokens(asked) => tokens_answer(alloc, asked, text),
        Call::Within => nesting::within(alloc, text),
        Call::DocValue => comments::doc_text(alloc, text),
        Call::IntValue => numbers::value(alloc, text),
        Call::StrValue => Ok(str_value(alloc, text)?),
        Call::RawValue => raw_strings::value(alloc, text),
        Call::Printed => printed_source(alloc, text),
        Call::Message => refusals::message(alloc, text),
        Call::LineColumn => refusals::place(alloc, text),
    }
}

/// What is found of each text of a table.
pub(crate) fn check(alloc: Global, call: Call, table: &str) -> Result<(), Fail> {
    check_rows(alloc, |alloc, text| answer(alloc, call, text), table)
}

/// What is found of the characters of each text of a table.
pub(crate) fn check_characters(
    alloc: Global,
    asked: OfCharacters,
    table: &str,
) -> Result<(), Fail> {
    check(alloc, Call::Characters(asked), table)
}

/// What is found of the tokens of each text of a table.
pub(crate) fn check_tokens(alloc: Global, asked: OfTokens, table: &str) -> Result<(), Fail> {
    check(alloc, Call::Tokens(asked), table)
}
