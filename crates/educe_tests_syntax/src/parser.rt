//! What `parse_derive_input` and the calls for parts of a definition answer: for each production of
//! the grammar texts that it allows, and texts that differ by a token and are none. Where `rustc`
//! reads the syntax that is carried, it answers the same but for the differences in the documents.

ghost use Rattle.std.specs.Prelude.{◌≤◌};

use educe_syntax::{
    parse_derive_input, parse_expr, parse_expr_within, parse_ident, parse_metas,
    parse_params_within, parse_path, parse_path_within, parse_predicates, parse_predicates_within,
    parse_type_within,
};
use educe_tests::lex_answer;
use educe_tokens::{EduceError, Kind, TokenSlice};
use std::alloc::Global;
use std::test::Fail;

pub(crate) mod calls;
mod definitions;
mod expressions;
mod generics;
pub(crate) mod limits;
mod names;
pub(crate) mod parts;
mod types;

/// The parts of a definition that calls with a budget read.
#[derive(Clone, Copy)]
pub(crate) enum Part {
    Type,
    Params,
    Path,
    Predicates,
    Expr,
}

/// The calls of the parser.
#[derive(Clone, Copy)]
pub(crate) enum Call {
    Derive,
    Metas,
    Ident,
    Path,
    Expr,
    Predicates,
    /// The call with this budget for nesting, 129 at most.
    Within(Part, u32),
}

/// The kind and the place of a rejection, where there is one.
type Refusal = Option<(Kind, (u32, u32))>;

/// What the rejection is called.
fn kind_name(kind: Kind) -> &'static str {
    match kind {
        Kind::Syntax => "Syntax",
        Kind::TooDeep => "TooDeep",
        Kind::NotCarried => "NotCarried",
        Kind::DuplicateName => "DuplicateName",
        _ => "another",
    }
}

/// What an answer is called: `Ok`, or what the rejection is called.
fn answer_name<T: Drop>(answer: Result<T, EduceError>) -> &'static str {
    match answer {
        Ok(_) => "Ok",
        Err(error) => kind_name(error.kind),
    }
}

/// The kind and the place of the rejection that is answered, if one is.
fn refusal<T: Drop>(answer: Result<T, EduceError>) -> Refusal {
    match answer {
        Ok(_) => None,
        Err(error) => Some((error.kind, (error.span.start, error.span.end))),
    }
}

/// The budget, or the largest one that a call takes.
fn within_limit(budget: u32) -> u32
    ensures { result ≤ 129 }
{
    if budget > 129 { 129 } else { budget }
}

/// How a call with a budget rejects the tokens, if it does.
fn refusal_within(alloc: Global, part: Part, tokens: &TokenSlice, budget: u32) -> Refusal
    requires { budget ≤ 129 }
{
    match part {
        Part::Type => refusal(parse_type_within(alloc, tokens, budget)),
        Part::Params => refusal(parse_params_within(alloc, tokens, budget)),
        Part::Path => refusal(parse_path_within(alloc, tokens, budget)),
        Part::Predicates => refusal(parse_predicates_within(alloc, tokens, budget)),
        Part::Expr => refusal(parse_expr_within(alloc, tokens, budget)),
    }
}

/// How a call rejects the tokens, if it does.
fn refusal_of(alloc: Global, call: Call, tokens: &TokenSlice) -> Refusal {
    match call {
        Call::Derive => refusal(parse_derive_input(alloc, tokens)),
        Call::Metas => refusal(parse_metas(alloc, tokens)),
        Call::Ident => refusal(parse_ident(alloc, tokens)),
        Call::Path => refusal(parse_path(alloc, tokens)),
        Call::Expr => refusal(parse_expr(alloc, tokens)),
        Call::Predicates => refusal(parse_predicates(alloc, tokens)),
        Call::Within(part, budget) => refusal_within(alloc, part, tokens, within_limit(budget)),
    }
}

/// What is answered for a source.
fn answer(alloc: Global, source: &str) -> Result<&'static str, Fail> {
    match lex_answer(alloc, source)? {
        Ok(tokens) => {
            let tokens = TokenSlice::new(alloc, tokens)?;
            Ok(answer_name(parse_derive_input(alloc, &tokens)))
        }
        Err(error) => Ok(kind_name(error.kind)),
    }
}

/// What is answered for a source, as a text.
pub(crate) fn answer_text(alloc: Global, source: &str) -> Result<String, Fail> {
    Ok(String::from_str(alloc, answer(alloc, source)?)?)
}
