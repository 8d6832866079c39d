//! Parsing of whole lists of tokens.
ghost use Rattle.std.specs.Prelude.{◌≡◌};
ghost use Rattle.educe_grammar.specs.Parsed as spec;
ghost use Rattle.educe_grammar.specs.Noting.{Noter, Forgets};
ghost use Rattle.educe_grammar.specs.Steps.{Parser, ReadsAs};
ghost use Rattle.educe_syntax.specs.Answers.{IsAnswer};

use educe_grammar::{ParseError, ParseStream};
use educe_tokens::{EduceError, Kind, Span, Token, TokenSlice};
use std::alloc::Global;

/// The empty span at the end of the last token.
fn end_place(tokens: &[Token]) -> Span
    ensures { result ≡ spec.end_place tokens.now }
{
    match tokens.last() {
        Some(token) => Span {
            start: token.span.end,
            end: token.span.end,
        },
        None => Span::NONE,
    }
}

/// The span of the token at which this many are left; the empty span at the end where none is left.
fn place_at(tokens: &[Token], left: usize) -> Span
    ensures { result ≡ spec.place_at tokens.now left }
{
    match tokens.get(tokens.len().saturating_sub(left)) {
        Some(token) => token.span,
        None => end_place(tokens),
    }
}

/// The rejection of the tokens that an error of the parser becomes.
fn refusal(alloc: Global, tokens: &[Token], error: ParseError) -> EduceError
    ensures { result ≡ spec.refusal_of tokens.now error }
{
    match error {
        ParseError::Memory => EduceError::alloc(alloc),
        ParseError::Syntax(left) => EduceError::new(alloc, Kind::Syntax, place_at(tokens, left)),
        ParseError::TooDeep(left) => EduceError::new(alloc, Kind::TooDeep, place_at(tokens, left)),
    }
}

/// The value of all of the tokens, by this function.
pub fn whole<T: Drop, F: Fn(&mut ParseStream<'_>) -> Result<T, ParseError>>(
    alloc: Global,
    tokens: &TokenSlice,
    item: F,
) -> Result<T, EduceError>
    requires { F.IsAlwaysCallable item }
    ensures { (note : Noter T) (program : Parser T) → ReadsAs note (F.post item) → Forgets note program →
        IsAnswer program tokens.now result }
{
    let mut input = ParseStream::new(alloc, tokens);
    match item(&mut input) {
        Ok(found) if input.cursor.at_end() => Ok(found),
        Ok(_) => Err(refusal(alloc, tokens.as_slice(), input.cursor.refuse())),
        Err(error) => Err(refusal(alloc, tokens.as_slice(), error)),
    }
}
