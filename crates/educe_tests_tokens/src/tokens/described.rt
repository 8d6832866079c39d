//! Tokens as a text that tests compare.

use educe_tokens::{Span, Token};
use std::alloc::{AllocError, Global};

/// Appends where a token stands, its kind and its spelling.
fn push_token(lines: &mut String, token: &Token) -> Result<(), AllocError> {
    let Span { start, end } = token.span;
    let spelling = token.spelling.as_str();
    write!(lines, "{start}..{end} {:?} {spelling}", token.kind)
}

/// Where each token stands, its kind and its spelling, a token a line.
pub(crate) fn described(alloc: Global, tokens: &[Token]) -> Result<String, AllocError> {
    let mut lines = String::new(alloc);
    let mut between = "";
    for token in tokens {
        lines.push_str(between)?;
        push_token(&mut lines, token)?;
        between = "\n";
    }
    Ok(lines)
}
