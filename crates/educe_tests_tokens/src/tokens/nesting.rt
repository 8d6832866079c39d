//! Texts within a limit on nesting.

use crate::answers::{Call, OfTokens, check};
use crate::tokens::refusals::refusal;
use educe_tokens::{SOURCE_LIMIT, lex_within};
use std::alloc::{AllocError, Global};
use std::test::Fail;

/// A text of so many round brackets, one within the other.
fn nested(alloc: Global, depth: usize) -> Result<String, AllocError> {
    let mut text = String::new(alloc);
    for _ in 0..depth {
        text.push('(')?;
    }
    for _ in 0..depth {
        text.push(')')?;
    }
    Ok(text)
}

/// How many tokens a text has within a limit on nesting; or why it is rejected.
fn count_within(alloc: Global, limit: u32, text: &str) -> Result<String, Fail> {
    if text.len() > SOURCE_LIMIT {
        return Err(Fail::from("too long"));
    }
    match lex_within(alloc, text, limit) {
        Ok(tokens) => Ok(format!(in alloc; "{} tokens", tokens.len())?),
        Err(error) => Ok(refusal(alloc, OfTokens::Count, &error)?),
    }
}

/// What is found of brackets as deep as the second number says, within the limit that the first is.
pub(crate) fn within(alloc: Global, numbers: &str) -> Result<String, Fail> {
    let (limit, depth) = numbers.split_once(' ').ok_or(numbers)?;
    let limit = limit.parse::<u32>().ok().ok_or(numbers)?;
    let depth = depth.parse::<usize>().ok().ok_or(numbers)?;
    count_within(alloc, limit, &nested(alloc, depth)?)
}

static NESTED: &str = r#"
0 0
: 0 tokens

0 1
: TooDeep 0..1

1 1
: 2 tokens

1 2
: TooDeep 1..2

128 128
: 256 tokens

128 129
: TooDeep 128..129

129 129
: 258 tokens

129 130
: TooDeep 129..130

160 160
: 320 tokens
"#;

#[test]
fn nests_within_a_limit(rt: HostRuntime) -> Result<(), Fail> {
    check(rt.alloc(), Call::Within, NESTED)
}
