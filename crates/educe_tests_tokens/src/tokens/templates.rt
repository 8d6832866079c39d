//! Tokens of templates, parts of lists, and copies.

use crate::tokens::described::described;
use educe_tests::check_text;
use educe_tokens::{TokenSlice, TokenStream, Written, append_written, quote};
use std::alloc::{AllocError, Global};
use std::test::Fail;

/// The tokens of a template, and behind them those of an equal list that may be printed anywhere.
#[tactic(auto, unfolding(educe_tokens::specs::Quote::quoted))]
fn quoted_twice(alloc: Global) -> Result<String, AllocError> {
    let mut tokens = TokenStream::new(alloc);
    quote(alloc, &mut tokens, "fn f_1 ( & self ) -> :: X { _ }")?;
    let copy = Written::from_template(alloc, "fn f_1 ( & self ) -> :: X { _ }")?;
    append_written(alloc, &mut tokens, &copy)?;
    described(alloc, tokens.into_tokens(alloc)?.as_slice())
}

#[test]
fn quotes_and_appends(rt: HostRuntime) -> Result<(), Fail> {
    check_text(
        quoted_twice(rt.alloc())?,
        "0..0 Ident fn\n\
         0..0 Ident f_1\n\
         0..0 Start(Round) (\n\
         0..0 Punct('&', false) &\n\
         0..0 Ident self\n\
         0..0 Stop(Round) )\n\
         0..0 Punct('-', true) -\n\
         0..0 Punct('>', false) >\n\
         0..0 Punct(':', true) :\n\
         0..0 Punct(':', false) :\n\
         0..0 Ident X\n\
         0..0 Start(Curly) {\n\
         0..0 Ident _\n\
         0..0 Stop(Curly) }\n\
         0..0 Ident fn\n\
         0..0 Ident f_1\n\
         0..0 Start(Round) (\n\
         0..0 Punct('&', false) &\n\
         0..0 Ident self\n\
         0..0 Stop(Round) )\n\
         0..0 Punct('-', true) -\n\
         0..0 Punct('>', false) >\n\
         0..0 Punct(':', true) :\n\
         0..0 Punct(':', false) :\n\
         0..0 Ident X\n\
         0..0 Start(Curly) {\n\
         0..0 Ident _\n\
         0..0 Stop(Curly) }",
    )
}

/// How many tokens there are, and their spellings.
fn spellings(alloc: Global, tokens: &TokenSlice) -> Result<String, AllocError> {
    let mut spellings = format!(in alloc; "{}:", tokens.len())?;
    for token in tokens.as_slice() {
        write!(spellings, " {}", token.spelling.as_str())?;
    }
    Ok(spellings)
}

/// A part of a list.
fn part(all: &TokenSlice, (start, end): (usize, usize)) -> Result<TokenSlice, Fail> {
    if start > end || end > all.len() {
        return Err(Fail::from("no such part"));
    }
    Ok(all.part(start, end)?)
}

/// A part of a list, which is given away.
fn part_of(all: TokenSlice, places: (usize, usize)) -> Result<TokenSlice, Fail> {
    Ok(part(&all, places)?.duplicate()?)
}

/// The tokens of a template.
fn template(alloc: Global) -> Result<TokenSlice, AllocError> {
    let mut tokens = TokenStream::new(alloc);
    quote(alloc, &mut tokens, "a :: b c")?;
    tokens.into_slice(alloc)
}

/// The spellings of a part of a part, when the lists around it are gone.
fn part_of_part(
    alloc: Global,
    outer: (usize, usize),
    inner: (usize, usize),
) -> Result<String, Fail> {
    let part = part_of(part_of(template(alloc)?, outer)?, inner)?;
    Ok(spellings(alloc, &part)?)
}

#[test]
fn parts_share_a_list(rt: HostRuntime) -> Result<(), Fail> {
    let alloc = rt.alloc();
    check_text(part_of_part(alloc, (0, 5), (0, 5))?, "5: a : : b c")?;
    check_text(part_of_part(alloc, (1, 4), (0, 3))?, "3: : : b")?;
    check_text(part_of_part(alloc, (1, 4), (2, 3))?, "1: b")?;
    check_text(part_of_part(alloc, (1, 4), (3, 3))?, "0:")
}

/// The part `a:` of `a::b`.
fn front(alloc: Global) -> Result<Written, Fail> {
    let mut tokens = TokenStream::new(alloc);
    quote(alloc, &mut tokens, "a :: b")?;
    let all = tokens.into_slice(alloc)?;
    if all.len() != 4 {
        return Err(Fail::from("not 4 tokens"));
    }
    Ok(Written::new(all.part(0, 2)?).duplicate()?)
}

/// The part as it is copied to another place.
fn copied(alloc: Global, part: &Written) -> Result<String, AllocError> {
    let mut copies = TokenStream::new(alloc);
    append_written(alloc, &mut copies, part)?;
    described(alloc, copies.into_tokens(alloc)?.as_slice())
}

/// The part as it is, and as it is copied to another place.
fn check_part(alloc: Global, part: &Written) -> Result<(), Fail> {
    check_text(
        described(alloc, part.tokens().as_slice())?,
        "0..0 Ident a\n0..0 Punct(':', true) :",
    )?;
    check_text(
        copied(alloc, part)?,
        "0..0 Ident a\n0..0 Punct(':', false) :",
    )
}

#[test]
fn a_copy_ends_apart(rt: HostRuntime) -> Result<(), Fail> {
    check_part(rt.alloc(), &front(rt.alloc())?)
}
