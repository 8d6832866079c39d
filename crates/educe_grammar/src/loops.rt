//! The loops of the parser: lists, sequences, chains and paths.
ghost use Rattle.std.specs.Prelude.{◌≡◌, suc, [], ◌∷◌, length};
ghost use Rattle.educe_grammar.specs.Ahead.{Look, Decides};
ghost use Rattle.educe_grammar.specs.Parsed.{depth_limit};
ghost use Rattle.educe_grammar.specs.Reading.{chain_limit};
ghost use Rattle.educe_grammar.specs.Noting as spec;
ghost use Rattle.educe_grammar.specs.Noting.{Noter, items, repeat, links};
ghost use Rattle.educe_grammar.specs.Steps.{Gives, ReadsAs};
ghost use Rattle.educe_grammar.specs.Terminals.{accepts};

use crate::cursor::Cursor;
use crate::parse_error::ParseError;
use crate::parse_stream::{ParseStream, SelfPath};
use crate::production::{Context, Lookahead, Production};
use crate::terminal::{Keyword, Terminal};
use educe_tokens::{NESTING, Seq};
use std::alloc::Global;

/// The values of the limits on nesting and on the links of a chain.
pub fn limits()
    ensures nesting { depth_limit ≡ 128 }
    ensures chain { chain_limit ≡ 128 }
{}

/// Parses separated items with an optional trailing separator, up to what the lookahead accepts.
pub fn list<C: Context, P: Production<C>, S: Lookahead>(
    context: &C,
    input: &mut ParseStream<'_>,
    budget: u8,
    separator: Terminal,
) -> Result<Seq<P::Tree>, ParseError>
    requires { P.ready context.now budget }
    ensures { Gives (items (accepts separator) S.look (P.reads budget) (suc (length input.old.cursor)) [] input.old) result input.new }
{
    let mut found = Seq::new(context.alloc());
    for _turn in 0..input.cursor.left() + 1 {
        if S::is_next(&input.cursor) {
            return Ok(found);
        }
        found.push(P::parse(context, input, budget)?)?;
        if !input.cursor.eat(separator) {
            return Ok(found);
        }
    }
    Err(input.cursor.refuse())
}

/// Parses items as long as the lookahead accepts the tokens.
pub fn many<
    T: Drop,
    S: Fn(&Cursor<'_>) -> bool,
    F: Fn(&mut ParseStream<'_>) -> Result<T, ParseError>,
>(alloc: Global, input: &mut ParseStream<'_>, begins: S, item: F) -> Result<Seq<T>, ParseError>
    requires begins { S.IsAlwaysCallable begins }
    requires item { F.IsAlwaysCallable item }
    ensures { (look : Look) (read : Noter T) → Decides look (S.post begins) → ReadsAs read (F.post item)
        → Gives (repeat look read (suc (length input.old.cursor)) [] input.old) result input.new }
{
    let mut found = Seq::new(alloc);
    for _turn in 0..input.cursor.left() + 1 {
        if !begins(&input.cursor) {
            return Ok(found);
        }
        found.push(item(input)?)?;
    }
    Err(input.cursor.refuse())
}

/// Parses items as long as the lookahead accepts the tokens; more than `NESTING` are rejected as
/// too deep.
pub fn chain<C: Context, P: Production<C>, S: Lookahead>(
    context: &C,
    input: &mut ParseStream<'_>,
    budget: u8,
) -> Result<Seq<P::Tree>, ParseError>
    requires { P.ready context.now budget }
    ensures { Gives (links S.look (P.reads budget) chain_limit [] input.old) result input.new }
{
    let mut found = Seq::new(context.alloc());
    for _link in 0..NESTING {
        if !S::is_next(&input.cursor) {
            return Ok(found);
        }
        found.push(P::parse(context, input, budget)?)?;
    }
    if S::is_next(&input.cursor) {
        return Err(ParseError::TooDeep(input.cursor.left()));
    }
    Ok(found)
}

/// Parses further items, each after `::`, and appends them to these (Rust Reference, Paths).
fn further<C: Context, P: Production<C>>(
    context: &C,
    input: &mut ParseStream<'_>,
    budget: u8,
    turns: usize,
    first: P::Tree,
) -> Result<Seq<P::Tree>, ParseError>
    requires { P.ready context.now budget }
    ensures { Gives (spec.further (P.reads budget) turns (first ∷ []) input.old) result input.new }
{
    let mut found = Seq::new(context.alloc());
    found.push(first)?;
    for _turn in 0..turns {
        if !input.cursor.eat_pair(':', ':') {
            return Ok(found);
        }
        found.push(P::parse(context, input, budget)?)?;
    }
    if input.cursor.eat_pair(':', ':') {
        return Err(input.cursor.refuse());
    }
    Ok(found)
}

/// Parses at least one item, with `::` between items, and notes a path that begins with `Self`
/// (Rust Reference, Paths).
pub fn path<C: Context, P: Production<C>>(
    context: &C,
    input: &mut ParseStream<'_>,
    budget: u8,
) -> Result<Seq<P::Tree>, ParseError>
    requires { P.ready context.now budget }
    ensures { Gives (spec.segments (P.reads budget) input.old) result input.new }
{
    let is_self = input.cursor.sees(Terminal::Word(Keyword::SelfType));
    let start = input.cursor.left();
    let item = P::parse(context, input, budget)?;
    let first = input.cursor.left();
    let found = further::<C, P>(context, input, budget, start, item)?;
    if is_self {
        let behind = input.cursor.left();
        input.selves.push(SelfPath {
            start,
            first,
            behind,
        })?;
    }
    Ok(found)
}
