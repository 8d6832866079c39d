//! Attributes and metas (Rust Reference, Attributes).
ghost use Rattle.std.specs.Prelude.{◌≡◌, ◌+◌, ⊤};
ghost use Rattle.educe_grammar.specs.Attributes as spec;
ghost use Rattle.educe_grammar.specs.Expressions.{group};
ghost use Rattle.educe_grammar.specs.Names.{mere_token, simple_path};
ghost use Rattle.educe_grammar.specs.NotedReads.{read};
ghost use Rattle.educe_grammar.specs.Rules as rule;
ghost use Rattle.educe_grammar.specs.Steps.{Gives, since};
ghost use Rattle.educe_grammar.specs.declared.terminal.Terminal.TheVariants as terminal;

use crate::lookahead::{AtEnd, at_attribute, at_group};
use educe_grammar::{
    Cursor, Inside, ParseError, ParseStream, Parts, Production, Terminal, list, many, nested, path,
    written,
};
use educe_parser_paths::{group, skip_colons, some_trees, tree};
use educe_tokens::{Bracket, Seq, Span, Written, pair, unit};
use educe_tree::{Attribute, Attributes, Meta, MetaPath, Metas};
use std::alloc::Global;

/// From the first token that was read since the start to the last.
#[tactic(auto, unfolding(educe_grammar::specs::Steps::since, educe_grammar::specs::Attributes::span_of))]
pub fn span_since(start: &Cursor<'_>, cursor: &Cursor<'_>) -> Span
    ensures { result ≡ spec.span_of (since start.now cursor.now) }
{
    let count = start.left().saturating_sub(cursor.left());
    let read = &start.rest()[..count];
    match (read.first(), read.last()) {
        (Some(first), Some(last)) => Span {
            start: first.span.start,
            end: last.span.end,
        },
        _ => Span::NONE,
    }
}

/// A word in the path of a meta, of which nothing is kept (Rust Reference, Simple paths).
struct PathWord;

impl Production<Global> for PathWord {
    type Tree = ();

    ghost ready = { λ _ _. ⊤ };

    ghost reads = { λ budget. read budget (mere_token terminal.AnyWord) };

    #[tactic(auto, unfolding(educe_grammar::proofs::Opened::rules, educe_grammar::specs::Names::mere_token))]
    fn parse(_alloc: &Global, input: &mut ParseStream<'_>, _budget: u8) -> Result<(), ParseError> {
        unit(input.cursor.expect(Terminal::AnyWord))
    }
}

/// Words with `::` between, and maybe before the first (Rust Reference, Simple paths).
struct WordPath;

impl Production<Global> for WordPath {
    type Tree = (bool, Seq<()>);

    ghost ready = { λ _ _. ⊤ };

    ghost reads = { λ budget. read budget (simple_path terminal.AnyWord) };

    #[tactic(auto, unfolding(educe_grammar::proofs::Opened::rules, educe_grammar::specs::Names::simple_path))]
    fn parse(
        alloc: &Global,
        input: &mut ParseStream<'_>,
        budget: u8,
    ) -> Result<(bool, Seq<()>), ParseError> {
        let leading = skip_colons(input);
        let segments = path::<Global, PathWord>(alloc, input, budget)?;
        Ok((leading, segments))
    }
}

/// The path that a meta begins with (Rust Reference, Simple paths).
#[tactic(auto, using(educe_grammar::proofs::Copied::words_copied), unfolding(educe_grammar::proofs::Opened::rules, educe_grammar::specs::Attributes::meta_path))]
fn meta_path(alloc: Global, input: &mut ParseStream<'_>, budget: u8) -> Result<MetaPath, ParseError>
    ensures { Gives (read budget spec.meta_path input.old) result input.new }
{
    let (_, written) = written::<Global, WordPath>(&alloc, input, budget)?;
    Ok(MetaPath { written })
}

/// A bracket pair around trees (Rust Reference, Delimited token trees).
struct Group;

impl Production<Global> for Group {
    type Tree = ();

    ghost ready = { λ _ _. ⊤ };

    ghost reads = { λ budget. read budget group };

    #[tactic(auto, unfolding(educe_grammar::proofs::Opened::rules))]
    fn parse(alloc: &Global, input: &mut ParseStream<'_>, budget: u8) -> Result<(), ParseError> {
        group(*alloc, input, budget)
    }
}

/// A bracket pair, as it was written (Rust Reference, Delimited token trees).
#[tactic(auto, using(educe_grammar::proofs::Copied::group_copied), unfolding(educe_grammar::proofs::Opened::rules))]
fn written_group(
    alloc: Global,
    input: &mut ParseStream<'_>,
    budget: u8,
) -> Result<((), Written), ParseError>
    ensures { Gives (read budget (rule.written group) input.old) result input.new }
{
    written::<Global, Group>(&alloc, input, budget)
}

/// `=` and tokens that are not read (Rust Reference, Meta item attribute syntax).
struct UnreadValue;

impl Production<Global> for UnreadValue {
    type Tree = ();

    ghost ready = { λ _ _. ⊤ };

    ghost reads = { λ budget. read budget spec.unread_value };

    #[tactic(auto, unfolding(educe_grammar::proofs::Opened::rules, educe_grammar::specs::Attributes::unread_value))]
    fn parse(alloc: &Global, input: &mut ParseStream<'_>, budget: u8) -> Result<(), ParseError> {
        input.cursor.expect(Terminal::Sign('='))?;
        tree(*alloc, input, budget)?;
        some_trees(*alloc, input, budget)
    }
}

/// `=` and tokens that are not read, as they were written.
#[tactic(auto, using(educe_grammar::proofs::Copied::unread_value_copied), unfolding(educe_grammar::proofs::Opened::rules))]
fn written_value(
    alloc: Global,
    input: &mut ParseStream<'_>,
    budget: u8,
) -> Result<((), Written), ParseError>
    ensures { Gives (read budget (rule.written spec.unread_value) input.old) result input.new }
{
    written::<Global, UnreadValue>(&alloc, input, budget)
}

/// What an attribute says, with a value that is not read (Rust Reference, Attributes).
struct OuterMeta;

impl Production<Global> for OuterMeta {
    type Tree = Meta;

    ghost ready = { λ _ _. ⊤ };

    ghost reads = { λ budget. read budget spec.outer_meta };

    #[tactic(auto, unfolding(educe_grammar::proofs::Opened::rules, educe_grammar::specs::Attributes::outer_meta, educe_grammar::specs::Attributes::written_group, educe_grammar::specs::Attributes::unread))]
    fn parse(alloc: &Global, input: &mut ParseStream<'_>, budget: u8) -> Result<Meta, ParseError> {
        let start = input.cursor.mark();
        let path = meta_path(*alloc, input, budget)?;
        if at_group(&input.cursor) {
            let (path, (_, tokens)) = pair(path, written_group(*alloc, input, budget))?;
            return Ok(Meta::List(path, tokens, span_since(&start, &input.cursor)));
        }
        if input.cursor.sees(Terminal::Sign('=')) {
            let (path, (_, tokens)) = pair(path, written_value(*alloc, input, budget))?;
            return Ok(Meta::Unread(path, tokens, span_since(&start, &input.cursor)));
        }
        Ok(Meta::Word(path))
    }
}

/// An attribute or a comment of documentation (Rust Reference, Attributes; Doc comments).
#[tactic(auto, unfolding(educe_grammar::proofs::Opened::rules, educe_grammar::specs::Attributes::attribute))]
fn attribute(
    alloc: Global,
    input: &mut ParseStream<'_>,
    budget: u8,
) -> Result<Attribute, ParseError>
    ensures { Gives (read budget spec.attribute input.old) result input.new }
{
    if input.cursor.documents() {
        let comment = input.cursor.expect_doc()?;
        let meta = Meta::Doc(comment.duplicate(alloc)?);
        return Ok(Attribute { meta });
    }
    input.cursor.expect(Terminal::Sign('#'))?;
    let meta = nested::<Global, OuterMeta>(&alloc, input, budget, Bracket::Square)?;
    Ok(Attribute { meta })
}

/// The attributes before a definition, a field or a variant (Rust Reference, Attributes).
#[tactic(auto, unfolding(educe_grammar::proofs::Opened::rules, educe_grammar::specs::Attributes::attributes))]
pub fn attributes(
    alloc: Global,
    input: &mut ParseStream<'_>,
    budget: u8,
) -> Result<Attributes, ParseError>
    ensures { Gives (read budget spec.attributes input.old) result input.new }
{
    many(
        alloc,
        input,
        at_attribute,
        |input| attribute(alloc, input, budget),
    )
}

/// An item of a list in an attribute (Rust Reference, Meta item attribute syntax).
struct MetaItem;

impl<R: Inside> Production<Parts<R>> for MetaItem {
    type Tree = Meta;

    ghost ready = { λ parts budget. R.nests parts.inside (budget + 1) };

    ghost reads = { λ budget. read budget spec.meta };

    #[tactic(auto, unfolding(educe_grammar::proofs::Opened::rules, educe_grammar::specs::Attributes::meta, educe_grammar::specs::Attributes::written_group))]
    fn parse(
        parts: &Parts<R>,
        input: &mut ParseStream<'_>,
        budget: u8,
    ) -> Result<Meta, ParseError> {
        let start = input.cursor.mark();
        let path = meta_path(parts.alloc, input, budget)?;
        if at_group(&input.cursor) {
            let (path, (_, tokens)) = pair(path, written_group(parts.alloc, input, budget))?;
            return Ok(Meta::List(path, tokens, span_since(&start, &input.cursor)));
        }
        if input.cursor.eat(Terminal::Sign('=')) {
            let (path, value) = pair(path, parts.expr(input, budget))?;
            return Ok(Meta::NameValue(path, value, span_since(&start, &input.cursor)));
        }
        Ok(Meta::Word(path))
    }
}

/// The items of a list in an attribute (Rust Reference, Meta item attribute syntax).
#[tactic(auto, unfolding(educe_grammar::proofs::Opened::rules, educe_grammar::specs::Attributes::metas))]
pub fn metas<R: Inside>(
    parts: &Parts<R>,
    input: &mut ParseStream<'_>,
    budget: u8,
) -> Result<Metas, ParseError>
    requires { R.nests parts.now.inside (budget + 1) }
    ensures { Gives (read budget spec.metas input.old) result input.new }
{
    list::<Parts<R>, MetaItem, AtEnd>(parts, input, budget, Terminal::Sign(','))
}
