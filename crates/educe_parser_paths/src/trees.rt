//! Trees of tokens (Rust Reference, Token trees).
ghost use Rattle.educe_grammar.specs.Expressions as spec;
ghost use Rattle.educe_grammar.specs.NotedReads.{read, readers};
ghost use Rattle.educe_grammar.specs.Rules.{nest, trees};
ghost use Rattle.educe_grammar.specs.Steps.{Gives};

use crate::lookahead::at_tree;
use educe_grammar::{ParseError, ParseStream, Terminal, many};
use educe_tokens::Bracket;
use std::alloc::Global;

/// Token trees one behind the other (Rust Reference, Token trees).
#[cycle(trees)]
#[tactic(auto, unfolding(educe_grammar::proofs::Opened::rules, educe_grammar::specs::Expressions::some_trees))]
pub fn some_trees(alloc: Global, input: &mut ParseStream<'_>, budget: u8) -> Result<(), ParseError>
    ensures { Gives (read budget spec.some_trees input.old) result input.new }
{
    let one = |input: &mut ParseStream<'_>|
        ensures { Gives (readers budget trees input.entry.now) result input.exit.now }
    { tree(alloc, input, budget) };
    many(alloc, input, at_tree, one)?;
    Ok(())
}

/// Token trees in such brackets (Rust Reference, Delimited token trees).
#[cycle(trees)]
#[tactic(auto, unfolding(educe_grammar::proofs::Opened::rules))]
fn nested_trees(
    alloc: Global,
    input: &mut ParseStream<'_>,
    budget: u8,
    bracket: Bracket,
) -> Result<(), ParseError>
    ensures { Gives (read budget (nest bracket spec.some_trees) input.old) result input.new }
{
    let below = input.cursor.open(budget, bracket)?;
    some_trees(alloc, input, below)?;
    input.cursor.expect_close(bracket)?;
    Ok(())
}

/// A bracket pair with token trees inside (Rust Reference, Delimited token trees).
#[cycle(trees)]
#[tactic(auto, unfolding(educe_grammar::proofs::Opened::rules, educe_grammar::specs::Expressions::group))]
pub fn group(alloc: Global, input: &mut ParseStream<'_>, budget: u8) -> Result<(), ParseError>
    ensures { Gives (read budget spec.group input.old) result input.new }
{
    if input.cursor.opens(Bracket::Round) {
        return nested_trees(alloc, input, budget, Bracket::Round);
    }
    if input.cursor.opens(Bracket::Square) {
        return nested_trees(alloc, input, budget, Bracket::Square);
    }
    nested_trees(alloc, input, budget, Bracket::Curly)
}

/// One token tree (Rust Reference, Token trees).
#[cycle(trees)]
#[tactic(auto, using(educe_grammar::proofs::NotedUnrolling::readers_unroll), unfolding(educe_grammar::proofs::Opened::rules, educe_grammar::specs::Expressions::tree))]
pub fn tree(alloc: Global, input: &mut ParseStream<'_>, budget: u8) -> Result<(), ParseError>
    ensures { Gives (readers budget trees input.old) result input.new }
{
    if input.cursor.eat(Terminal::Leaf) {
        return Ok(());
    }
    group(alloc, input, budget)
}
