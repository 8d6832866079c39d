//! Expressions (Rust Reference, Expressions).
ghost use Rattle.educe_grammar.specs.Expressions as spec;
ghost use Rattle.educe_grammar.specs.NotedReads.{read};
ghost use Rattle.educe_grammar.specs.Steps.{Gives};

use crate::links::{linked_form, links_fit};
use crate::lookahead::AtLink;
use crate::operands::unary;
use crate::types::plain_type;
use educe_grammar::{
    Inside, Keyword, Link, ParseError, ParseStream, Parts, Production, Terminal, chain, written,
};
use educe_tree::{Expr, ExprForm};

/// `as` and a type, or an operator and its second operand (Rust Reference, Type cast
/// expressions; Arithmetic and logical binary operators).
struct OperatorLink;

impl<R: Inside> Production<Parts<R>> for OperatorLink {
    type Tree = Link;

    ghost ready = { λ parts budget. R.nests parts.inside budget };

    ghost reads = { λ budget. read budget spec.link };

    #[tactic(auto, unfolding(educe_grammar::proofs::Opened::rules, educe_grammar::specs::Expressions::link))]
    fn parse(
        parts: &Parts<R>,
        input: &mut ParseStream<'_>,
        budget: u8,
    ) -> Result<Link, ParseError> {
        if input.cursor.eat(Terminal::Word(Keyword::As)) {
            let (ty, ending) = plain_type(parts, input, budget)?;
            drop(ty);
            return Ok(Link::Cast(ending));
        }
        let operator = input.cursor.operator()?;
        unary(parts, input, budget)?;
        Ok(Link::Binary(operator))
    }
}

/// Operands with links between (Rust Reference, Operator expressions).
struct Operation;

impl<R: Inside> Production<Parts<R>> for Operation {
    type Tree = ExprForm;

    ghost ready = { λ parts budget. R.nests parts.inside budget };

    ghost reads = { λ budget. read budget spec.operation };

    #[tactic(auto, unfolding(educe_grammar::proofs::Opened::rules, educe_grammar::specs::Expressions::operation))]
    fn parse(
        parts: &Parts<R>,
        input: &mut ParseStream<'_>,
        budget: u8,
    ) -> Result<ExprForm, ParseError> {
        let operand = unary(parts, input, budget)?;
        let links = chain::<Parts<R>, OperatorLink, AtLink>(parts, input, budget)?;
        if !links_fit(links.as_slice()) {
            return Err(input.cursor.refuse());
        }
        Ok(linked_form(operand, links.as_slice()))
    }
}

/// An expression, with its tokens (Rust Reference, Expressions).
#[tactic(auto, using(educe_grammar::proofs::Copied::operation_copied), unfolding(educe_grammar::proofs::Opened::rules, educe_grammar::specs::Expressions::expression))]
pub fn expression<R: Inside>(
    parts: &Parts<R>,
    input: &mut ParseStream<'_>,
    budget: u8,
) -> Result<Expr, ParseError>
    requires { R.nests parts.now.inside budget }
    ensures { Gives (read budget spec.expression input.old) result input.new }
{
    let (form, written) = written::<Parts<R>, Operation>(parts, input, budget)?;
    Ok(Expr { form, written })
}
