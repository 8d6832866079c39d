//! The mutual recursion of types and expressions, and the productions that start it, each with a
//! budget for nesting.
ghost use Rattle.educe_grammar.specs.Attributes as attributes;
ghost use Rattle.educe_grammar.specs.Definitions as definitions;
ghost use Rattle.educe_grammar.specs.Expressions as spec;
ghost use Rattle.educe_grammar.specs.Generics as generics;
ghost use Rattle.educe_grammar.specs.NotedReads.{read, readers};
ghost use Rattle.educe_grammar.specs.Rules.{types, plains, exprs};
ghost use Rattle.educe_grammar.specs.Steps.{Gives};
ghost use Rattle.educe_grammar.specs.Types.{any_type};

use crate::readers::Readers;
use educe_grammar::{ParseError, ParseStream, Parts, Typed};
use educe_tokens::NESTING;
use educe_tree::{
    DeriveInput, Expr, ExprPath, GenericParam, Metas, Params, Predicates, Ty, WherePredicate,
};
use std::alloc::Global;

/// The limit on the nesting of brackets, angle lists, `&`, `*`, `dyn` and `->`.
pub const DEPTH_LIMIT: u8 = NESTING as u8;

// What reads the parts inside by the functions of this file.
macro_rules! parts {
    ($alloc:expr) => {
        Parts {
            alloc: $alloc,
            inside: Readers {
                types: ty,
                plains: plain,
                exprs: expr,
            },
        }
    };
}

/// A type (Rust Reference, Types).
#[cycle(knot)]
#[tactic(auto, using(educe_grammar::proofs::NotedUnrolling::readers_unroll))]
fn ty(alloc: Global, input: &mut ParseStream<'_>, budget: u8) -> Result<Ty, ParseError>
    ensures { Gives (readers budget types input.old) result input.new }
{
    educe_parser_expressions::any_type(&parts!(alloc), input, budget)
}

/// A type whose `dyn` has one bound (Rust Reference, Type expressions).
#[cycle(knot)]
#[tactic(auto, using(educe_grammar::proofs::NotedUnrolling::readers_unroll))]
fn plain(alloc: Global, input: &mut ParseStream<'_>, budget: u8) -> Result<Typed, ParseError>
    ensures { Gives (readers budget plains input.old) result input.new }
{
    educe_parser_expressions::plain_type(&parts!(alloc), input, budget)
}

/// An expression (Rust Reference, Expressions).
#[cycle(knot)]
#[tactic(auto, using(educe_grammar::proofs::NotedUnrolling::readers_unroll))]
fn expr(alloc: Global, input: &mut ParseStream<'_>, budget: u8) -> Result<Expr, ParseError>
    ensures { Gives (readers budget exprs input.old) result input.new }
{
    educe_parser_expressions::expression(&parts!(alloc), input, budget)
}

/// Parses a type, with this budget (Rust Reference, Types).
pub fn any_type(alloc: Global, input: &mut ParseStream<'_>, budget: u8) -> Result<Ty, ParseError>
    ensures { Gives (read budget any_type input.old) result input.new }
{
    educe_parser_expressions::any_type(&parts!(alloc), input, budget)
}

/// Parses a path in an expression, with this budget (Rust Reference, Path expressions).
pub fn expr_path(
    alloc: Global,
    input: &mut ParseStream<'_>,
    budget: u8,
) -> Result<ExprPath, ParseError>
    ensures { Gives (read budget spec.expr_path input.old) result input.new }
{
    educe_parser_expressions::expr_path(&parts!(alloc), input, budget)
}

/// Parses an expression, with this budget (Rust Reference, Expressions).
pub fn expression(
    alloc: Global,
    input: &mut ParseStream<'_>,
    budget: u8,
) -> Result<Expr, ParseError>
    ensures { Gives (read budget spec.expression input.old) result input.new }
{
    educe_parser_expressions::expression(&parts!(alloc), input, budget)
}

/// Parses a generic parameter, with this budget (Rust Reference, Generic parameters).
pub fn generic_param(
    alloc: Global,
    input: &mut ParseStream<'_>,
    budget: u8,
) -> Result<GenericParam, ParseError>
    ensures { Gives (read budget generics.generic_param input.old) result input.new }
{
    educe_parser_definitions::generic_param(&parts!(alloc), input, budget)
}

/// Parses the generic parameters of a header, without its angle brackets, with this budget (Rust
/// Reference, Generic parameters).
pub fn params(alloc: Global, input: &mut ParseStream<'_>, budget: u8) -> Result<Params, ParseError>
    ensures { Gives (read budget generics.params input.old) result input.new }
{
    educe_parser_definitions::params(&parts!(alloc), input, budget)
}

/// Parses a predicate of a where clause, with this budget (Rust Reference, Where clauses).
pub fn where_predicate(
    alloc: Global,
    input: &mut ParseStream<'_>,
    budget: u8,
) -> Result<WherePredicate, ParseError>
    ensures { Gives (read budget generics.predicate input.old) result input.new }
{
    educe_parser_definitions::where_predicate(&parts!(alloc), input, budget)
}

/// Parses the predicates of a where clause, with this budget (Rust Reference, Where clauses).
pub fn predicates(
    alloc: Global,
    input: &mut ParseStream<'_>,
    budget: u8,
) -> Result<Predicates, ParseError>
    ensures { Gives (read budget generics.predicates input.old) result input.new }
{
    educe_parser_definitions::predicates(&parts!(alloc), input, budget)
}

/// Parses the items of a list in an attribute, with this budget (Rust Reference, Meta item attribute
/// syntax).
pub fn metas(alloc: Global, input: &mut ParseStream<'_>, budget: u8) -> Result<Metas, ParseError>
    ensures { Gives (read budget attributes.metas input.old) result input.new }
{
    educe_parser_definitions::metas(&parts!(alloc), input, budget)
}

/// Parses a definition, with this budget (Rust Reference, Items).
pub fn definition(
    alloc: Global,
    input: &mut ParseStream<'_>,
    budget: u8,
) -> Result<DeriveInput, ParseError>
    ensures { Gives (read budget definitions.definition input.old) result input.new }
{
    educe_parser_definitions::definition(&parts!(alloc), input, budget)
}
