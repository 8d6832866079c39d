//! The mutual recursion of the grammar: types and expressions that nest in other constructs.
ghost use Rattle.std.specs.Prelude.{◌+◌, ℕ};
ghost use Rattle.educe_grammar.specs.NotedReads.{readers};
ghost use Rattle.educe_grammar.specs.Rules.{types, plains, exprs};
ghost use Rattle.educe_grammar.specs.Steps.{Gives};

use crate::ending::Ending;
use crate::parse_error::ParseError;
use crate::parse_stream::ParseStream;
use crate::production::Production;
use educe_tree::{Expr, Ty};
use std::alloc::Global;

/// A type with its ending.
pub type Typed = (Ty, Ending);

/// The parser of types and expressions that nest in other constructs, where less budget is left for
/// them.
pub trait Inside {
    // It parses with each budget below the bound.
    ghost nests: { Self → ℕ → Type 0 };

    // What parses with each budget below a bound parses with each budget below a smaller one.
    ghost fewer: { (inside : Self) (bound : ℕ) → nests inside (bound + 1) → nests inside bound };

    /// Parses a type (Rust Reference, Types).
    fn ty(&self, alloc: Global, input: &mut ParseStream<'_>, budget: u8) -> Result<Ty, ParseError>
        requires { nests self.now (budget + 1) }
        ensures { Gives (readers budget types input.old) result input.new };

    /// Parses a type in which `dyn` has one bound (Rust Reference, Type expressions).
    fn plain(
        &self,
        alloc: Global,
        input: &mut ParseStream<'_>,
        budget: u8,
    ) -> Result<Typed, ParseError>
        requires { nests self.now (budget + 1) }
        ensures { Gives (readers budget plains input.old) result input.new };

    /// Parses an expression (Rust Reference, Expressions).
    fn expr(
        &self,
        alloc: Global,
        input: &mut ParseStream<'_>,
        budget: u8,
    ) -> Result<Expr, ParseError>
        requires { nests self.now (budget + 1) }
        ensures { Gives (readers budget exprs input.old) result input.new };
}

/// The parser of nested parts, with the allocator for what it returns.
#[derive(Clone, Copy)]
pub struct Parts<R> {
    pub alloc: Global,
    pub inside: R,
}

impl<R: Inside> Parts<R> {
    /// Parses a nested type.
    pub fn ty(&self, input: &mut ParseStream<'_>, budget: u8) -> Result<Ty, ParseError>
        requires { R.nests self.now.inside (budget + 1) }
        ensures { Gives (readers budget types input.old) result input.new }
    {
        self.inside.ty(self.alloc, input, budget)
    }

    /// Parses a nested type in which `dyn` has one bound.
    pub fn plain(&self, input: &mut ParseStream<'_>, budget: u8) -> Result<Typed, ParseError>
        requires { R.nests self.now.inside (budget + 1) }
        ensures { Gives (readers budget plains input.old) result input.new }
    {
        self.inside.plain(self.alloc, input, budget)
    }

    /// Parses a nested expression.
    pub fn expr(&self, input: &mut ParseStream<'_>, budget: u8) -> Result<Expr, ParseError>
        requires { R.nests self.now.inside (budget + 1) }
        ensures { Gives (readers budget exprs input.old) result input.new }
    {
        self.inside.expr(self.alloc, input, budget)
    }
}

/// The production of a nested type.
pub struct TypeInside;

impl<R: Inside> Production<Parts<R>> for TypeInside {
    type Tree = Ty;

    ghost ready = { λ parts budget. R.nests parts.inside (budget + 1) };

    ghost reads = { λ budget. readers budget types };

    fn parse(parts: &Parts<R>, input: &mut ParseStream<'_>, budget: u8) -> Result<Ty, ParseError> {
        parts.ty(input, budget)
    }
}

/// The production of a nested expression.
pub struct ExprInside;

impl<R: Inside> Production<Parts<R>> for ExprInside {
    type Tree = Expr;

    ghost ready = { λ parts budget. R.nests parts.inside (budget + 1) };

    ghost reads = { λ budget. readers budget exprs };

    fn parse(
        parts: &Parts<R>,
        input: &mut ParseStream<'_>,
        budget: u8,
    ) -> Result<Expr, ParseError> {
        parts.expr(input, budget)
    }
}
