//! Function values that parse nested parts.

use educe_grammar::{Cursor, Inside, ParseError, ParseStream, Typed};
use educe_tree::{Expr, Ty};
use std::alloc::Global;

/// Function values that parse types, types in which `dyn` has one bound, and expressions.
#[derive(Clone, Copy)]
pub struct Readers<T, P, E> {
    pub types: T,
    pub plains: P,
    pub exprs: E,
}

impl<
    T: Fn(Global, &mut ParseStream<'_>, u8) -> Result<Ty, ParseError>,
    P: Fn(Global, &mut ParseStream<'_>, u8) -> Result<Typed, ParseError>,
    E: Fn(Global, &mut ParseStream<'_>, u8) -> Result<Expr, ParseError>,
> Inside for Readers<T, P, E> {
    ghost use Rattle.educe_syntax.specs.Nests.{Nests, fewer_nest};

    ghost nests = { λ readers bound. Nests T.Fn P.Fn E.Fn readers bound };

    ghost fewer = { λ readers bound nests. fewer_nest nests };

    fn ty(&self, alloc: Global, input: &mut ParseStream<'_>, budget: u8) -> Result<Ty, ParseError> {
        (self.types)(alloc, input, budget)
    }

    fn plain(
        &self,
        alloc: Global,
        input: &mut ParseStream<'_>,
        budget: u8,
    ) -> Result<Typed, ParseError> {
        (self.plains)(alloc, input, budget)
    }

    fn expr(
        &self,
        alloc: Global,
        input: &mut ParseStream<'_>,
        budget: u8,
    ) -> Result<Expr, ParseError> {
        (self.exprs)(alloc, input, budget)
    }
}
