//! The entry points of the parser that take a budget for nesting, each of which parses a whole list of
//! tokens.
ghost use Rattle.std.specs.Prelude.{◌+◌, ◌≤◌, List, IfOk, IfErr};
ghost use Rattle.educe_tree.specs.declared.expr.Expr.{Expr};
ghost use Rattle.educe_tree.specs.declared.expr.ExprPath.{ExprPath};
ghost use Rattle.educe_tree.specs.declared.generics.GenericParam.{GenericParam};
ghost use Rattle.educe_tree.specs.declared.generics.WherePredicate.{WherePredicate};
ghost use Rattle.educe_tree.specs.declared.ty.Ty.{Ty};
ghost use Rattle.educe_grammar.specs.Causes.{IsUncaused, IsReported};
ghost use Rattle.educe_grammar.specs.Expressions as expressions;
ghost use Rattle.educe_grammar.specs.Generics as generics;
ghost use Rattle.educe_grammar.specs.Parsed.{depth_limit, IsCauseWithin, IsOnly};
ghost use Rattle.educe_grammar.specs.Reads.{Reads};
ghost use Rattle.educe_grammar.specs.Types as types;

use crate::knot::{any_type, expr_path, expression, params, predicates};
use crate::whole::whole;
use educe_tokens::{EduceError, TokenSlice};
use educe_tree::{Expr, ExprPath, Params, Predicates, Ty};
use std::alloc::Global;

/// Parses a type with this budget for nesting (Rust Reference, Types).
pub fn parse_type_within(alloc: Global, tokens: &TokenSlice, budget: u32) -> Result<Ty, EduceError>
    requires { budget ≤ depth_limit + 1 }
    ensures found { IfOk result (λ x. Reads budget types.any_type tokens.now x) }
    ensures only { (x : Ty) → Reads budget types.any_type tokens.now x → IsOnly x result }
    ensures uncaused { IfOk result (λ _. IsUncaused (IsCauseWithin budget types.any_type tokens.now)) }
    ensures err { IfErr result (IsCauseWithin budget types.any_type tokens.now) }
    ensures reported { IfErr result (IsReported tokens.now) }
{
    let budget = budget as u8;
    whole(alloc, tokens, |input| any_type(alloc, input, budget))
}

/// Parses the generic parameters of a header, without its angle brackets, with this budget for nesting
/// (Rust Reference, Generic parameters).
pub fn parse_params_within(
    alloc: Global,
    tokens: &TokenSlice,
    budget: u32,
) -> Result<Params, EduceError>
    requires { budget ≤ depth_limit + 1 }
    ensures found { IfOk result (λ x. Reads budget generics.params tokens.now x) }
    ensures only { (x : List GenericParam) → Reads budget generics.params tokens.now x → IsOnly x result }
    ensures uncaused { IfOk result (λ _. IsUncaused (IsCauseWithin budget generics.params tokens.now)) }
    ensures err { IfErr result (IsCauseWithin budget generics.params tokens.now) }
    ensures reported { IfErr result (IsReported tokens.now) }
{
    let budget = budget as u8;
    whole(alloc, tokens, |input| params(alloc, input, budget))
}

/// Parses a path in an expression with this budget for nesting (Rust Reference, Path expressions).
pub fn parse_path_within(
    alloc: Global,
    tokens: &TokenSlice,
    budget: u32,
) -> Result<ExprPath, EduceError>
    requires { budget ≤ depth_limit + 1 }
    ensures found { IfOk result (λ x. Reads budget expressions.expr_path tokens.now x) }
    ensures only { (x : ExprPath) → Reads budget expressions.expr_path tokens.now x → IsOnly x result }
    ensures uncaused { IfOk result (λ _. IsUncaused (IsCauseWithin budget expressions.expr_path tokens.now)) }
    ensures err { IfErr result (IsCauseWithin budget expressions.expr_path tokens.now) }
    ensures reported { IfErr result (IsReported tokens.now) }
{
    let budget = budget as u8;
    whole(alloc, tokens, |input| expr_path(alloc, input, budget))
}

/// Parses the predicates of a where clause with this budget for nesting (Rust Reference, Where
/// clauses).
pub fn parse_predicates_within(
    alloc: Global,
    tokens: &TokenSlice,
    budget: u32,
) -> Result<Predicates, EduceError>
    requires { budget ≤ depth_limit + 1 }
    ensures found { IfOk result (λ x. Reads budget generics.predicates tokens.now x) }
    ensures only { (x : List WherePredicate) → Reads budget generics.predicates tokens.now x → IsOnly x result }
    ensures uncaused { IfOk result (λ _. IsUncaused (IsCauseWithin budget generics.predicates tokens.now)) }
    ensures err { IfErr result (IsCauseWithin budget generics.predicates tokens.now) }
    ensures reported { IfErr result (IsReported tokens.now) }
{
    let budget = budget as u8;
    whole(alloc, tokens, |input| predicates(alloc, input, budget))
}

/// Parses an expression with this budget for nesting (Rust Reference, Expressions).
pub fn parse_expr_within(
    alloc: Global,
    tokens: &TokenSlice,
    budget: u32,
) -> Result<Expr, EduceError>
    requires { budget ≤ depth_limit + 1 }
    ensures found { IfOk result (λ x. Reads budget expressions.expression tokens.now x) }
    ensures only { (x : Expr) → Reads budget expressions.expression tokens.now x → IsOnly x result }
    ensures uncaused { IfOk result (λ _. IsUncaused (IsCauseWithin budget expressions.expression tokens.now)) }
    ensures err { IfErr result (IsCauseWithin budget expressions.expression tokens.now) }
    ensures reported { IfErr result (IsReported tokens.now) }
{
    let budget = budget as u8;
    whole(alloc, tokens, |input| expression(alloc, input, budget))
}
