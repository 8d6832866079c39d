//! The entry points of the parser, each of which parses a whole list of tokens.
ghost use Rattle.std.specs.Prelude.{◌≢◌, List, length, IfOk, IfErr, IfSome, IfNone};
ghost use Rattle.educe_tree.specs.declared.attr.Meta.{Meta};
ghost use Rattle.educe_tree.specs.declared.derive.DeriveInput.{DeriveInput};
ghost use Rattle.educe_tree.specs.declared.expr.Expr.{Expr};
ghost use Rattle.educe_tree.specs.declared.expr.ExprPath.{ExprPath};
ghost use Rattle.educe_tree.specs.declared.generics.WherePredicate.{WherePredicate};
ghost use Rattle.educe_tree.specs.declared.ident.Ident.{Ident};
ghost use Rattle.educe_grammar.specs.Attributes as attributes;
ghost use Rattle.educe_grammar.specs.Causes.{IsUncaused, IsReported};
ghost use Rattle.educe_grammar.specs.Definitions as definitions;
ghost use Rattle.educe_grammar.specs.Expressions as expressions;
ghost use Rattle.educe_grammar.specs.Few.{IsFew};
ghost use Rattle.educe_grammar.specs.Generics as generics;
ghost use Rattle.educe_grammar.specs.Names as names;
ghost use Rattle.educe_grammar.specs.Naming.{AreNamesApart};
ghost use Rattle.educe_grammar.specs.Parsed.{IsWhole, IsParseCause, IsOnly};
ghost use Rattle.educe_grammar.specs.Placed.{AreMetasPlaced, IsDefinitionPlaced};
ghost use Rattle.educe_grammar.specs.Refusal.{IsRefusalOf};
ghost use Rattle.educe_syntax.specs.Answers.{IsDuplicateError};

use crate::duplicate_names::first_duplicate;
use crate::knot::{DEPTH_LIMIT, definition, metas};
use crate::unions::{union_error, union_word};
use crate::whole::whole;
use crate::within::{parse_expr_within, parse_path_within, parse_predicates_within};
use educe_parser_paths::name;
use educe_tokens::{EduceError, Kind, TokenSlice};
use educe_tree::{DeriveInput, Expr, ExprPath, Ident, Metas, Predicates};
use std::alloc::Global;

/// Parses a name (Rust Reference, Identifiers).
pub fn parse_ident(alloc: Global, tokens: &TokenSlice) -> Result<Ident, EduceError>
    ensures found { IfOk result (λ x. IsWhole names.name tokens.now x) }
    ensures only { (x : Ident) → IsWhole names.name tokens.now x → IsOnly x result }
    ensures uncaused { IfOk result (λ _. IsUncaused (IsParseCause names.name tokens.now)) }
    ensures err { IfErr result (IsParseCause names.name tokens.now) }
    ensures reported { IfErr result (IsReported tokens.now) }
    // One token is never too deep.
    ensures shallow { IfErr result (λ e. e.kind ≢ Kind.TooDeep) }
{
    whole(alloc, tokens, |input| name(alloc, input))
}

/// Parses a path in an expression (Rust Reference, Path expressions).
pub fn parse_path(alloc: Global, tokens: &TokenSlice) -> Result<ExprPath, EduceError>
    ensures found { IfOk result (λ x. IsWhole expressions.expr_path tokens.now x) }
    ensures only { (x : ExprPath) → IsWhole expressions.expr_path tokens.now x → IsOnly x result }
    ensures uncaused { IfOk result (λ _. IsUncaused (IsParseCause expressions.expr_path tokens.now)) }
    ensures err { IfErr result (IsParseCause expressions.expr_path tokens.now) }
    ensures reported { IfErr result (IsReported tokens.now) }
{
    parse_path_within(alloc, tokens, DEPTH_LIMIT as u32)
}

/// Parses an expression (Rust Reference, Expressions).
pub fn parse_expr(alloc: Global, tokens: &TokenSlice) -> Result<Expr, EduceError>
    ensures found { IfOk result (λ x. IsWhole expressions.expression tokens.now x) }
    ensures only { (x : Expr) → IsWhole expressions.expression tokens.now x → IsOnly x result }
    ensures uncaused { IfOk result (λ _. IsUncaused (IsParseCause expressions.expression tokens.now)) }
    ensures err { IfErr result (IsParseCause expressions.expression tokens.now) }
    ensures reported { IfErr result (IsReported tokens.now) }
{
    parse_expr_within(alloc, tokens, DEPTH_LIMIT as u32)
}

/// Parses the predicates of a where clause (Rust Reference, Where clauses).
pub fn parse_predicates(alloc: Global, tokens: &TokenSlice) -> Result<Predicates, EduceError>
    ensures found { IfOk result (λ x. IsWhole generics.predicates tokens.now x) }
    ensures only { (x : List WherePredicate) → IsWhole generics.predicates tokens.now x → IsOnly x result }
    ensures uncaused { IfOk result (λ _. IsUncaused (IsParseCause generics.predicates tokens.now)) }
    ensures err { IfErr result (IsParseCause generics.predicates tokens.now) }
    ensures reported { IfErr result (IsReported tokens.now) }
{
    parse_predicates_within(alloc, tokens, DEPTH_LIMIT as u32)
}

/// Parses the metas of an attribute (Rust Reference, Attributes).
pub fn parse_metas(alloc: Global, tokens: &TokenSlice) -> Result<Metas, EduceError>
    ensures found { IfOk result (λ x. IsWhole attributes.metas tokens.now x) }
    ensures only { (x : List Meta) → IsWhole attributes.metas tokens.now x → IsOnly x result }
    ensures placed { IfOk result (λ x. AreMetasPlaced tokens.now x) }
    ensures uncaused { IfOk result (λ _. IsUncaused (IsParseCause attributes.metas tokens.now)) }
    ensures err { IfErr result (IsParseCause attributes.metas tokens.now) }
    ensures reported { IfErr result (IsReported tokens.now) }
{
    whole(alloc, tokens, |input| metas(alloc, input, DEPTH_LIMIT))
}

/// Parses a definition; its names may be duplicate.
fn read_definition(alloc: Global, tokens: &TokenSlice) -> Result<DeriveInput, EduceError>
    ensures found { IfOk result (λ x. IsWhole definitions.definition tokens.now x) }
    ensures err { IfErr result (IsParseCause definitions.definition tokens.now) }
{
    whole(alloc, tokens, |input| definition(alloc, input, DEPTH_LIMIT))
}

/// The error for the first duplicate name of a definition; none where its names are distinct.
fn duplicate_error(alloc: Global, found: &DeriveInput) -> Option<EduceError>
    ensures none { IfNone result (AreNamesApart found.now) }
    ensures some { IfSome result (IsDuplicateError found.now) }
{
    match first_duplicate(alloc, found) {
        Ok(None) => None,
        Ok(Some(name)) => Some(name.duplicate_error(alloc)),
        Err(_) => Some(EduceError::alloc(alloc)),
    }
}

/// The error for tokens that are no definition, given that of the parser: a union is reported at
/// its keyword.
fn unread(alloc: Global, tokens: &TokenSlice, error: EduceError) -> EduceError
    requires { IsParseCause definitions.definition tokens.now error }
    ensures { IsRefusalOf tokens.now result }
{
    match union_word(alloc, tokens) {
        Ok(None) => error,
        Ok(Some(word)) => union_error(alloc, word),
        Err(_) => EduceError::alloc(alloc),
    }
}

/// Parses a definition whose names are distinct (Rust Reference, Structs; Enumerations). Unions and
/// duplicate names are rejected.
pub fn parse_derive_input(alloc: Global, tokens: &TokenSlice) -> Result<DeriveInput, EduceError>
    ensures found { IfOk result (λ x. IsWhole definitions.definition tokens.now x) }
    ensures apart { IfOk result (λ x. AreNamesApart x) }
    ensures few { IfOk result (λ x. IsFew (length tokens.now) x) }
    ensures placed { IfOk result (λ x. IsDefinitionPlaced tokens.now x) }
    ensures only { (x : DeriveInput) → IsWhole definitions.definition tokens.now x → AreNamesApart x → IsOnly x result }
    ensures uncaused { IfOk result (λ _. IsUncaused (IsRefusalOf tokens.now)) }
    ensures err { IfErr result (IsRefusalOf tokens.now) }
    ensures reported { IfErr result (IsReported tokens.now) }
{
    let found = match read_definition(alloc, tokens) {
        Ok(found) => found,
        Err(error) => return Err(unread(alloc, tokens, error)),
    };
    match duplicate_error(alloc, &found) {
        None => Ok(found),
        Some(error) => Err(error),
    }
}
