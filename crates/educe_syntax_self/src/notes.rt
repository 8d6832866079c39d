//! What is noted of the paths that begin with `Self`, where tokens are read that are known to have a
//! value.
ghost use Rattle.std.specs.Prelude.{◌≡◌, IfOk};
ghost use Rattle.educe_grammar.specs.Expressions.{expr_path};
ghost use Rattle.educe_grammar.specs.Generics.{generic_param, predicate};
ghost use Rattle.educe_grammar.specs.Parsed.{IsWhole};
ghost use Rattle.educe_grammar.specs.Types.{any_type};
ghost use Rattle.educe_tree.specs.declared.expr.ExprPath.{ExprPath};
ghost use Rattle.educe_tree.specs.declared.generics.GenericParam.{GenericParam};
ghost use Rattle.educe_tree.specs.declared.generics.WherePredicate.{WherePredicate};
ghost use Rattle.educe_tree.specs.declared.ty.Ty.{Ty};
ghost use Rattle.educe_syntax_self.specs.Splicing.{notes_of};

use crate::again::unless_memory;
use educe_grammar::{ParseStream, SelfPath};
use educe_syntax::{DEPTH_LIMIT, any_type, expr_path, generic_param, where_predicate};
use educe_tokens::{Seq, TokenSlice};
use std::alloc::{AllocError, Global};

/// What is noted of a type.
pub(crate) fn type_notes(alloc: Global, tokens: &TokenSlice) -> Result<Seq<SelfPath>, AllocError>
    requires { (ty : Ty) × IsWhole any_type tokens.now ty }
    ensures { IfOk result (λ notes. notes ≡ notes_of any_type tokens.now) }
{
    let mut input = ParseStream::new(alloc, tokens);
    unless_memory(any_type(alloc, &mut input, DEPTH_LIMIT))?;
    Ok(input.selves)
}

/// What is noted of a path.
pub(crate) fn path_notes(alloc: Global, tokens: &TokenSlice) -> Result<Seq<SelfPath>, AllocError>
    requires { (path : ExprPath) × IsWhole expr_path tokens.now path }
    ensures { IfOk result (λ notes. notes ≡ notes_of expr_path tokens.now) }
{
    let mut input = ParseStream::new(alloc, tokens);
    unless_memory(expr_path(alloc, &mut input, DEPTH_LIMIT))?;
    Ok(input.selves)
}

/// What is noted of a generic parameter.
pub(crate) fn param_notes(alloc: Global, tokens: &TokenSlice) -> Result<Seq<SelfPath>, AllocError>
    requires { (param : GenericParam) × IsWhole generic_param tokens.now param }
    ensures { IfOk result (λ notes. notes ≡ notes_of generic_param tokens.now) }
{
    let mut input = ParseStream::new(alloc, tokens);
    unless_memory(generic_param(alloc, &mut input, DEPTH_LIMIT))?;
    Ok(input.selves)
}

/// What is noted of a predicate.
pub(crate) fn predicate_notes(
    alloc: Global,
    tokens: &TokenSlice,
) -> Result<Seq<SelfPath>, AllocError>
    requires { (found : WherePredicate) × IsWhole predicate tokens.now found }
    ensures { IfOk result (λ notes. notes ≡ notes_of predicate tokens.now) }
{
    let mut input = ParseStream::new(alloc, tokens);
    unless_memory(where_predicate(alloc, &mut input, DEPTH_LIMIT))?;
    Ok(input.selves)
}
