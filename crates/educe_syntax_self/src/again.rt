//! Parsing of tokens that are known to have a value.
ghost use Rattle.std.specs.Prelude.{◌≡◌, suc, IfOk, IfErr};
ghost use Rattle.educe_grammar.specs.Expressions.{expr_path};
ghost use Rattle.educe_grammar.specs.Parsed.{depth_limit};
ghost use Rattle.educe_grammar.specs.Reads.{Reads};
ghost use Rattle.educe_grammar.specs.Types.{any_type};
ghost use Rattle.educe_tree.specs.declared.expr.ExprPath.{ExprPath};
ghost use Rattle.educe_tree.specs.declared.ty.Ty.{Ty};

use educe_grammar::{ParseError, ParseStream};
use educe_syntax::{DEPTH_LIMIT, any_type, expr_path};
use educe_tokens::TokenSlice;
use educe_tree::{ExprPath, Ty};
use std::alloc::{AllocError, Global};

/// The limit on nesting where `Self` was replaced: the arguments of the head may stand in the deepest
/// level of what was parsed.
const REPLACED_LIMIT: u8 = DEPTH_LIMIT + 1;

/// The value that was read, where reading fails only when out of memory.
pub(crate) fn unless_memory<T: Drop>(read: Result<T, ParseError>) -> Result<T, AllocError>
    requires { IfErr read (λ error. error ≡ ParseError.Memory) }
    ensures { IfOk result (λ found. read ≡ Ok found) }
{
    match read {
        Ok(found) => Ok(found),
        Err(ParseError::Memory) => Err(AllocError),
        Err(_) => unreachable!(),
    }
}

/// Parses a type from tokens that are known to be one.
pub(crate) fn type_again(alloc: Global, tokens: &TokenSlice) -> Result<Ty, AllocError>
    requires { (ty : Ty) × Reads (suc depth_limit) any_type tokens.now ty }
    ensures { IfOk result (λ found. Reads (suc depth_limit) any_type tokens.now found) }
{
    let mut input = ParseStream::new(alloc, tokens);
    unless_memory(any_type(alloc, &mut input, REPLACED_LIMIT))
}

/// Parses a path from tokens that are known to be one.
pub(crate) fn path_again(alloc: Global, tokens: &TokenSlice) -> Result<ExprPath, AllocError>
    requires { (path : ExprPath) × Reads (suc depth_limit) expr_path tokens.now path }
    ensures { IfOk result (λ found. Reads (suc depth_limit) expr_path tokens.now found) }
{
    let mut input = ParseStream::new(alloc, tokens);
    unless_memory(expr_path(alloc, &mut input, REPLACED_LIMIT))
}
