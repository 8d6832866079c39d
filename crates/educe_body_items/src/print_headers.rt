//! The tokens of generic parameters and where clauses (Rust Reference, Generic parameters).
ghost use Rattle.std.specs.Prelude.{OnOk};
ghost use Rattle.educe_tokens.specs.Appends.{HasPrefix};
ghost use Rattle.educe_body_items.specs.Headers.{params_printout, argument_printout, arguments_printout, where_printout};
ghost use Rattle.educe_body_forms.specs.Printing.{separated};
ghost use Rattle.educe_body_forms.specs.Printouts.{Prints, written};

use educe_body_forms::push_comma;
use educe_tokens::{TokenStream, append_written, quote};
use educe_tree::{AsWritten, GenericParam, ToTokens, WherePredicate};
use std::alloc::{AllocError, Global};

/// Appends the tokens that the items hold, with commas between.
fn push_each_written<T: AsWritten>(
    alloc: Global,
    tokens: &mut TokenStream,
    items: &[T],
) -> Result<(), AllocError>
    ensures ok { let found = separated (λ item. written (T.held item)) items.now in
        OnOk result (Prints found tokens.old tokens.new) }
    ensures prefix { HasPrefix tokens.old tokens.new }
{
    for (i, item) in items.iter().enumerate() {
        push_comma(alloc, tokens, i)?;
        append_written(alloc, tokens, item.written())?;
    }
    Ok(())
}

/// Appends parameters without their defaults in angle brackets, or nothing where there are none.
pub(crate) fn push_params(
    alloc: Global,
    tokens: &mut TokenStream,
    params: &[GenericParam],
) -> Result<(), AllocError>
    ensures ok { OnOk result (Prints (params_printout params.now) tokens.old tokens.new) }
    ensures prefix { HasPrefix tokens.old tokens.new }
{
    if params.is_empty() {
        return Ok(());
    }
    quote(alloc, tokens, "<")?;
    push_each_written(alloc, tokens, params)?;
    quote(alloc, tokens, ">")
}

/// Appends the name of a parameter.
fn push_type_argument(
    alloc: Global,
    tokens: &mut TokenStream,
    param: &GenericParam,
) -> Result<(), AllocError>
    ensures ok { OnOk result (Prints (argument_printout param.now) tokens.old tokens.new) }
    ensures prefix { HasPrefix tokens.old tokens.new }
{
    match param {
        GenericParam::Lifetime(param) => param.lifetime.to_tokens(alloc, tokens),
        GenericParam::TypeParam(param) => param.ident.to_tokens(alloc, tokens),
        GenericParam::Const(param) => param.ident.to_tokens(alloc, tokens),
    }
}

/// Appends the names of parameters, with commas between.
fn push_each_type_argument(
    alloc: Global,
    tokens: &mut TokenStream,
    params: &[GenericParam],
) -> Result<(), AllocError>
    ensures ok { OnOk result (Prints (separated argument_printout params.now) tokens.old tokens.new) }
    ensures prefix { HasPrefix tokens.old tokens.new }
{
    for (i, param) in params.iter().enumerate() {
        push_comma(alloc, tokens, i)?;
        push_type_argument(alloc, tokens, param)?;
    }
    Ok(())
}

/// Appends the names of parameters in angle brackets, or nothing where there are none.
pub(crate) fn push_type_arguments(
    alloc: Global,
    tokens: &mut TokenStream,
    params: &[GenericParam],
) -> Result<(), AllocError>
    ensures ok { OnOk result (Prints (arguments_printout params.now) tokens.old tokens.new) }
    ensures prefix { HasPrefix tokens.old tokens.new }
{
    if params.is_empty() {
        return Ok(());
    }
    quote(alloc, tokens, "<")?;
    push_each_type_argument(alloc, tokens, params)?;
    quote(alloc, tokens, ">")
}

/// Appends a where clause of predicates, or nothing where there are none (Rust Reference, Where
/// clauses).
pub(crate) fn push_where(
    alloc: Global,
    tokens: &mut TokenStream,
    predicates: &[WherePredicate],
) -> Result<(), AllocError>
    ensures ok { OnOk result (Prints (where_printout predicates.now) tokens.old tokens.new) }
    ensures prefix { HasPrefix tokens.old tokens.new }
{
    if predicates.is_empty() {
        return Ok(());
    }
    quote(alloc, tokens, "where")?;
    push_each_written(alloc, tokens, predicates)
}
