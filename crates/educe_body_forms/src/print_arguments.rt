//! The tokens of the arguments of methods, but for the field that a method is called on.
ghost use Rattle.std.specs.Prelude.{OnOk};
ghost use Rattle.educe_tokens.specs.Appends.{HasPrefix};
ghost use Rattle.educe_body_forms.specs.Printouts.{Prints};
ghost use Rattle.educe_body_forms.specs.ShownPrintouts.{argument_start, closure_head, method_closure, wrapper_printout};

use crate::filled::push_filled;
use crate::shown::ArgumentNames;
use educe_tokens::{TokenStream, Written, append_written, quote};
use educe_tree::{ExprPath, ToTokens};
use std::alloc::{AllocError, Global};

/// Appends what stands before the block that makes the argument.
pub(crate) fn push_argument_start(
    alloc: Global,
    tokens: &mut TokenStream,
    names: &ArgumentNames,
) -> Result<(), AllocError>
    ensures ok { OnOk result (Prints (argument_start names.now) tokens.old tokens.new) }
    ensures prefix { HasPrefix tokens.old tokens.new }
{
    quote(alloc, tokens, "let")?;
    names.argument.to_tokens(alloc, tokens)?;
    quote(alloc, tokens, "=")
}

/// The type that wraps a field and its method, and its `Debug`, by the names of the type, of its two
/// parameters and of the formatter.
const WRAPPER: &str =
    "struct #0 < 'a , #1 : ? Sized , #2 > ( & 'a #1 , #2 ) ; impl < #1 : ? Sized , #2 > :: core :: fmt :: Debug for #0 < '_ , #1 , #2 > where #2 : :: core :: ops :: Fn ( & #1 , & mut :: core :: fmt :: Formatter < '_ > ) -> :: core :: fmt :: Result , { fn fmt ( & self , #3 : & mut :: core :: fmt :: Formatter < '_ > ) -> :: core :: fmt :: Result { ( self . 1 ) ( self . 0 , #3 ) } }";

/// Appends the type that wraps a field and its method, and its `Debug`.
pub(crate) fn push_wrapper(
    alloc: Global,
    tokens: &mut TokenStream,
    names: &ArgumentNames,
) -> Result<(), AllocError>
    ensures ok { OnOk result (Prints (wrapper_printout names.now) tokens.old tokens.new) }
    ensures prefix { HasPrefix tokens.old tokens.new }
{
    let filling = [
        &names.wrapper,
        &names.value_type,
        &names.function_type,
        &names.formatter,
    ];
    push_filled(alloc, tokens, WRAPPER, &filling)
}

/// Appends the parameters of the closure that calls the method.
fn push_closure_head(
    alloc: Global,
    tokens: &mut TokenStream,
    names: &ArgumentNames,
    ty: &Written,
) -> Result<(), AllocError>
    ensures ok { OnOk result (Prints (closure_head names.now ty.now) tokens.old tokens.new) }
    ensures prefix { HasPrefix tokens.old tokens.new }
{
    push_filled(alloc, tokens, "| #0 : &", &[&names.own_value])?;
    append_written(alloc, tokens, ty)?;
    let formatter = ", #0 : & mut :: core :: fmt :: Formatter < '_ > |";
    push_filled(alloc, tokens, formatter, &[&names.own_formatter])
}

/// Appends the closure that calls the method.
pub(crate) fn push_method_closure(
    alloc: Global,
    tokens: &mut TokenStream,
    names: &ArgumentNames,
    ty: &Written,
    path: &ExprPath,
) -> Result<(), AllocError>
    ensures ok { OnOk result (Prints (method_closure names.now ty.now path.now.written) tokens.old tokens.new) }
    ensures prefix { HasPrefix tokens.old tokens.new }
{
    push_closure_head(alloc, tokens, names, ty)?;
    append_written(alloc, tokens, &path.written)?;
    push_filled(
        alloc,
        tokens,
        "( #0 , #1 )",
        &[&names.own_value, &names.own_formatter],
    )
}
