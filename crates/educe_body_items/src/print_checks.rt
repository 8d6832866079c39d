//! The tokens of checks that types implement `Eq`.
ghost use Rattle.std.specs.Prelude.{OnOk};
ghost use Rattle.educe_tokens.specs.Appends.{HasPrefix};
ghost use Rattle.educe_tokens.proofs.Printable.{well_formed_from, ends_apart_from, lexes_back_from};
ghost use Rattle.educe_body_forms.specs.Printouts.{Prints, written, each, in_angle};
ghost use Rattle.educe_body_items.specs.Items.{check_call, inner_parameter, inner_function, outer_head, outer_function, constant_start, check_printout};

use crate::items::CheckItem;
use crate::print_headers::{push_params, push_where};
use crate::print_heads::push_name;
use educe_body_forms::Names;
use educe_tokens::{TokenStream, Written, append_written, quote};
use educe_tree::{ToTokens, Ty};
use std::alloc::{AllocError, Global};

/// Appends a type in angle brackets.
fn push_in_angle(alloc: Global, tokens: &mut TokenStream, ty: &Ty) -> Result<(), AllocError>
    ensures ok { OnOk result (Prints (in_angle (written ty.now.written)) tokens.old tokens.new) }
    ensures prefix { HasPrefix tokens.old tokens.new }
{
    quote(alloc, tokens, "<")?;
    append_written(alloc, tokens, &ty.written)?;
    quote(alloc, tokens, ">")
}

/// Appends a call of the inner function for a type.
fn push_call(
    alloc: Global,
    tokens: &mut TokenStream,
    names: &Names,
    ty: &Ty,
) -> Result<(), AllocError>
    ensures ok { OnOk result (Prints (check_call names.now ty.now) tokens.old tokens.new) }
    ensures prefix { HasPrefix tokens.old tokens.new }
{
    push_name(alloc, tokens, names, 1)?;
    quote(alloc, tokens, "::")?;
    push_in_angle(alloc, tokens, ty)?;
    quote(alloc, tokens, "( ) ;")
}

/// Appends calls of the inner function for types behind one another.
fn push_calls(
    alloc: Global,
    tokens: &mut TokenStream,
    names: &Names,
    types: &[Ty],
) -> Result<(), AllocError>
    ensures ok { OnOk result (Prints (each (check_call names.now) types.now) tokens.old tokens.new) }
    ensures prefix { HasPrefix tokens.old tokens.new }
{
    for ty in types {
        push_call(alloc, tokens, names, ty)?;
    }
    Ok(())
}

/// Appends the parameter of the inner function in angle brackets.
fn push_inner_parameter(
    alloc: Global,
    tokens: &mut TokenStream,
    names: &Names,
) -> Result<(), AllocError>
    ensures ok { OnOk result (Prints (inner_parameter names.now) tokens.old tokens.new) }
    ensures prefix { HasPrefix tokens.old tokens.new }
{
    quote(alloc, tokens, "<")?;
    push_name(alloc, tokens, names, 2)?;
    quote(alloc, tokens, ": ? Sized + :: core :: cmp :: Eq")?;
    quote(alloc, tokens, ">")
}

/// Appends the inner function.
fn push_inner(alloc: Global, tokens: &mut TokenStream, names: &Names) -> Result<(), AllocError>
    ensures ok { OnOk result (Prints (inner_function names.now) tokens.old tokens.new) }
    ensures prefix { HasPrefix tokens.old tokens.new }
{
    quote(alloc, tokens, "fn")?;
    push_name(alloc, tokens, names, 1)?;
    push_inner_parameter(alloc, tokens, names)?;
    quote(alloc, tokens, "( ) { }")
}

impl CheckItem {
    /// Appends what stands before the block of the function.
    fn push_head(&self, alloc: Global, tokens: &mut TokenStream) -> Result<(), AllocError>
        ensures ok { OnOk result (Prints (outer_head self.now) tokens.old tokens.new) }
        ensures prefix { HasPrefix tokens.old tokens.new }
    {
        quote(alloc, tokens, "fn")?;
        push_name(alloc, tokens, &self.names, 0)?;
        push_params(alloc, tokens, self.generics.params.as_slice())?;
        quote(alloc, tokens, "( )")?;
        push_where(alloc, tokens, self.generics.predicates.as_slice())
    }

    /// Appends the function.
    fn push_function(&self, alloc: Global, tokens: &mut TokenStream) -> Result<(), AllocError>
        ensures ok { OnOk result (Prints (outer_function self.now) tokens.old tokens.new) }
        ensures prefix { HasPrefix tokens.old tokens.new }
    {
        self.push_head(alloc, tokens)?;
        quote(alloc, tokens, "{")?;
        push_inner(alloc, tokens, &self.names)?;
        push_calls(alloc, tokens, &self.names, self.types.as_slice())?;
        quote(alloc, tokens, "}")
    }
}

/// Appends what stands before the block of an unnamed constant with these attributes.
pub(crate) fn push_constant(
    alloc: Global,
    tokens: &mut TokenStream,
    attributes: &Written,
) -> Result<(), AllocError>
    ensures ok { OnOk result (Prints (constant_start attributes.now) tokens.old tokens.new) }
    ensures prefix { HasPrefix tokens.old tokens.new }
{
    append_written(alloc, tokens, attributes)?;
    quote(alloc, tokens, "const _ : ( ) =")
}

impl ToTokens for CheckItem {
    ghost lexemes_of = { λ check. (check_printout check).tokens };

    ghost well_formed = { λ check. well_formed_from (check_printout check).printable };

    ghost ends_apart = { λ check. ends_apart_from (check_printout check).printable };

    ghost lexes_back = { λ check. lexes_back_from (check_printout check).printable };

    fn to_tokens(&self, alloc: Global, tokens: &mut TokenStream) -> Result<(), AllocError> {
        push_constant(alloc, tokens, &self.attributes)?;
        quote(alloc, tokens, "{")?;
        self.push_function(alloc, tokens)?;
        quote(alloc, tokens, "}")?;
        quote(alloc, tokens, ";")
    }
}
