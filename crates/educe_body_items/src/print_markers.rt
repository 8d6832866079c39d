//! The tokens of functions that call the methods of fields.
ghost use Rattle.std.specs.Prelude.{◌≡◌, OnOk};
ghost use Rattle.educe_tokens.specs.Appends.{HasPrefix};
ghost use Rattle.educe_tokens.proofs.Printable.{well_formed_from, ends_apart_from, lexes_back_from};
ghost use Rattle.educe_body_forms.specs.Printouts.{Prints, in_round};
ghost use Rattle.educe_body_items.specs.Items.{has_formatter, marker_value, marker_formatter, marker_parameters, marker_start, marker_result, marker_head, marker_arguments, marker_call, marker_function, marker_printout};

use crate::items::MarkerItem;
use crate::print_checks::push_constant;
use crate::print_headers::{push_params, push_where};
use crate::print_heads::{NameAt, push_name};
use educe_body_forms::{push_fmt_result, push_formatter_param};
use educe_bound_traits::Trait;
use educe_tokens::{TokenStream, append_written, quote};
use educe_tree::ToTokens;
use std::alloc::{AllocError, Global};

/// Whether a method of a trait is handed a formatter besides, and has its result.
fn has_formatter(which: Trait) -> bool
    ensures { result ≡ has_formatter which }
{
    match which {
        Trait::Debug => true,
        _ => false,
    }
}

impl MarkerItem {
    /// Appends the parameter of the function that is the value.
    fn push_value(&self, alloc: Global, tokens: &mut TokenStream) -> Result<(), AllocError>
        ensures ok { OnOk result (Prints (marker_value self.now) tokens.old tokens.new) }
        ensures prefix { HasPrefix tokens.old tokens.new }
    {
        push_name(alloc, tokens, &self.names, 1)?;
        quote(alloc, tokens, ": &")?;
        append_written(alloc, tokens, &self.ty.written)?;
        quote(alloc, tokens, ",")
    }

    /// With true appends the parameter that is the formatter.
    fn push_formatter(
        &self,
        alloc: Global,
        tokens: &mut TokenStream,
        formatter: bool,
    ) -> Result<(), AllocError>
        ensures ok { OnOk result (Prints (marker_formatter formatter self.now.names) tokens.old tokens.new) }
        ensures prefix { HasPrefix tokens.old tokens.new }
    {
        if formatter {
            let name = NameAt {
                names: &self.names,
                index: 2,
            };
            push_formatter_param(alloc, tokens, &name)?;
            quote(alloc, tokens, ",")
        } else {
            Ok(())
        }
    }

    /// Appends the parameters of the function.
    fn push_parameters(&self, alloc: Global, tokens: &mut TokenStream) -> Result<(), AllocError>
        ensures ok { OnOk result (Prints (marker_parameters self.now) tokens.old tokens.new) }
        ensures prefix { HasPrefix tokens.old tokens.new }
    {
        self.push_value(alloc, tokens)?;
        self.push_formatter(alloc, tokens, has_formatter(self.which))
    }

    /// Appends the parameters of the function in round brackets.
    fn push_in_round(&self, alloc: Global, tokens: &mut TokenStream) -> Result<(), AllocError>
        ensures ok { OnOk result (Prints (in_round (marker_parameters self.now)) tokens.old tokens.new) }
        ensures prefix { HasPrefix tokens.old tokens.new }
    {
        quote(alloc, tokens, "(")?;
        self.push_parameters(alloc, tokens)?;
        quote(alloc, tokens, ")")
    }

    /// Appends what stands before the result of the function.
    fn push_start(&self, alloc: Global, tokens: &mut TokenStream) -> Result<(), AllocError>
        ensures ok { OnOk result (Prints (marker_start self.now) tokens.old tokens.new) }
        ensures prefix { HasPrefix tokens.old tokens.new }
    {
        quote(alloc, tokens, "fn")?;
        push_name(alloc, tokens, &self.names, 0)?;
        push_params(alloc, tokens, self.generics.params.as_slice())?;
        self.push_in_round(alloc, tokens)
    }

    /// Appends the result of the function: the field's type, or with true that of `fmt`.
    fn push_result(
        &self,
        alloc: Global,
        tokens: &mut TokenStream,
        formatter: bool,
    ) -> Result<(), AllocError>
        ensures ok { OnOk result (Prints (marker_result formatter self.now.ty) tokens.old tokens.new) }
        ensures prefix { HasPrefix tokens.old tokens.new }
    {
        if formatter {
            push_fmt_result(alloc, tokens)
        } else {
            quote(alloc, tokens, "->")?;
            append_written(alloc, tokens, &self.ty.written)
        }
    }

    /// Appends what stands before the block of the function.
    fn push_head(&self, alloc: Global, tokens: &mut TokenStream) -> Result<(), AllocError>
        ensures ok { OnOk result (Prints (marker_head self.now) tokens.old tokens.new) }
        ensures prefix { HasPrefix tokens.old tokens.new }
    {
        self.push_start(alloc, tokens)?;
        self.push_result(alloc, tokens, has_formatter(self.which))?;
        push_where(alloc, tokens, self.generics.predicates.as_slice())
    }

    /// Appends the arguments of the method: the value, and with true the formatter.
    fn push_arguments(
        &self,
        alloc: Global,
        tokens: &mut TokenStream,
        formatter: bool,
    ) -> Result<(), AllocError>
        ensures ok { OnOk result (Prints (marker_arguments formatter self.now.names) tokens.old tokens.new) }
        ensures prefix { HasPrefix tokens.old tokens.new }
    {
        push_name(alloc, tokens, &self.names, 1)?;
        if formatter {
            quote(alloc, tokens, ",")?;
            push_name(alloc, tokens, &self.names, 2)
        } else {
            Ok(())
        }
    }

    /// Appends the call of the method.
    fn push_call(&self, alloc: Global, tokens: &mut TokenStream) -> Result<(), AllocError>
        ensures ok { OnOk result (Prints (marker_call self.now) tokens.old tokens.new) }
        ensures prefix { HasPrefix tokens.old tokens.new }
    {
        append_written(alloc, tokens, &self.method.written)?;
        quote(alloc, tokens, "(")?;
        self.push_arguments(alloc, tokens, has_formatter(self.which))?;
        quote(alloc, tokens, ")")
    }

    /// Appends the function.
    fn push_function(&self, alloc: Global, tokens: &mut TokenStream) -> Result<(), AllocError>
        ensures ok { OnOk result (Prints (marker_function self.now) tokens.old tokens.new) }
        ensures prefix { HasPrefix tokens.old tokens.new }
    {
        self.push_head(alloc, tokens)?;
        quote(alloc, tokens, "{")?;
        self.push_call(alloc, tokens)?;
        quote(alloc, tokens, "}")
    }
}

impl ToTokens for MarkerItem {
    ghost lexemes_of = { λ marker. (marker_printout marker).tokens };

    ghost well_formed = { λ marker. well_formed_from (marker_printout marker).printable };

    ghost ends_apart = { λ marker. ends_apart_from (marker_printout marker).printable };

    ghost lexes_back = { λ marker. lexes_back_from (marker_printout marker).printable };

    fn to_tokens(&self, alloc: Global, tokens: &mut TokenStream) -> Result<(), AllocError> {
        push_constant(alloc, tokens, &self.attributes)?;
        quote(alloc, tokens, "{")?;
        self.push_function(alloc, tokens)?;
        quote(alloc, tokens, "}")?;
        quote(alloc, tokens, ";")
    }
}
