//! The tokens of functions and items.
ghost use Rattle.std.specs.Prelude.{OnOk};
ghost use Rattle.educe_tokens.specs.Appends.{HasPrefix};
ghost use Rattle.educe_tokens.proofs.Printable.{well_formed_from, ends_apart_from, lexes_back_from};
ghost use Rattle.educe_body_forms.specs.Printouts.{Prints, each};
ghost use Rattle.educe_body_items.specs.Items.{function_printout, path_printout, impl_start, impl_head, impl_type, impl_printout, inherent_printout, item_printout, item_lexemes};

use crate::items::{Function, Functions, ImplItem, Item};
use crate::print_constructors::push_constructors;
use crate::print_headers::{push_params, push_type_arguments, push_where};
use crate::print_heads::push_function_head;
use educe_body_forms::push_block;
use educe_bound_traits::{Trait, trait_path};
use educe_tokens::{TokenStream, append_written, quote};
use educe_tree::ToTokens;
use std::alloc::{AllocError, Global};

impl Function {
    /// Appends the tokens of the function, as a function of this trait.
    pub fn to_tokens(
        &self,
        alloc: Global,
        tokens: &mut TokenStream,
        which: Trait,
    ) -> Result<(), AllocError>
        ensures ok { OnOk result (Prints (function_printout which self.now) tokens.old tokens.new) }
        ensures prefix { HasPrefix tokens.old tokens.new }
    {
        push_function_head(alloc, tokens, which, self)?;
        push_block(alloc, tokens, &self.body.block)
    }
}

/// Appends the path of a trait.
fn push_trait(alloc: Global, tokens: &mut TokenStream, which: Trait) -> Result<(), AllocError>
    ensures ok { OnOk result (Prints (path_printout which) tokens.old tokens.new) }
    ensures prefix { HasPrefix tokens.old tokens.new }
{
    quote(alloc, tokens, trait_path(which))
}

/// Appends functions behind one another.
fn push_functions(
    alloc: Global,
    tokens: &mut TokenStream,
    which: Trait,
    functions: &Functions,
) -> Result<(), AllocError>
    ensures ok { let found = each (function_printout which) functions.now in
        OnOk result (Prints found tokens.old tokens.new) }
    ensures prefix { HasPrefix tokens.old tokens.new }
{
    for function in functions.as_slice() {
        function.to_tokens(alloc, tokens, which)?;
    }
    Ok(())
}

impl ToTokens for ImplItem {
    ghost lexemes_of = { λ item. (impl_printout item).tokens };

    ghost well_formed = { λ item. well_formed_from (impl_printout item).printable };

    ghost ends_apart = { λ item. ends_apart_from (impl_printout item).printable };

    ghost lexes_back = { λ item. lexes_back_from (impl_printout item).printable };

    fn to_tokens(&self, alloc: Global, tokens: &mut TokenStream) -> Result<(), AllocError> {
        self.push_head(alloc, tokens)?;
        self.push_type(alloc, tokens)?;
        quote(alloc, tokens, "{")?;
        push_functions(alloc, tokens, self.which, &self.functions)?;
        quote(alloc, tokens, "}")
    }
}

impl ImplItem {
    /// Appends an impl of no trait.
    fn push_inherent(&self, alloc: Global, tokens: &mut TokenStream) -> Result<(), AllocError>
        ensures ok { OnOk result (Prints (inherent_printout self.now) tokens.old tokens.new) }
        ensures prefix { HasPrefix tokens.old tokens.new }
    {
        self.push_start(alloc, tokens)?;
        self.push_type(alloc, tokens)?;
        quote(alloc, tokens, "{")?;
        push_constructors(alloc, tokens, &self.functions)?;
        quote(alloc, tokens, "}")
    }

    /// Appends the attributes, and `impl` with the parameters.
    fn push_start(&self, alloc: Global, tokens: &mut TokenStream) -> Result<(), AllocError>
        ensures ok { OnOk result (Prints (impl_start self.now) tokens.old tokens.new) }
        ensures prefix { HasPrefix tokens.old tokens.new }
    {
        append_written(alloc, tokens, &self.attributes)?;
        quote(alloc, tokens, "impl")?;
        push_params(alloc, tokens, self.generics.params.as_slice())
    }

    /// Appends what stands before the type in the impl of a trait.
    fn push_head(&self, alloc: Global, tokens: &mut TokenStream) -> Result<(), AllocError>
        ensures ok { OnOk result (Prints (impl_head self.now) tokens.old tokens.new) }
        ensures prefix { HasPrefix tokens.old tokens.new }
    {
        self.push_start(alloc, tokens)?;
        push_trait(alloc, tokens, self.which)?;
        quote(alloc, tokens, "for")
    }

    /// Appends the type and the where clause.
    fn push_type(&self, alloc: Global, tokens: &mut TokenStream) -> Result<(), AllocError>
        ensures ok { OnOk result (Prints (impl_type self.now) tokens.old tokens.new) }
        ensures prefix { HasPrefix tokens.old tokens.new }
    {
        self.ident.to_tokens(alloc, tokens)?;
        push_type_arguments(alloc, tokens, self.generics.params.as_slice())?;
        push_where(alloc, tokens, self.generics.predicates.as_slice())
    }
}

impl ToTokens for Item {
    ghost lexemes_of = { item_lexemes };

    ghost well_formed = { λ item. well_formed_from (item_printout item).printable };

    ghost ends_apart = { λ item. ends_apart_from (item_printout item).printable };

    ghost lexes_back = { λ item. lexes_back_from (item_printout item).printable };

    fn to_tokens(&self, alloc: Global, tokens: &mut TokenStream) -> Result<(), AllocError> {
        match self {
            Item::Impl(item) => item.to_tokens(alloc, tokens),
            Item::New(item) => item.push_inherent(alloc, tokens),
            Item::FieldCheck(check) => check.to_tokens(alloc, tokens),
            Item::Marker(marker) => marker.to_tokens(alloc, tokens),
        }
    }
}
