//! The tokens of what `fmt` writes, of builders, and of the type of a map's keys.
ghost use Rattle.std.specs.Prelude.{OnOk};
ghost use Rattle.educe_tokens.specs.Appends.{HasPrefix};
ghost use Rattle.educe_body_forms.specs.Printouts.{Prints, in_round};
ghost use Rattle.educe_body_forms.specs.ShownPrintouts.{literal_printout, write_str, write_str_printout, opening_printout, opened, builder_printout, entry_key, entry_front, entry_start, finish_printout, helper_printout};

use crate::filled::push_filled;
use crate::literal_text::LiteralText;
use crate::print_fmt::push_literal;
use crate::shown::{EntryKey, Opening};
use educe_tokens::{TokenStream, quote};
use educe_tree::{Ident, ToTokens};
use std::alloc::{AllocError, Global};

/// Appends a call that writes a text.
pub(crate) fn push_write_text(
    alloc: Global,
    tokens: &mut TokenStream,
    formatter: &Ident,
    text: &LiteralText,
) -> Result<(), AllocError>
    ensures ok { let found = write_str_printout formatter.now (literal_printout text.now) in
        OnOk result (Prints found tokens.old tokens.new) }
    ensures prefix { HasPrefix tokens.old tokens.new }
{
    push_write_str(alloc, tokens, formatter)?;
    push_in_round(alloc, tokens, text)
}

/// Appends the method of a formatter that writes a text.
fn push_write_str(
    alloc: Global,
    tokens: &mut TokenStream,
    formatter: &Ident,
) -> Result<(), AllocError>
    ensures ok { OnOk result (Prints (write_str formatter.now) tokens.old tokens.new) }
    ensures prefix { HasPrefix tokens.old tokens.new }
{
    formatter.to_tokens(alloc, tokens)?;
    quote(alloc, tokens, ". write_str")
}

/// Appends a string literal in round brackets.
fn push_in_round(
    alloc: Global,
    tokens: &mut TokenStream,
    text: &LiteralText,
) -> Result<(), AllocError>
    ensures ok { OnOk result (Prints (in_round (literal_printout text.now)) tokens.old tokens.new) }
    ensures prefix { HasPrefix tokens.old tokens.new }
{
    quote(alloc, tokens, "(")?;
    push_literal(alloc, tokens, text)?;
    quote(alloc, tokens, ")")
}

/// Appends the call that begins a builder.
fn push_opening(
    alloc: Global,
    tokens: &mut TokenStream,
    opening: &Opening,
) -> Result<(), AllocError>
    ensures ok { OnOk result (Prints (opening_printout opening.now) tokens.old tokens.new) }
    ensures prefix { HasPrefix tokens.old tokens.new }
{
    match opening {
        Opening::Struct(name) => {
            quote(alloc, tokens, ". debug_struct")?;
            push_in_round(alloc, tokens, name)
        }
        Opening::Tuple(name) => {
            quote(alloc, tokens, ". debug_tuple")?;
            push_in_round(alloc, tokens, name)
        }
        Opening::Map => quote(alloc, tokens, ". debug_map ( )"),
    }
}

/// Appends a formatter and the call on it that begins a builder.
fn push_opened(
    alloc: Global,
    tokens: &mut TokenStream,
    formatter: &Ident,
    opening: &Opening,
) -> Result<(), AllocError>
    ensures ok { OnOk result (Prints (opened formatter.now opening.now) tokens.old tokens.new) }
    ensures prefix { HasPrefix tokens.old tokens.new }
{
    formatter.to_tokens(alloc, tokens)?;
    push_opening(alloc, tokens, opening)
}

/// Appends the declaration of a builder.
pub(crate) fn push_builder(
    alloc: Global,
    tokens: &mut TokenStream,
    builder: &Ident,
    formatter: &Ident,
    opening: &Opening,
) -> Result<(), AllocError>
    ensures ok { let found = builder_printout builder.now formatter.now opening.now in
        OnOk result (Prints found tokens.old tokens.new) }
    ensures prefix { HasPrefix tokens.old tokens.new }
{
    quote(alloc, tokens, "let mut")?;
    builder.to_tokens(alloc, tokens)?;
    quote(alloc, tokens, "=")?;
    push_opened(alloc, tokens, formatter, opening)?;
    quote(alloc, tokens, ";")
}

/// Appends the method of a builder that adds an entry.
pub(crate) fn push_entry_start(
    alloc: Global,
    tokens: &mut TokenStream,
    builder: &Ident,
    key: &EntryKey,
) -> Result<(), AllocError>
    ensures ok { OnOk result (Prints (entry_start builder.now key.now) tokens.old tokens.new) }
    ensures prefix { HasPrefix tokens.old tokens.new }
{
    builder.to_tokens(alloc, tokens)?;
    match key {
        EntryKey::Unnamed | EntryKey::Named(_) => quote(alloc, tokens, ". field"),
        EntryKey::Mapped(_, _) => quote(alloc, tokens, ". entry"),
    }
}

/// Appends the key of an entry.
fn push_entry_key(alloc: Global, tokens: &mut TokenStream, key: &EntryKey) -> Result<(), AllocError>
    ensures ok { OnOk result (Prints (entry_key key.now) tokens.old tokens.new) }
    ensures prefix { HasPrefix tokens.old tokens.new }
{
    match key {
        EntryKey::Unnamed => Ok(()),
        EntryKey::Named(key) => {
            push_literal(alloc, tokens, key)?;
            quote(alloc, tokens, ",")
        }
        EntryKey::Mapped(helper, key) => {
            quote(alloc, tokens, "&")?;
            helper.to_tokens(alloc, tokens)?;
            push_in_round(alloc, tokens, key)?;
            quote(alloc, tokens, ",")
        }
    }
}

/// Appends what stands before the value of an entry: its key, and with true `&`.
pub(crate) fn push_entry_front(
    alloc: Global,
    tokens: &mut TokenStream,
    key: &EntryKey,
    by_reference: bool,
) -> Result<(), AllocError>
    ensures ok { OnOk result (Prints (entry_front key.now by_reference) tokens.old tokens.new) }
    ensures prefix { HasPrefix tokens.old tokens.new }
{
    push_entry_key(alloc, tokens, key)?;
    if by_reference {
        quote(alloc, tokens, "&")
    } else {
        Ok(())
    }
}

/// Appends the call that ends a builder.
pub(crate) fn push_finish(
    alloc: Global,
    tokens: &mut TokenStream,
    builder: &Ident,
) -> Result<(), AllocError>
    ensures ok { OnOk result (Prints (finish_printout builder.now) tokens.old tokens.new) }
    ensures prefix { HasPrefix tokens.old tokens.new }
{
    builder.to_tokens(alloc, tokens)?;
    quote(alloc, tokens, ". finish ( )")
}

/// The type of a map's keys and its `Debug`, by the names of the type and of the formatter.
const HELPER: &str =
    "struct #0 ( & 'static :: core :: primitive :: str ) ; impl :: core :: fmt :: Debug for #0 { fn fmt ( & self , #1 : & mut :: core :: fmt :: Formatter < '_ > ) -> :: core :: fmt :: Result { #1 . write_str ( self . 0 ) } }";

/// Appends the type of a map's keys and its `Debug`.
pub(crate) fn push_helper(
    alloc: Global,
    tokens: &mut TokenStream,
    helper: &Ident,
    formatter: &Ident,
) -> Result<(), AllocError>
    ensures ok { let found = helper_printout helper.now formatter.now in
        OnOk result (Prints found tokens.old tokens.new) }
    ensures prefix { HasPrefix tokens.old tokens.new }
{
    push_filled(alloc, tokens, HELPER, &[helper, formatter])
}
