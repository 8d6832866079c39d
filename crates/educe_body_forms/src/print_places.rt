//! The tokens of fields, of references to them, and of the places of variants.
ghost use Rattle.std.specs.Prelude.{OnOk};
ghost use Rattle.educe_tokens.specs.Appends.{HasPrefix};
ghost use Rattle.educe_body_forms.specs.Printouts.{Prints};
ghost use Rattle.educe_body_forms.specs.Tokens.{own_field_printout, lent_field_printout, place_printout, position_printout, form_printout};

use crate::form::Form;
use crate::position::Position;
use crate::print_patterns::push_count;
use educe_tokens::{TokenStream, Word, push_word, quote};
use educe_tree::{Ident, ToTokens};
use std::alloc::{AllocError, Global};

/// Appends a field of `self`.
pub(crate) fn push_own_field(
    alloc: Global,
    tokens: &mut TokenStream,
    key: &Word,
) -> Result<(), AllocError>
    ensures ok { OnOk result (Prints (own_field_printout key.now) tokens.old tokens.new) }
    ensures prefix { HasPrefix tokens.old tokens.new }
{
    quote(alloc, tokens, "self .")?;
    push_word(alloc, tokens, key)
}

/// Appends what may write a field of `self`.
pub(crate) fn push_lent_field(
    alloc: Global,
    tokens: &mut TokenStream,
    key: &Word,
) -> Result<(), AllocError>
    ensures ok { OnOk result (Prints (lent_field_printout key.now) tokens.old tokens.new) }
    ensures prefix { HasPrefix tokens.old tokens.new }
{
    quote(alloc, tokens, "& mut")?;
    push_own_field(alloc, tokens, key)
}

/// Appends the name of a value and the key of a field of it.
fn push_place(
    alloc: Global,
    tokens: &mut TokenStream,
    base: &Ident,
    field: &Word,
) -> Result<(), AllocError>
    ensures ok { OnOk result (Prints (place_printout base.now field.now) tokens.old tokens.new) }
    ensures prefix { HasPrefix tokens.old tokens.new }
{
    base.to_tokens(alloc, tokens)?;
    quote(alloc, tokens, ".")?;
    push_word(alloc, tokens, field)
}

/// Appends a reference to a field.
pub(crate) fn push_reference(
    alloc: Global,
    tokens: &mut TokenStream,
    base: &Ident,
    field: &Word,
) -> Result<(), AllocError>
    ensures ok { let form = Form.Reference base.now field.now in
        OnOk result (Prints (form_printout form) tokens.old tokens.new) }
    ensures prefix { HasPrefix tokens.old tokens.new }
{
    quote(alloc, tokens, "&")?;
    push_place(alloc, tokens, base, field)
}

/// Appends a reference to a copy of a field.
pub(crate) fn push_braced_copy(
    alloc: Global,
    tokens: &mut TokenStream,
    base: &Ident,
    field: &Word,
) -> Result<(), AllocError>
    ensures ok { let form = Form.BracedCopy base.now field.now in
        OnOk result (Prints (form_printout form) tokens.old tokens.new) }
    ensures prefix { HasPrefix tokens.old tokens.new }
{
    quote(alloc, tokens, "&")?;
    quote(alloc, tokens, "{")?;
    push_place(alloc, tokens, base, field)?;
    quote(alloc, tokens, "}")
}

/// Appends a call of a key function.
pub(crate) fn push_key_call(
    alloc: Global,
    tokens: &mut TokenStream,
    function: &Ident,
    value: &Ident,
) -> Result<(), AllocError>
    ensures ok { let form = Form.Key function.now value.now in
        OnOk result (Prints (form_printout form) tokens.old tokens.new) }
    ensures prefix { HasPrefix tokens.old tokens.new }
{
    quote(alloc, tokens, "&")?;
    function.to_tokens(alloc, tokens)?;
    quote(alloc, tokens, "(")?;
    value.to_tokens(alloc, tokens)?;
    quote(alloc, tokens, ")")
}

/// Appends the place of a variant.
pub(crate) fn push_position(
    alloc: Global,
    tokens: &mut TokenStream,
    position: Position,
) -> Result<(), AllocError>
    ensures ok { OnOk result (Prints (position_printout position) tokens.old tokens.new) }
    ensures prefix { HasPrefix tokens.old tokens.new }
{
    quote(alloc, tokens, "&")?;
    push_count(alloc, tokens, position.place)
}
