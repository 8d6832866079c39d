//! The tokens of functions that make default values.
ghost use Rattle.std.specs.Prelude.{OnOk};
ghost use Rattle.educe_tokens.specs.Appends.{HasPrefix};
ghost use Rattle.educe_body_forms.specs.Printouts.{Prints, each};
ghost use Rattle.educe_body_items.specs.Items.{documentation, documentation_text, constructor_head, constructor_printout};

use crate::items::{Function, Functions};
use educe_body_forms::push_block;
use educe_tokens::{LiteralKind, Span, Spelling, Token, TokenKind, TokenStream, push_word, quote};
use std::alloc::{AllocError, Global};

/// What the documentation of a function that makes a default value says, as it is spelled.
const DOCUMENTATION: &str = "\" Returns the \\\"default value\\\" for a type.\"";

/// Appends the text of the documentation.
fn push_documentation_text(alloc: Global, tokens: &mut TokenStream) -> Result<(), AllocError>
    ensures ok { OnOk result (Prints documentation_text tokens.old tokens.new) }
    ensures prefix { HasPrefix tokens.old tokens.new }
{
    let spelling = Spelling::from_str(alloc, DOCUMENTATION)?;
    tokens.push(Token {
        kind: TokenKind::Literal(LiteralKind::Str),
        span: Span::NONE,
        spelling,
    })?;
    Ok(())
}

/// Appends the documentation as an attribute.
fn push_documentation(alloc: Global, tokens: &mut TokenStream) -> Result<(), AllocError>
    ensures ok { OnOk result (Prints documentation tokens.old tokens.new) }
    ensures prefix { HasPrefix tokens.old tokens.new }
{
    quote(alloc, tokens, "#")?;
    quote(alloc, tokens, "[")?;
    quote(alloc, tokens, "doc =")?;
    push_documentation_text(alloc, tokens)?;
    quote(alloc, tokens, "]")
}

/// Appends what stands before the block.
fn push_constructor_head(
    alloc: Global,
    tokens: &mut TokenStream,
    function: &Function,
) -> Result<(), AllocError>
    ensures ok { OnOk result (Prints (constructor_head function.now) tokens.old tokens.new) }
    ensures prefix { HasPrefix tokens.old tokens.new }
{
    push_documentation(alloc, tokens)?;
    quote(alloc, tokens, "pub fn")?;
    push_word(alloc, tokens, &function.name)?;
    quote(alloc, tokens, "( ) -> Self")
}

/// Appends a function that makes a default value.
fn push_constructor(
    alloc: Global,
    tokens: &mut TokenStream,
    function: &Function,
) -> Result<(), AllocError>
    ensures ok { OnOk result (Prints (constructor_printout function.now) tokens.old tokens.new) }
    ensures prefix { HasPrefix tokens.old tokens.new }
{
    push_constructor_head(alloc, tokens, function)?;
    push_block(alloc, tokens, &function.body.block)
}

/// Appends functions that make default values behind one another.
pub(crate) fn push_constructors(
    alloc: Global,
    tokens: &mut TokenStream,
    functions: &Functions,
) -> Result<(), AllocError>
    ensures ok { OnOk result (Prints (each constructor_printout functions.now) tokens.old tokens.new) }
    ensures prefix { HasPrefix tokens.old tokens.new }
{
    for function in functions.as_slice() {
        push_constructor(alloc, tokens, function)?;
    }
    Ok(())
}
