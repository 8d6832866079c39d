//! The head that replaces `Self`: the name of the definition with its parameters as arguments.
ghost use Rattle.std.specs.Prelude.{IsTrue, OnOk, [], ◌∷◌, map};
ghost use Rattle.std.specs.List.{flat_map};
ghost use Rattle.educe_tokens.specs.Pieces.{spells};
ghost use Rattle.educe_tokens.specs.Quote.{is_template, quoted};
ghost use Rattle.educe_syntax_self.specs.Heads as spec;
ghost use Rattle.educe_syntax_self.specs.Heads.{Adds};

use educe_tokens::{Span, Spelling, Token, TokenKind, TokenStream, quote};
use educe_tree::{GenericParam, Ident, Lifetime};
use std::alloc::{AllocError, Global};

/// Appends the token of this kind that the text spells, at no place.
fn push(tokens: &mut TokenStream, kind: TokenKind, spelling: Spelling) -> Result<(), AllocError>
    requires { IsTrue (spells kind spelling) }
    ensures { OnOk result (Adds (record { kind = kind; spelling = spelling } ∷ []) tokens.old tokens.new) }
{
    let span = Span::NONE;
    tokens.push(Token {
        kind,
        span,
        spelling,
    })
}

/// Appends the name, at no place.
fn push_name(alloc: Global, tokens: &mut TokenStream, name: &Ident) -> Result<(), AllocError>
    ensures { OnOk result (Adds (spec.name name.now.text ∷ []) tokens.old tokens.new) }
{
    push(tokens, TokenKind::Ident, name.text.duplicate(alloc)?)
}

/// Appends the lifetime, at no place.
fn push_lifetime(
    alloc: Global,
    tokens: &mut TokenStream,
    lifetime: &Lifetime,
) -> Result<(), AllocError>
    ensures { OnOk result (Adds (spec.lifetime lifetime.now.text ∷ []) tokens.old tokens.new) }
{
    push(tokens, TokenKind::Lifetime, lifetime.text.duplicate(alloc)?)
}

/// Appends the tokens of a template, at no place.
fn push_template(
    alloc: Global,
    tokens: &mut TokenStream,
    template: &'static str,
) -> Result<(), AllocError>
    requires { IsTrue (is_template template.now) }
    ensures { OnOk result (Adds (quoted template.now) tokens.old tokens.new) }
{
    quote(alloc, tokens, template)?;
    Ok(())
}

/// Appends the name of the parameter.
fn push_argument(
    alloc: Global,
    tokens: &mut TokenStream,
    param: &GenericParam,
) -> Result<(), AllocError>
    ensures { OnOk result (Adds (spec.argument_of param.now ∷ []) tokens.old tokens.new) }
{
    match param {
        GenericParam::Lifetime(param) => push_lifetime(alloc, tokens, &param.lifetime),
        GenericParam::TypeParam(param) => push_name(alloc, tokens, &param.ident),
        GenericParam::Const(param) => push_name(alloc, tokens, &param.ident),
    }
}

/// Appends the names of parameters, with a comma before each.
fn push_more(
    alloc: Global,
    tokens: &mut TokenStream,
    params: &[GenericParam],
) -> Result<(), AllocError>
    ensures { OnOk result (Adds (flat_map spec.behind_comma (map spec.argument_of params.now)) tokens.old tokens.new) }
{
    for param in params {
        push_template(alloc, tokens, ",")?;
        push_argument(alloc, tokens, param)?;
    }
    Ok(())
}

/// Appends the names of parameters in angle brackets behind `::`.
fn push_arguments(
    alloc: Global,
    tokens: &mut TokenStream,
    first: &GenericParam,
    more: &[GenericParam],
) -> Result<(), AllocError>
    ensures { OnOk result (Adds (spec.arguments (spec.argument_of first.now) (map spec.argument_of more.now)) tokens.old tokens.new) }
{
    push_template(alloc, tokens, ":: <")?;
    push_argument(alloc, tokens, first)?;
    push_more(alloc, tokens, more)?;
    push_template(alloc, tokens, ">")?;
    Ok(())
}

/// Appends the head: the name alone where there are no parameters, and else with their names as its
/// arguments.
pub(crate) fn push_head(
    alloc: Global,
    tokens: &mut TokenStream,
    name: &Ident,
    params: &[GenericParam],
) -> Result<(), AllocError>
    ensures { OnOk result (Adds (spec.head_of name.now.text (map spec.argument_of params.now)) tokens.old tokens.new) }
{
    push_name(alloc, tokens, name)?;
    match params {
        [] => Ok(()),
        [first, more @ ..] => {
            push_arguments(alloc, tokens, first, more)?;
            Ok(())
        }
    }
}
