//! The attributes of generated items (Rust Reference, Lint check attributes; The
//! `automatically_derived` attribute).
ghost use Rattle.std.specs.Prelude.{◌≡◌, ◌++◌, [], OnOk, IfOk, IsTrue, codes};
ghost use Rattle.educe_tokens.specs.Appends.{Appends};
ghost use Rattle.educe_tokens.specs.Copied.{copied, may_be_copied};
ghost use Rattle.educe_tokens.specs.Lexes.{lexemes};
ghost use Rattle.educe_tokens.specs.Quote.{quoted};
ghost use Rattle.educe_tokens.specs.WrittenLexemes.{written_lexemes};
ghost use Rattle.educe_attrs_generated.specs.Lints as spec;

use crate::balanced::may_be_copied;
use crate::word::is_one_word;
use educe_attrs_values::inside;
use educe_syntax::{Attributes, Expr, Meta, MetaPath};
use educe_tokens::{TokenSlice, TokenStream, Written, append_written, quote};
use std::alloc::{AllocError, Global};

/// Whether the path is `allow`, `warn` or `deny`.
#[tactic(auto, using(crate::proofs::Words::chars_allow, crate::proofs::Words::chars_warn, crate::proofs::Words::chars_deny))]
fn sets_level(path: &MetaPath) -> bool
    ensures { result ≡ spec.sets_level path.now }
{
    is_one_word(path, "allow") || is_one_word(path, "warn") || is_one_word(path, "deny")
}

/// Whether the path is `expect`.
#[tactic(auto, using(crate::proofs::Words::chars_expect))]
fn expects(path: &MetaPath) -> bool
    ensures { result ≡ spec.expects path.now }
{
    is_one_word(path, "expect")
}

/// Appends the attribute of a path alone.
fn push_word(alloc: Global, tokens: &mut TokenStream, path: &MetaPath) -> Result<(), AllocError>
    ensures { OnOk result (Appends (spec.attribute path.now []) tokens.old tokens.new) }
{
    quote(alloc, tokens, "# [")?;
    append_written(alloc, tokens, &path.written)?;
    quote(alloc, tokens, "]")
}

/// Appends the attribute of a path and the tokens behind it.
fn push_tokens(
    alloc: Global,
    tokens: &mut TokenStream,
    path: &MetaPath,
    behind: &Written,
) -> Result<(), AllocError>
    ensures { OnOk result (Appends (spec.attribute path.now (written_lexemes behind.now)) tokens.old tokens.new) }
{
    quote(alloc, tokens, "# [")?;
    append_written(alloc, tokens, &path.written)?;
    append_written(alloc, tokens, behind)?;
    quote(alloc, tokens, "]")
}

/// Appends the attribute of a path and the value behind `=`.
fn push_value(
    alloc: Global,
    tokens: &mut TokenStream,
    path: &MetaPath,
    value: &Expr,
) -> Result<(), AllocError>
    ensures { OnOk result
        (Appends (spec.attribute path.now (quoted (codes "=") ++ written_lexemes value.now.written)) tokens.old tokens.new) }
{
    quote(alloc, tokens, "# [")?;
    append_written(alloc, tokens, &path.written)?;
    quote(alloc, tokens, "=")?;
    append_written(alloc, tokens, &value.written)?;
    quote(alloc, tokens, "]")
}

/// Appends the attribute that allows these lints.
fn push_allowing(
    alloc: Global,
    tokens: &mut TokenStream,
    lints: TokenSlice,
) -> Result<(), AllocError>
    requires { IsTrue (may_be_copied (lexemes lints)) }
    ensures { OnOk result (Appends (spec.allowing (lexemes lints)) tokens.old tokens.new) }
{
    quote(alloc, tokens, "# [ allow (")?;
    append_written(alloc, tokens, &Written::new(lints))?;
    quote(alloc, tokens, ") ]")
}

/// Appends the attribute that allows what an `expect` list holds, of which both brackets are given.
fn push_allowed(
    alloc: Global,
    tokens: &mut TokenStream,
    list: &TokenSlice,
) -> Result<(), AllocError>
    ensures { OnOk result (Appends (spec.allowed list.now) tokens.old tokens.new) }
{
    let lints = inside(list)?;
    if may_be_copied(alloc, lints.as_slice())? {
        push_allowing(alloc, tokens, lints)
    } else {
        Ok(())
    }
}

/// Appends the lint attribute for a list.
fn push_of_list(
    alloc: Global,
    tokens: &mut TokenStream,
    path: &MetaPath,
    list: &Written,
) -> Result<(), AllocError>
    ensures { OnOk result (Appends (spec.lint_of_list path.now list.now) tokens.old tokens.new) }
{
    if sets_level(path) {
        push_tokens(alloc, tokens, path, list)
    } else if expects(path) {
        push_allowed(alloc, tokens, list.tokens())
    } else {
        Ok(())
    }
}

/// Appends the lint attribute for an attribute of the type, if it has one.
fn push_lint(alloc: Global, tokens: &mut TokenStream, meta: &Meta) -> Result<(), AllocError>
    ensures { OnOk result (Appends (spec.lint_of meta.now) tokens.old tokens.new) }
{
    match meta {
        Meta::Word(path) if sets_level(path) => push_word(alloc, tokens, path),
        Meta::List(path, list, _) => push_of_list(alloc, tokens, path, list),
        Meta::NameValue(path, value, _) if sets_level(path) => push_value(
            alloc, tokens, path, value,
        ),
        Meta::Unread(path, behind, _) if sets_level(path) => push_tokens(
            alloc, tokens, path, behind,
        ),
        _ => Ok(()),
    }
}

/// Appends the lint attributes for those of a type.
fn push_lints(
    alloc: Global,
    tokens: &mut TokenStream,
    attributes: &Attributes,
) -> Result<(), AllocError>
    ensures { OnOk result (Appends (spec.lints attributes.now) tokens.old tokens.new) }
{
    for attribute in attributes.as_slice() {
        push_lint(alloc, tokens, &attribute.meta)?;
    }
    Ok(())
}

/// The lint attributes of an item that is generated for a type with these attributes: each `allow`,
/// `warn` and `deny` as it was written, and for each `expect(..)` an `allow(..)`, since a generated
/// item need not cause the warning that the type expects (Rust Reference, Lint check attributes). The
/// tokens of the attributes keep their spans.
pub fn generated_lint_attributes(
    alloc: Global,
    attributes: &Attributes,
) -> Result<TokenSlice, AllocError>
    ensures lints { IfOk result (λ tokens. lexemes tokens ≡ spec.lints attributes.now) }
    // They may be copied to any place, as they are.
    ensures fit { IfOk result (λ tokens. IsTrue (may_be_copied (lexemes tokens))) }
    ensures kept { IfOk result (λ tokens. copied (lexemes tokens) ≡ lexemes tokens) }
{
    let mut tokens = TokenStream::new(alloc);
    push_lints(alloc, &mut tokens, attributes)?;
    let slice = tokens.into_slice(alloc)?;
    Ok(slice)
}

/// The attributes of an impl that is generated for a type with these attributes:
/// `#[automatically_derived]`, by which the compiler knows it for generated code, and then the lint
/// attributes (Rust Reference, The `automatically_derived` attribute).
pub fn generated_impl_attributes(
    alloc: Global,
    attributes: &Attributes,
) -> Result<TokenSlice, AllocError>
    ensures attributes { IfOk result (λ tokens. lexemes tokens ≡ spec.impl_attributes attributes.now) }
    // They may be copied to any place, as they are.
    ensures fit { IfOk result (λ tokens. IsTrue (may_be_copied (lexemes tokens))) }
    ensures kept { IfOk result (λ tokens. copied (lexemes tokens) ≡ lexemes tokens) }
{
    let mut tokens = TokenStream::new(alloc);
    quote(alloc, &mut tokens, "# [ automatically_derived ]")?;
    push_lints(alloc, &mut tokens, attributes)?;
    let slice = tokens.into_slice(alloc)?;
    Ok(slice)
}
