//! What a path calls where names are in scope (Rust Reference, Names; Scopes).
ghost use Rattle.std.specs.Prelude.{◌≡◌, IfOk, chars};
ghost use Rattle.std.specs.Str.{bytes_eq};
ghost use Rattle.educe_tree.specs.Names as tree;
ghost use Rattle.educe_body_values.specs.Scoping as spec;

use educe_body_values::{Binding, Callee, built_in, text_of_path};
use educe_tokens::{Spelling, Token, TokenKind};
use educe_tree::{ExprPath, unraw};
use std::alloc::{AllocError, Global};

/// Whether the text is this name, a leading `r#` aside.
fn is_name(text: &Spelling, name: &str) -> bool
    ensures { result ≡ bytes_eq (tree.unraw text.now) (chars name.now) }
{
    unraw(text) == name
}

/// Whether the binding hides what a text means by this name: `self`, a keyword, hides nothing.
fn hides(binding: &Binding, name: &str) -> bool
    ensures { result ≡ spec.hides binding.now (chars name.now) }
{
    !binding.name.spells("self") && is_name(&binding.name, name)
}

/// Whether the name is one in scope.
fn is_hidden(names: &[Binding], name: &str) -> bool
    ensures { result ≡ spec.is_hidden names.now (chars name.now) }
{
    names.iter().any(|binding| hides(binding, name))
}

/// Whether the token is a name in scope.
fn is_bound(names: &[Binding], token: &Token) -> bool
    ensures { result ≡ spec.is_bound names.now token.now }
{
    match token.kind {
        TokenKind::Ident => is_hidden(names, unraw(&token.spelling)),
        _ => false,
    }
}

/// Whether one of the tokens is a name in scope.
pub(crate) fn names_bound(names: &[Binding], tokens: &[Token]) -> bool
    ensures { result ≡ spec.names_bound names.now tokens.now }
{
    tokens.iter().any(|token| is_bound(names, token))
}

/// What a path calls where these names are in scope. A path that is not built in calls nothing where
/// one of its names is in scope.
pub(crate) fn callee_in(
    alloc: Global,
    names: &[Binding],
    path: &ExprPath,
) -> Result<Option<Callee>, AllocError>
    ensures { IfOk result (λ callee. callee ≡ spec.callee_in names.now path.now) }
{
    match built_in(path) {
        Some(which) => Ok(Some(which.callee())),
        None => {
            if names_bound(names, path.written.tokens().as_slice()) {
                return Ok(None);
            }
            Ok(Some(Callee::Written(text_of_path(alloc, path)?)))
        }
    }
}
