//! What tokens begin with: `Self`, or the call of a macro.
ghost use Rattle.std.specs.Prelude.{◌≡◌};
ghost use Rattle.educe_grammar.specs.Ahead as ahead;
ghost use Rattle.educe_syntax_self.specs.Selves as spec;

use educe_grammar::{Keyword, Terminal};
use educe_tokens::{Token, TokenKind};

/// Whether the token is the word `Self` (Rust Reference, Keywords).
fn is_self(token: &Token) -> bool
    ensures { result ≡ spec.is_self token.now }
{
    Terminal::Word(Keyword::SelfType).accepts(token)
}

/// Whether the token is this punct.
pub(crate) fn is_sign(c: char, token: &Token) -> bool
    ensures { result ≡ ahead.is_sign c token.now.kind }
{
    match token.kind {
        TokenKind::Punct(d, _) => d == c,
        _ => false,
    }
}

/// Whether the token is this punct, and the next one follows it at once.
pub(crate) fn is_joint(c: char, token: &Token) -> bool
    ensures { result ≡ ahead.is_joint c token.now.kind }
{
    match token.kind {
        TokenKind::Punct(d, joint) => d == c && joint,
        _ => false,
    }
}

/// Whether the token is a bracket that opens (Rust Reference, Delimiters).
fn is_opening(token: &Token) -> bool
    ensures { result ≡ spec.is_opening token.now.kind }
{
    match token.kind {
        TokenKind::Start(_) => true,
        _ => false,
    }
}

/// Whether the tokens begin with `!` and a bracket that opens, as in the call of a macro.
#[tactic(auto, unfolding(crate::specs::Selves::begins_call))]
pub(crate) fn begins_call(tokens: &[Token]) -> bool
    ensures { result ≡ spec.begins_call tokens.now }
{
    match tokens {
        [first, second, ..] => is_sign('!', first) && is_opening(second),
        _ => false,
    }
}

/// Whether the tokens begin with `Self`.
#[tactic(auto, unfolding(crate::specs::Selves::begins_self))]
pub(crate) fn begins_self(tokens: &[Token]) -> bool
    ensures { result ≡ spec.begins_self tokens.now }
{
    match tokens {
        [first, ..] => is_self(first),
        [] => false,
    }
}
