//! What is searched for in a type.
ghost use Rattle.std.specs.Prelude.{◌≡◌};
ghost use Rattle.std.specs.List.{list_any};
ghost use Rattle.educe_bound_classes.specs.Names.{params_of};
ghost use Rattle.educe_bound_classes.specs.Questions as words;
ghost use Rattle.educe_bound_classes.specs.Sought as spec;

use crate::params::{Names, is_param};
use crate::paths::{begins_with_param, begins_with_type_param, begins_with_word, has_segment};
use educe_tokens::{Spelling, Token, TokenKind, Written};
use educe_tree::Path;

/// What is searched for in a type.
#[derive(Clone, Copy)]
pub enum Sought<'n, 'a> {
    /// A type parameter or a const parameter.
    Parameter(Names<'n, 'a>),
    /// The derived type of this name, given its parameters.
    Derived(Names<'n, 'a>, &'n Spelling),
}

/// Whether the token is a word that is a parameter.
fn is_param_word(names: Names<'_, '_>, token: &Token) -> bool
    ensures { result ≡ words.is_param_word (params_of names.entry) token.now }
{
    match token.kind {
        TokenKind::Ident => is_param(names, &token.spelling),
        _ => false,
    }
}

/// Whether a word of the tokens is the name of a parameter.
pub fn uses_in_words(names: Names<'_, '_>, written: &Written) -> bool
    ensures { result ≡ list_any (λ t. words.is_param_word (params_of names.entry) t) written.now.tokens }
{
    written
        .tokens()
        .as_slice()
        .iter()
        .any(|token| is_param_word(names, token))
}

/// Whether the path, which may follow a self type, is what is searched for.
#[tactic(auto, using(crate::proofs::ClassLaws::chars_Self))]
pub fn is_sought_at(sought: Sought<'_, '_>, behind: bool, path: &Path) -> bool
    ensures { result ≡ spec.sought_at sought.entry behind path.now }
{
    match sought {
        Sought::Parameter(names) => begins_with_param(names, path),
        Sought::Derived(names, name) => {
            !behind
                && !begins_with_type_param(names, path)
                && (has_segment(path, name) || begins_with_word(path, "Self"))
        }
    }
}

/// Whether a word of the tokens is what is searched for.
pub fn is_sought_in(sought: Sought<'_, '_>, written: &Written) -> bool
    ensures { result ≡ spec.sought_in sought.entry written.now.tokens }
{
    match sought {
        Sought::Parameter(names) => uses_in_words(names, written),
        Sought::Derived(_, _) => false,
    }
}
