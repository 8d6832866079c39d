//! Token lists with their keys.
ghost use Rattle.std.specs.Prelude.{◌≡◌, IfOk};
ghost use Rattle.educe_tokens_interner.specs.Keys.{tokens_key};

use crate::keys::key_of_tokens;
use educe_tokens::Token;
use std::alloc::{AllocError, Global};
use std::marker::Model;

/// A token list with the key by which it is looked up, so that it is keyed once for several calls. A
/// contract sees the tokens.
#[derive(Drop)]
pub struct Keyed<'a> {
    tokens: &'a [Token],
    key: Vec<u32>,
}

impl<'a> Model for Keyed<'a> {
    ghost use Rattle.std.specs.Prelude.{◌≡◌, List};
    ghost use Rattle.educe_tokens.specs.declared.token.Token.{Token};
    ghost use Rattle.educe_tokens_interner.specs.Keys.{tokens_key};

    ghost Value = { List Token };

    ghost view = { λ keyed. keyed.tokens.now };

    ghost invariant = { λ keyed. keyed.key.items ≡ tokens_key keyed.tokens.now };
}

impl<'a> Keyed<'a> {
    /// The tokens with their key.
    pub fn new(alloc: Global, tokens: &'a [Token]) -> Result<Keyed<'a>, AllocError>
        ensures { IfOk result (λ keyed. keyed ≡ tokens.now) }
    {
        let key = key_of_tokens(alloc, tokens)?;
        Ok(Keyed { tokens, key })
    }

    /// The tokens, as they were lent.
    pub(crate) fn tokens(&self) -> &'a [Token]
        ensures { result.now ≡ self.now }
    {
        self.tokens
    }

    /// The key, lent.
    pub(crate) fn key(&self) -> &Vec<u32>
        ensures { result.now.items ≡ tokens_key self.now }
    {
        &self.key
    }

    /// The key, by value.
    pub(crate) fn into_key(self) -> Vec<u32>
        ensures { result.items ≡ tokens_key self.entry }
    {
        self.key
    }
}
