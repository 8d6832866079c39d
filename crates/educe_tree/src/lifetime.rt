//! Lifetimes (Rust Reference, Lifetimes and loop labels).
ghost use Rattle.std.specs.Prelude.{IsTrue, OnOk, [], ◌∷◌};
ghost use Rattle.educe_tokens.specs.TokenKind.TheVariants as token;
ghost use Rattle.educe_tokens.specs.Pieces.{spells};
ghost use Rattle.educe_tokens.specs.Appends.{Appends, AppendsAt, HasPrefix};
ghost use Rattle.educe_tokens.proofs.Printable.{well_formed_from, ends_apart_from, lexes_back_from};
ghost use Rattle.educe_tree.specs.Printed.{printable-lifetime};

use crate::to_tokens::ToTokens;
use educe_tokens::{Span, Spelling, Token, TokenKind, TokenStream};
use std::alloc::{AllocError, Global};

/// A lifetime as it was written, its `'` included, and its place (Rust Reference, Lifetimes and
/// loop labels).
#[derive(Drop)]
pub struct Lifetime {
    pub text: Spelling,
    pub span: Span,
    pub ghost spelled: { IsTrue (spells token.Lifetime text) },
}

impl ToTokens for Lifetime {
    ghost lexemes_of = { λ lifetime. record { kind = token.Lifetime; spelling = lifetime.text } ∷ [] };

    ghost well_formed = { λ lifetime. well_formed_from (printable-lifetime lifetime.text lifetime.spelled) };

    ghost ends_apart = { λ lifetime. ends_apart_from (printable-lifetime lifetime.text lifetime.spelled) };

    ghost lexes_back = { λ lifetime. lexes_back_from (printable-lifetime lifetime.text lifetime.spelled) };

    /// Appends the lifetime as one token, which keeps its span.
    fn to_tokens(&self, alloc: Global, tokens: &mut TokenStream) -> Result<(), AllocError>
        ensures ok { OnOk result (Appends
            (record { kind = token.Lifetime; spelling = self.now.text } ∷ []) tokens.old tokens.new) }
        ensures places { OnOk result (AppendsAt (self.now.span ∷ []) tokens.old tokens.new) }
        ensures prefix { HasPrefix tokens.old tokens.new }
    {
        let spelling = self.text.duplicate(alloc)?;
        tokens.push(Token {
            kind: TokenKind::Lifetime,
            span: self.span,
            spelling,
        })?;
        Ok(())
    }
}
