//! Identifiers (Rust Reference, Identifiers).
ghost use Rattle.std.specs.Prelude.{◌≡◌, IsTrue, IfOk, OnOk, [], ◌∷◌, chars, encode_utf8_all};
ghost use Rattle.educe_tokens.specs.TokenKind.TheVariants as token;
ghost use Rattle.educe_tokens.specs.Pieces.{spells};
ghost use Rattle.educe_tokens.specs.Quote.{is_ascii_name};
ghost use Rattle.educe_tokens.specs.Appends.{Appends, AppendsAt, HasPrefix};
ghost use Rattle.educe_tokens.proofs.Printable.{printable-ident, well_formed_from, ends_apart_from, lexes_back_from};
ghost use Rattle.educe_tree.specs.Names as names;

use crate::names::unraw;
use crate::to_tokens::ToTokens;
use educe_tokens::{Span, Spelling, Token, TokenKind, TokenStream};
use std::alloc::{AllocError, Global};

/// A name as it was written, and its place (Rust Reference, Identifiers).
#[derive(Drop)]
pub struct Ident {
    pub text: Spelling,
    pub span: Span,
    pub ghost spelled: { IsTrue (spells token.Ident text) },
}

impl Ident {
    /// A generated name of ASCII characters, which has no place in the source.
    #[tactic(auto, using(educe_tokens::proofs::Quoting::ascii_name_is))]
    pub fn from_name(alloc: Global, name: &str) -> Result<Ident, AllocError>
        requires { IsTrue (is_ascii_name name.now) }
        ensures text { IfOk result (λ ident. ident.text ≡ name.now) }
        ensures nowhere { IfOk result (λ ident. ident.span ≡ Span.NONE) }
    {
        let text = Spelling::from_str(alloc, name)?;
        let span = Span::NONE;
        Ok(Ident { text, span })
    }

    /// The name without a leading `r#`, by which names are compared (Rust Reference, Raw
    /// identifiers).
    pub fn unraw(&self) -> &str
        ensures chars { chars result.now ≡ names.unraw self.now.text }
        ensures bytes { result.now ≡ encode_utf8_all (names.unraw self.now.text) }
    {
        unraw(&self.text)
    }
}

impl ToTokens for Ident {
    ghost lexemes_of = { λ ident. record { kind = token.Ident; spelling = ident.text } ∷ [] };

    ghost well_formed = { λ ident. well_formed_from (printable-ident ident.text ident.spelled) };

    ghost ends_apart = { λ ident. ends_apart_from (printable-ident ident.text ident.spelled) };

    ghost lexes_back = { λ ident. lexes_back_from (printable-ident ident.text ident.spelled) };

    /// Appends the name as one token, which keeps its span.
    fn to_tokens(&self, alloc: Global, tokens: &mut TokenStream) -> Result<(), AllocError>
        ensures ok { OnOk result (Appends
            (record { kind = token.Ident; spelling = self.now.text } ∷ []) tokens.old tokens.new) }
        ensures places { OnOk result (AppendsAt (self.now.span ∷ []) tokens.old tokens.new) }
        ensures prefix { HasPrefix tokens.old tokens.new }
    {
        let spelling = self.text.duplicate(alloc)?;
        tokens.push(Token {
            kind: TokenKind::Ident,
            span: self.span,
            spelling,
        })?;
        Ok(())
    }
}
