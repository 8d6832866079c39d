//! The key of a field, as it is printed and as the binding of the field is named (Rust Reference,
//! Field access expressions; Tuple indexing expressions).
ghost use Rattle.std.specs.Prelude.{◌≡◌, IsTrue, IfOk, OnOk, [], ◌∷◌, chars};
ghost use Rattle.std.specs.Option.{option_copied};
ghost use Rattle.educe_tokens.specs.Spells.{IsWord};
ghost use Rattle.educe_tokens.specs.Lexes.{lexemes};
ghost use Rattle.educe_tokens.specs.Appends.{Appends, HasPrefix};
ghost use Rattle.educe_tokens.specs.Text.{is_written};
ghost use Rattle.educe_tokens.proofs.Printable.{well_formed_from, ends_apart_from, lexes_back_from};
ghost use Rattle.educe_body_forms.specs.FieldKeys.{key_of, key_lexeme, key_lexemes, binding_text, name_lexemes, field_lexemes};
ghost use Rattle.educe_body_forms.specs.KeyLaws.{key_printable};

use crate::bindings::{index_binding, name_binding};
use crate::keys::index_word;
use educe_tokens::{Seq, Span, Token, TokenStream, push_word, quote};
use educe_tree::{Duplicate, Ident, ToTokens};
use std::alloc::{AllocError, Global};

/// The key of a field: its name, or its place among the fields of a tuple, counted from 0.
#[derive(Drop)]
pub enum IdentOrIndex {
    Ident(Ident),
    Index(u32),
}

impl From<Ident> for IdentOrIndex {
    ghost use Rattle.std.specs.Prelude.{◌≡◌};
    ghost use Rattle.educe_body_forms.specs.declared.ident_or_index.IdentOrIndex.TheVariants as key;

    ghost from_gives = { λ name found. found ≡ key.Ident name };

    fn from(name: Ident) -> IdentOrIndex {
        IdentOrIndex::Ident(name)
    }
}

impl From<u32> for IdentOrIndex {
    ghost use Rattle.std.specs.Prelude.{◌≡◌};
    ghost use Rattle.educe_body_forms.specs.declared.ident_or_index.IdentOrIndex.TheVariants as key;

    ghost from_gives = { λ index found. found ≡ key.Index index };

    fn from(index: u32) -> IdentOrIndex {
        IdentOrIndex::Index(index)
    }
}

impl IdentOrIndex {
    /// A copy of the field's name, or its index where it has none. Fails only where memory runs out.
    pub fn from_ident_with_index(
        alloc: Global,
        ident: Option<&Ident>,
        index: u32,
    ) -> Result<IdentOrIndex, AllocError>
        ensures { IfOk result (λ key. key ≡ key_of (option_copied ident.entry) index) }
    {
        match ident {
            Some(name) => Ok(IdentOrIndex::Ident(name.duplicate(alloc)?)),
            None => Ok(IdentOrIndex::Index(index)),
        }
    }

    /// The name of a local variable for the field, at no place: the prefix, and behind it the name
    /// without `r#` or the decimal digits of the index (Rust Reference, Identifiers). Fails only
    /// where memory runs out.
    pub fn to_binding(&self, alloc: Global, prefix: &str) -> Result<Ident, AllocError>
        requires { IsWord (chars prefix.now) }
        ensures text { IfOk result (λ ident. ident.text ≡ binding_text (chars prefix.now) self.now) }
        ensures nowhere { IfOk result (λ ident. ident.span ≡ Span.NONE) }
    {
        match self {
            IdentOrIndex::Ident(name) => name_binding(alloc, prefix, name),
            IdentOrIndex::Index(index) => index_binding(alloc, prefix, *index as usize),
        }
    }

    /// An initializer of the field, `name : value ,`, or where it has no name `value ,` (Rust
    /// Reference, Struct expressions). The name and the value keep their spans. Fails only where
    /// memory runs out.
    pub fn to_field(&self, alloc: Global, value: &Seq<Token>) -> Result<Seq<Token>, AllocError>
        ensures tokens { IfOk result (λ tokens. lexemes tokens ≡ field_lexemes self.now (lexemes value.now)) }
        ensures written { IfOk result (λ tokens.
            IsTrue (is_written (lexemes value.now)) → IsTrue (is_written (lexemes tokens))) }
    {
        let tokens = self.field_tokens(alloc, value)?;
        Ok(tokens)
    }
}

impl IdentOrIndex {
    /// The tokens of an initializer.
    fn field_tokens(&self, alloc: Global, value: &Seq<Token>) -> Result<Seq<Token>, AllocError>
        ensures { IfOk result (λ tokens. lexemes tokens ≡ field_lexemes self.now (lexemes value.now)) }
    {
        let mut tokens = TokenStream::new(alloc);
        self.push_name(alloc, &mut tokens)?;
        tokens.append(value.duplicate(alloc)?)?;
        quote(alloc, &mut tokens, ",")?;
        let initializer = tokens.into_tokens(alloc)?;
        Ok(initializer)
    }

    /// Appends the name of the field and a colon, where it has a name.
    fn push_name(&self, alloc: Global, tokens: &mut TokenStream) -> Result<(), AllocError>
        ensures ok { OnOk result (Appends (name_lexemes self.now) tokens.old tokens.new) }
        ensures prefix { HasPrefix tokens.old tokens.new }
    {
        match self {
            IdentOrIndex::Ident(name) => {
                name.to_tokens(alloc, tokens)?;
                quote(alloc, tokens, ":")
            }
            IdentOrIndex::Index(_) => Ok(()),
        }
    }
}

impl ToTokens for IdentOrIndex {
    ghost lexemes_of = { key_lexemes };

    ghost well_formed = { λ key. well_formed_from (key_printable key) };

    ghost ends_apart = { λ key. ends_apart_from (key_printable key) };

    ghost lexes_back = { λ key. lexes_back_from (key_printable key) };

    /// Appends the one token that the key is.
    fn to_tokens(&self, alloc: Global, tokens: &mut TokenStream) -> Result<(), AllocError>
        ensures ok { OnOk result (Appends (key_lexemes self.now) tokens.old tokens.new) }
        ensures key { OnOk result (Appends (key_lexeme self.now ∷ []) tokens.old tokens.new) }
        ensures prefix { HasPrefix tokens.old tokens.new }
    {
        match self {
            IdentOrIndex::Ident(name) => name.to_tokens(alloc, tokens),
            IdentOrIndex::Index(index) => {
                let digits = index_word(alloc, *index as usize)?;
                push_word(alloc, tokens, &digits)
            }
        }
    }
}
