//! From the text of a definition to the text of its impls.
ghost use Rattle.std.specs.Prelude.{◌≡◌, ◌≢◌, ◌≤◌, length, chars, string_bytes, IfOk, IfErr, IsCharBoundary};
ghost use Rattle.educe_syntax.specs.DeriveInput.{DeriveInput};
ghost use Rattle.educe_syntax.specs.Parsed.{IsOnly};
ghost use Rattle.educe_tokens.specs.Message.{HasWords};
ghost use Rattle.educe_core.specs.Headline.{Defines, IsExpansion, IsCause, IsValid, IsUndefined, IsAlone};
ghost use Rattle.educe_core.specs.Expansion.{HasTokens, text_of_expansion, items_of_expansion, token_count_of_expansion};

use crate::handler::derive_input_handler;
use educe_body::{Items, spell};
use educe_syntax::{DeriveInput, parse_derive_input};
use educe_tokens::{EduceError, Kind, SOURCE_LIMIT, TokenSlice, lex};
use std::alloc::Global;

/// The impls of a definition, as text.
#[derive(Drop)]
pub struct Expansion {
    text: String,
    items: Items,
    tokens: usize,
}

impl Expansion {
    /// The whole text.
    #[tactic(auto, unfolding(crate::specs::Expansion::text_of_expansion))]
    pub fn text(&self) -> &str
        ensures { result.now ≡ text_of_expansion self.now }
    {
        self.text.as_str()
    }

    /// The whole text, taken out.
    #[tactic(auto, unfolding(crate::specs::Expansion::text_of_expansion))]
    pub(crate) fn into_text(self) -> String
        ensures { string_bytes result ≡ text_of_expansion self }
    {
        self.text
    }

    /// The items that the text spells.
    #[tactic(auto, unfolding(crate::specs::Expansion::items_of_expansion))]
    pub fn items(&self) -> &Items
        ensures { result.now ≡ items_of_expansion self.now }
    {
        &self.items
    }

    /// How many tokens the definition has.
    #[tactic(auto, unfolding(crate::specs::Expansion::token_count_of_expansion))]
    pub fn token_count(&self) -> usize
        ensures { result ≡ token_count_of_expansion self.now }
    {
        self.tokens
    }
}

/// The definition that a source is, within the limits, where its names are apart.
fn read(alloc: Global, source: &str) -> Result<DeriveInput, EduceError>
    requires { length source.now ≤ SOURCE_LIMIT }
    ensures defines { IfOk result (Defines (chars source.now)) }
    ensures cause { IfErr result (IsCause source.now) }
    // There is no other definition, and where there is one no other rejection.
    ensures only { (definition : DeriveInput) → Defines (chars source.now) definition →
        IsOnly definition result }
{
    let tokens = match lex(alloc, source) {
        Ok(tokens) => tokens,
        // (`?` would convert the rejection, which its clause takes as it is.)
        Err(lexical) => return Err(lexical),
    };
    match TokenSlice::new(alloc, tokens) {
        Ok(tokens) => parse_derive_input(alloc, &tokens),
        Err(_) => Err(EduceError::alloc(alloc)),
    }
}

/// How many tokens there are.
fn count(tokens: &TokenSlice) -> usize
    ensures { result ≡ length tokens.now }
{
    tokens.as_slice().len()
}

/// The expansion of a definition, or a rejection with its cause.
fn expanded(alloc: Global, source: &str) -> Result<Expansion, EduceError>
    requires { length source.now ≤ SOURCE_LIMIT }
    ensures done { IfOk result (λ e.
        IsExpansion source.now (items_of_expansion e) (text_of_expansion e)) }
    ensures counted { IfOk result (λ e. HasTokens source.now (token_count_of_expansion e)) }
    ensures cause { IfErr result (IsCause source.now) }
    ensures valid { IsValid source.now → IfErr result (λ e. e.kind ≡ Kind.Alloc) }
    ensures invalid { IfOk result (λ _. (e : EduceError) → e.kind ≢ Kind.Alloc →
        IsCause source.now e → ⊥) }
{
    let ast = match read(alloc, source) {
        Ok(ast) => ast,
        // (`?` would convert the rejection, which its clause takes as it is.)
        Err(unread) => return Err(unread),
    };
    let items = match derive_input_handler(alloc, &ast) {
        Ok(items) => items,
        // (`?` would convert the rejection, which its clause takes as it is.)
        Err(error) => return Err(error),
    };
    let tokens = count(&ast.tokens);
    match spell(alloc, &items) {
        Ok(text) => Ok(Expansion {
            text,
            items,
            tokens,
        }),
        Err(_) => Err(EduceError::alloc(alloc)),
    }
}

/// The expansion of a definition with `educe` attributes. A source is rejected, in this order, where it
/// does not lex, is no definition within the limits, or gives a name twice; where what the type lists
/// is wrong; and where an `educe` attribute of a variant or a field, or what is said of a listed trait, is
/// wrong, two fields have one rank, not one variant is the default one, or `Debug` has no name to show. Of
/// several causes of one phase any may be reported (documentation of `educe`, Traits).
pub fn expand(alloc: Global, source: &str) -> Result<Expansion, EduceError>
    requires { length source.now ≤ 131_072 }
    ensures done { IfOk result (λ e.
        IsExpansion source.now (items_of_expansion e) (text_of_expansion e)) }
    ensures counted { IfOk result (λ e. HasTokens source.now (token_count_of_expansion e)) }
    ensures cause { IfErr result (IsCause source.now) }
    // A valid text is expanded, or memory fails; a text with a cause is never expanded.
    ensures valid { IsValid source.now → IfErr result (λ e. e.kind ≡ Kind.Alloc) }
    ensures invalid { IfOk result (λ _. (e : EduceError) → e.kind ≢ Kind.Alloc →
        IsCause source.now e → ⊥) }
    // Where the source is no definition, no other rejection than the one that is answered has a cause,
    // out of memory aside.
    ensures alone { IsUndefined source.now →
        IfErr result (λ e. e.kind ≢ Kind.Alloc → IsAlone source.now e) }
    // Its rejection can be shown.
    ensures words { IfErr result (λ e. HasWords e.kind e.words) }
    ensures placed { IfErr result (λ e. IsCharBoundary source.now e.span.start) }
{
    expanded(alloc, source)
}
