//! Token lists that are printed; what was appended in one step is kept as one part.
ghost use Rattle.std.specs.Prelude.{◌≡◌, [], ◌∷◌, ◌++◌, OnOk, OnErr, IfOk, map};
ghost use Rattle.std.specs.List.{flat_map};
ghost use Rattle.educe_tokens.specs.Parts.{copied_tokens, part_tokens, template_tokens};
ghost use Rattle.educe_tokens.specs.Appends.{Appends, AppendsAt, HasPrefix};
ghost use Rattle.educe_tokens.specs.WrittenLexemes.{written_lexemes};

use crate::copied::copied_token;
use crate::kept_template::KeptTemplate;
use crate::seq::Seq;
use crate::slice::TokenSlice;
use crate::template::push_words;
use crate::token::Token;
use crate::written::Written;
use std::alloc::{AllocError, Global};
use std::marker::Model;

/// What is appended in one step, as it is kept until it is printed.
#[derive(Drop)]
pub(crate) enum Part {
    /// One token.
    Token(Token),
    /// A template, which stands for its tokens.
    Template(KeptTemplate),
    /// Written tokens, which stand for their copies and share their list.
    Written(Written),
}

/// A token list that grows at its end and is printed. A contract sees the tokens, and not the parts in
/// which they were appended: a template is kept as its text, and written tokens share their list.
#[derive(Drop)]
pub struct TokenStream {
    parts: Vec<Part>,
}

impl Model for TokenStream {
    ghost use Rattle.std.specs.Prelude.{List};
    ghost use Rattle.std.specs.List.{flat_map};
    ghost use Rattle.educe_tokens.specs.declared.token.Token.{Token};
    ghost use Rattle.educe_tokens.specs.Parts.{part_tokens};

    ghost Value = { List Token };

    ghost view = { λ stream. flat_map part_tokens stream.parts.items };
}

impl TokenStream {
    /// The empty list. It takes no memory.
    pub fn new(alloc: Global) -> TokenStream
        ensures { result ≡ [] }
    {
        TokenStream {
            parts: Vec::new(alloc),
        }
    }

    /// Adds a token at the end.
    pub fn push(&mut self, token: Token) -> Result<(), AllocError>
        ensures ok { OnOk result (self.new ≡ self.old ++ token ∷ []) }
        ensures err { OnErr result (self.new ≡ self.old) }
    {
        self.parts.push(Part::Token(token))?;
        Ok(())
    }

    /// Adds the tokens of a template at the end.
    pub(crate) fn push_template(&mut self, template: KeptTemplate) -> Result<(), AllocError>
        ensures ok { OnOk result (self.new ≡ self.old ++ template_tokens template) }
        ensures err { OnErr result (self.new ≡ self.old) }
    {
        self.parts.push(Part::Template(template))?;
        Ok(())
    }

    /// Adds copies of written tokens at the end, which share the list.
    pub(crate) fn push_written(&mut self, written: Written) -> Result<(), AllocError>
        ensures ok { OnOk result (self.new ≡ self.old ++ copied_tokens written.tokens) }
        ensures err { OnErr result (self.new ≡ self.old) }
    {
        self.parts.push(Part::Written(written))?;
        Ok(())
    }

    /// Adds the tokens of a list at the end. Where memory fails, some may be there.
    pub fn append(&mut self, tokens: Seq<Token>) -> Result<(), AllocError>
        ensures ok { OnOk result (self.new ≡ self.old ++ tokens) }
        ensures prefix { HasPrefix self.old self.new }
    {
        for token in tokens.into_items() {
            self.push(token)?;
        }
        Ok(())
    }

    /// Drops all tokens, and keeps the memory for others.
    pub fn clear(&mut self)
        ensures { self.new ≡ [] }
    {
        self.parts.clear();
    }

    /// The parts as a slice.
    pub(crate) fn parts(&self) -> &[Part]
        ensures { flat_map part_tokens result.now ≡ self.now }
    {
        self.parts.as_slice()
    }

    /// Returns the tokens as a list, for which those of templates and copies are made.
    pub fn into_tokens(self, alloc: Global) -> Result<Seq<Token>, AllocError>
        ensures { IfOk result (λ tokens. tokens ≡ self) }
    {
        let mut tokens = Seq::new(alloc);
        for part in self.parts {
            push_part(alloc, &mut tokens, part)?;
        }
        Ok(tokens)
    }

    /// Returns the tokens as a list that several owners may share.
    pub fn into_slice(self, alloc: Global) -> Result<TokenSlice, AllocError>
        ensures { IfOk result (λ slice. slice ≡ self) }
    {
        let tokens = self.into_tokens(alloc)?;
        TokenSlice::new(alloc, tokens)
    }
}

/// Appends the tokens of a part.
fn push_part(alloc: Global, tokens: &mut Seq<Token>, part: Part) -> Result<(), AllocError>
    ensures { OnOk result (tokens.new ≡ tokens.old ++ part_tokens part) }
{
    match part {
        Part::Token(token) => tokens.push(token),
        Part::Template(template) => {
            push_words(alloc, tokens, template.text)?;
            Ok(())
        }
        Part::Written(written) => {
            push_copies(alloc, tokens, &written)?;
            Ok(())
        }
    }
}

/// Appends copies of tokens as they were written, their spans kept.
fn push_copies(alloc: Global, tokens: &mut Seq<Token>, written: &Written) -> Result<(), AllocError>
    ensures ok { OnOk result (Appends (written_lexemes written.now) tokens.old tokens.new) }
    ensures places { OnOk result (AppendsAt (map (λ t. t.span) written.now.tokens) tokens.old tokens.new) }
{
    let mut rest = written.tokens.as_slice();
    while let [first, behind @ ..] = rest {
        tokens.push(copied_token(alloc, first, behind)?)?;
        rest = behind;
    }
    Ok(())
}
