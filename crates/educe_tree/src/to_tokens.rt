//! Values that are printed as tokens, generated or as they were written.
ghost use Rattle.std.specs.Prelude.{◌≡◌, IfOk, OnOk, List, chars, map};
ghost use Rattle.std.specs.String.{string_bytes};
ghost use Rattle.educe_tokens.specs.Lexes.{Lexeme, LexesAside};
ghost use Rattle.educe_tokens.specs.Text.{IsWellFormed, text_of};
ghost use Rattle.educe_tokens.specs.Appends.{Appends, AppendsAt, HasPrefix};
ghost use Rattle.educe_tokens.specs.ToTokens.{EndsApart, LexesBack};
ghost use Rattle.educe_tokens.specs.WrittenLexemes.{written_lexemes};
ghost use Rattle.educe_tokens.specs.declared.written.Written.{Written};
ghost use Rattle.educe_tokens.proofs.Printable.{printable-written, well_formed_from, ends_apart_from, lexes_back_from};

use educe_tokens::{TokenStream, Written, append_written, text};
use std::alloc::{AllocError, Global};

/// A value that is printed as tokens, which may stand side by side with those of other values.
pub trait ToTokens {
    // The tokens of a value, spans aside.
    ghost lexemes_of: { Self → List Lexeme };

    /// Appends the tokens of the value.
    fn to_tokens(&self, alloc: Global, tokens: &mut TokenStream) -> Result<(), AllocError>
        ensures ok { OnOk result (Appends (lexemes_of self.now) tokens.old tokens.new) }
        ensures prefix { HasPrefix tokens.old tokens.new };

    // The brackets close in order, and each token may stand before the next.
    ghost well_formed: { (value : Self) → IsWellFormed (lexemes_of value) };

    // The last token is not joint.
    ghost ends_apart: { (value : Self) → EndsApart (lexemes_of value) };

    // The text of the tokens lexes as these tokens.
    ghost lexes_back: { (value : Self) → LexesBack (lexemes_of value) };
}

/// A value that holds its tokens as they were written, and is printed as these.
pub trait AsWritten {
    // The tokens that the value holds.
    ghost held: { Self → Written };

    /// The tokens that the value holds.
    fn written(&self) -> &Written
        ensures { result.now ≡ held self.now };
}

impl<T: AsWritten> ToTokens for T {
    ghost lexemes_of = { λ value. written_lexemes (T.held value) };

    ghost well_formed = { λ value. well_formed_from (printable-written (T.held value)) };

    ghost ends_apart = { λ value. ends_apart_from (printable-written (T.held value)) };

    ghost lexes_back = { λ value. lexes_back_from (printable-written (T.held value)) };

    /// Appends copies of the tokens, which keep their spans.
    fn to_tokens(&self, alloc: Global, tokens: &mut TokenStream) -> Result<(), AllocError>
        ensures ok { OnOk result (Appends (written_lexemes (T.held self.now)) tokens.old tokens.new) }
        ensures places { OnOk result (AppendsAt (map (λ t. t.span) (T.held self.now).tokens) tokens.old tokens.new) }
        ensures prefix { HasPrefix tokens.old tokens.new }
    {
        append_written(alloc, tokens, self.written())
    }
}

/// The text of a value: its tokens, printed.
pub fn text_of_tree<T: ToTokens>(alloc: Global, tree: &T) -> Result<String, AllocError>
    ensures spelled { IfOk result (λ s. chars (string_bytes s) ≡ text_of (T.lexemes_of tree.now)) }
    ensures lexes { IfOk result (λ s. LexesAside (chars (string_bytes s)) (T.lexemes_of tree.now)) }
    ensures well_formed { IsWellFormed (T.lexemes_of tree.now) }
    ensures ends_apart { EndsApart (T.lexemes_of tree.now) }
{
    let mut tokens = TokenStream::new(alloc);
    tree.to_tokens(alloc, &mut tokens)?;
    text(alloc, &tokens)
}
