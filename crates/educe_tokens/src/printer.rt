//! The printer: from tokens to a text.
ghost use Rattle.std.specs.Prelude.{◌≡◌, List, IsTrue, IfOk, OnOk, chars, [], ◌∷◌, ◌++◌, if◌then◌else◌};
ghost use Rattle.std.specs.String.{string_bytes};
ghost use Rattle.educe_tokens.specs.declared.token.Token.{Token};
ghost use Rattle.educe_tokens.specs.Lexes.{lexemes, LexesAside};
ghost use Rattle.educe_tokens.specs.Parts.{copied_tokens, part_tokens};
ghost use Rattle.educe_tokens.specs.Brackets.{kinds, IsBalanced};
ghost use Rattle.educe_tokens.specs.Text.{joins_next, is_no_doc, have_no_doc, puncts_join, IsWellFormed, text_behind, text_of};

use crate::copied::copied_kind;
use crate::seq::Seq;
use crate::stream::{Part, TokenStream};
use crate::token::Token;
use crate::written::Written;
use educe_tokens_pieces::TokenKind;
use std::alloc::{AllocError, Global};

fn joins_next(kind: TokenKind) -> bool
    ensures { result ≡ joins_next kind }
{
    matches!(kind, TokenKind::Punct(_, true))
}

/// Adds a text, behind a space unless it is joint with what is there.
fn push_spelling(out: &mut String, joint: bool, text: &str) -> Result<(), AllocError>
    ensures { OnOk result (chars (string_bytes out.new) ≡
        chars (string_bytes out.old) ++ ((if joint then [] else 32 ∷ []) ++ chars text.now)) }
{
    if !joint {
        out.push(' ')?;
    }
    out.push_str(text)?;
    Ok(())
}

fn is_no_doc(kind: TokenKind) -> bool
    ensures { result ≡ is_no_doc kind }
{
    !matches!(kind, TokenKind::Doc)
}

/// Whether no token is documentation. Then tokens that were read from a text may be printed.
pub fn have_no_doc(tokens: &Seq<Token>) -> bool
    ensures value { result ≡ have_no_doc (kinds (lexemes tokens.now)) }
    ensures printable { IsTrue result → IsBalanced (lexemes tokens.now) →
        IsTrue (puncts_join (kinds (lexemes tokens.now))) → IsWellFormed (lexemes tokens.now) }
{
    tokens.as_slice().iter().all(|token| is_no_doc(token.kind))
}

/// Adds the spellings, with one space between two tokens and none behind a joint punct. A template is
/// the text of its tokens.
pub fn push_text(out: &mut String, tokens: &TokenStream) -> Result<(), AllocError>
    ensures { OnOk result (chars (string_bytes out.new) ≡
        chars (string_bytes out.old) ++ text_of (lexemes tokens.now)) }
{
    let mut joint = true;
    for part in tokens.parts() {
        joint = push_part(out, joint, part)?;
    }
    Ok(())
}

/// Adds the text of a part behind a token that is joint or not, and answers whether its last token is
/// joint.
fn push_part(out: &mut String, joint: bool, part: &Part) -> Result<bool, AllocError>
    ensures { IfOk result (λ next. (more : List Token) →
        chars (string_bytes out.new) ++ text_behind next (lexemes more)
        ≡ chars (string_bytes out.old) ++ text_behind joint (lexemes (part_tokens part.now ++ more))) }
{
    match part {
        Part::Token(token) => {
            push_spelling(out, joint, token.spelling.as_str())?;
            Ok(joins_next(token.kind))
        }
        Part::Template(template) => {
            push_spelling(out, joint, template.text)?;
            Ok(false)
        }
        Part::Written(written) => push_copies(out, joint, written),
    }
}

/// Adds the text of copies of written tokens, and answers whether the last is joint.
fn push_copies(out: &mut String, joint: bool, written: &Written) -> Result<bool, AllocError>
    ensures { IfOk result (λ next. (more : List Token) →
        chars (string_bytes out.new) ++ text_behind next (lexemes more)
        ≡ chars (string_bytes out.old) ++ text_behind joint (lexemes (copied_tokens written.now.tokens ++ more))) }
{
    let mut joint = joint;
    let mut rest = written.tokens.as_slice();
    while let [first, behind @ ..] = rest {
        push_spelling(out, joint, first.spelling.as_str())?;
        joint = joins_next(copied_kind(first.kind, behind));
        rest = behind;
    }
    Ok(joint)
}

/// The spellings, with one space between two tokens and none behind a joint punct.
pub fn text(alloc: Global, tokens: &TokenStream) -> Result<String, AllocError>
    requires { IsWellFormed (lexemes tokens.now) }
    ensures spelled { IfOk result (λ s. chars (string_bytes s) ≡ text_of (lexemes tokens.now)) }
    ensures lexes { IfOk result (λ s. LexesAside (chars (string_bytes s)) (lexemes tokens.now)) }
{
    let mut out = String::new(alloc);
    push_text(&mut out, tokens)?;
    Ok(out)
}
