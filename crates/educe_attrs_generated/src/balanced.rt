//! The test whether tokens may be copied to another place.
ghost use Rattle.std.specs.Prelude.{◌≡◌, [], None, Some, IfOk, if◌then◌else◌, reverse};
ghost use Rattle.educe_tokens.specs.Brackets.{closes as closes_behind, kinds, open_after};
ghost use Rattle.educe_tokens.specs.Copied.{may_be_copied};
ghost use Rattle.educe_tokens.specs.Lexes.{lexemes};
ghost use Rattle.educe_tokens.specs.Text.{have_no_doc, is_no_doc};

use educe_tokens::{Bracket, Token, TokenKind};
use std::alloc::{AllocError, Global};

/// Puts one more token behind the open brackets, the innermost last. Whether it closes no other than
/// the innermost one.
fn goes_on(outer: &mut Vec<Bracket>, kind: TokenKind) -> Result<bool, AllocError>
    ensures { IfOk result (λ fits. open_after (reverse outer.old.items) kind ≡ (if fits then Some (reverse outer.new.items) else None)) }
{
    match kind {
        TokenKind::Start(bracket) => {
            outer.push(bracket)?;
            Ok(true)
        }
        TokenKind::Stop(bracket) => match outer.pop() {
            Some(innermost) => Ok(innermost == bracket),
            None => Ok(false),
        },
        _ => Ok(true),
    }
}

/// Whether the brackets of the tokens close in order (Rust Reference, Delimiters).
fn closes(alloc: Global, tokens: &[Token]) -> Result<bool, AllocError>
    ensures { IfOk result (λ closes. closes ≡ closes_behind [] (kinds (lexemes tokens.now))) }
{
    let mut outer = Vec::new(alloc);
    let mut rest = tokens;
    while let [first, behind @ ..] = rest {
        if !goes_on(&mut outer, first.kind)? {
            return Ok(false);
        }
        rest = behind;
    }
    Ok(outer.is_empty())
}

/// Whether the token is no documentation.
fn is_no_doc(kind: TokenKind) -> bool
    ensures { result ≡ is_no_doc kind }
{
    !matches!(kind, TokenKind::Doc)
}

/// Whether no token is documentation.
fn have_no_doc(tokens: &[Token]) -> bool
    ensures { result ≡ have_no_doc (kinds (lexemes tokens.now)) }
{
    tokens.iter().all(|token| is_no_doc(token.kind))
}

/// Whether copies of the tokens may stand anywhere: their brackets close in order, and none is
/// documentation.
pub fn may_be_copied(alloc: Global, tokens: &[Token]) -> Result<bool, AllocError>
    ensures { IfOk result (λ may. may ≡ may_be_copied (lexemes tokens.now)) }
{
    Ok(closes(alloc, tokens)? && have_no_doc(tokens))
}
