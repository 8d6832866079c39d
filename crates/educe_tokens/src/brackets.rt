//! Whether brackets close in order, and where they don't.
ghost use Rattle.std.specs.Prelude.{◌≡◌, ◌≤◌, length, IfErr, OnOk, vec_len, reverse, encode_utf8_all, List, ℕ};
ghost use Rattle.educe_tokens.specs.Lexes.{lexemes, Lexes};
ghost use Rattle.educe_tokens.specs.Brackets.{open_after, depth_after, IsBalanced, NestsWithin};
ghost use Rattle.educe_tokens.specs.Causes.{IsLexicalCauseWithin};
ghost use Rattle.educe_tokens.specs.Steps.{IsCauseOfKind, refusal_of};

use crate::error::{EduceError, Kind};
use crate::seq::Seq;
use crate::span::Span;
use crate::token::Token;
use educe_tokens_pieces::{Bracket, TokenKind};
use std::alloc::Global;

/// How many brackets may be open at once, where nothing else is said.
pub const NESTING: usize = 128;

/// Why a token is rejected where certain brackets are open.
#[derive(Clone, Copy, Debug, PartialEq, Eq)]
pub enum BracketError {
    /// It closes another bracket than the innermost one, or none.
    WrongClose,
    /// It opens a bracket where as many are open as may be.
    TooDeep,
    /// Out of memory.
    Alloc,
}

/// Puts one more token behind the open brackets, the innermost last, of which there may be `nesting`.
fn take_kind(outer: &mut Vec<Bracket>, kind: TokenKind, nesting: usize) -> Result<(), BracketError>
    requires { vec_len outer.old ≤ nesting }
    ensures ok { OnOk result (open_after (reverse outer.old.items) kind ≡ Some (reverse outer.new.items)) }
    ensures depth { OnOk result (length outer.new.items ≡ depth_after (length outer.old.items) kind) }
    ensures within { OnOk result (vec_len outer.new ≤ nesting) }
    ensures err { IfErr result (λ e. IsCauseOfKind nesting (reverse outer.old.items) kind e) }
{
    match kind {
        TokenKind::Start(b) => {
            if outer.len() >= nesting {
                Err(BracketError::TooDeep)
            } else if outer.push(b).is_ok() {
                Ok(())
            } else {
                Err(BracketError::Alloc)
            }
        }
        TokenKind::Stop(b) => match outer.pop() {
            Some(innermost) if innermost == b => Ok(()),
            _ => Err(BracketError::WrongClose),
        },
        _ => Ok(()),
    }
}

/// The rejection for a token that lies there.
fn refusal(alloc: Global, cause: BracketError, place: Span) -> EduceError
    ensures { result ≡ refusal_of cause place }
{
    match cause {
        BracketError::WrongClose => EduceError::new(alloc, Kind::Syntax, place),
        BracketError::TooDeep => EduceError::new(alloc, Kind::TooDeep, place),
        BracketError::Alloc => EduceError::alloc(alloc),
    }
}

/// Whether the brackets of a text of so many bytes close in order, at most `nesting` open at
/// once (Rust Reference, Delimiters). It is rejected at the first bracket that closes another than
/// the innermost one or opens too deep, or else empty at the end, where brackets are open there.
pub fn check_brackets(
    alloc: Global,
    tokens: &Seq<Token>,
    end: u32,
    nesting: u32,
) -> Result<(), EduceError>
    ensures balanced { OnOk result (IsBalanced (lexemes tokens.now)) }
    ensures shallow { OnOk result (NestsWithin nesting (lexemes tokens.now)) }
    ensures err { IfErr result (λ e. (text : List ℕ) → Lexes text tokens.now →
        length (encode_utf8_all text) ≡ end → IsLexicalCauseWithin nesting text e) }
{
    let mut outer: Vec<Bracket> = Vec::new(alloc);
    for token in tokens.as_slice() {
        if let Err(cause) = take_kind(&mut outer, token.kind, nesting as usize) {
            return Err(refusal(alloc, cause, token.span));
        }
    }
    if outer.is_empty() {
        Ok(())
    } else {
        Err(EduceError::new(alloc, Kind::Syntax, Span { start: end, end }))
    }
}
