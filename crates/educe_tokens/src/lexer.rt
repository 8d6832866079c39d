//! The lexer: from a text to its tokens.
ghost use Rattle.std.specs.Prelude.{◌≡◌, ◌<◌, ◌≤◌, ◌^◌, ◌⊎◌, length, map, IfOk, IfErr, OnOk, chars, encode_utf8_all, IsTrue, List, ℕ};
ghost use Rattle.std.specs.List.{AllByRecursion};
ghost use Rattle.std.specs.Str.{IsCharBoundary};
ghost use Rattle.educe_tokens_pieces.specs.Pieces.{is_piece};
ghost use Rattle.educe_tokens.specs.Lexes.{Lexeme, Lexes, LexesAside, lexemes};
ghost use Rattle.educe_tokens.specs.Brackets.{kinds, IsBalanced, IsShallow, NestsWithin};
ghost use Rattle.educe_tokens.specs.Text.{puncts_join};
ghost use Rattle.educe_tokens.specs.Causes.{empty_at, last_of, IsLexicalCause, IsLexicalCauseWithin, Gives};
ghost use Rattle.educe_tokens.specs.Slices.{IsPlace, IsSlice, cut_out};
ghost use Rattle.educe_tokens.specs.Steps.{Adds, IsCauseOfPiece, IsReadingWithin};
ghost use Rattle.educe_tokens.specs.Message.{HasWords};
ghost use Rattle.educe_tokens.specs.declared.token.Token.{Token};

use crate::brackets::{NESTING, check_brackets};
use crate::error::{EduceError, Kind};
use crate::seq::Seq;
use crate::span::{SOURCE_LIMIT, Span};
use crate::spelling::Spelling;
use crate::token::Token;
use educe_tokens_pieces::{PieceKind, TokenKind, UncarriedKind, behind_blanks};
use educe_tokens_scan::next_piece;
use std::alloc::{AllocError, Global};

/// Adds the token of this kind that lies there.
fn push_token(
    tokens: &mut Seq<Token>,
    kind: TokenKind,
    source: &Spelling,
    span: Span,
) -> Result<(), AllocError>
    requires place { IsPlace source.now span }
    requires piece { IsTrue (is_piece (PieceKind.Token kind) (cut_out source.now span)) }
    ensures { OnOk result (Adds (PieceKind.Token kind) (cut_out source.now span) span tokens.old tokens.new) }
{
    let spelling = source.part(span.start, span.end)?;
    tokens.push(Token {
        kind,
        span,
        spelling,
    })
}

/// The rejection of the unsupported literal that lies there.
fn not_carried(alloc: Global, kind: UncarriedKind, source: &Spelling, span: Span) -> EduceError
    requires { IsPlace source.now span }
    ensures { IsCauseOfPiece (cut_out source.now span) span (PieceKind.Uncarried kind) result }
{
    match source.part(span.start, span.end) {
        Ok(literal) => EduceError::citing(alloc, Kind::NotCarried, span, &literal),
        Err(_) => EduceError::alloc(alloc),
    }
}

/// Adds the piece that lies there, if it is a token: a blank and a comment are none.
fn push_piece(
    alloc: Global,
    tokens: &mut Seq<Token>,
    kind: PieceKind,
    source: &Spelling,
    span: Span,
) -> Result<(), EduceError>
    requires place { IsPlace source.now span }
    requires piece { IsTrue (is_piece kind (cut_out source.now span)) }
    ensures ok { OnOk result (Adds kind (cut_out source.now span) span tokens.old tokens.new) }
    ensures err { IfErr result (λ e. IsCauseOfPiece (cut_out source.now span) span kind e) }
{
    match kind {
        PieceKind::Blank => Ok(()),
        PieceKind::Comment => Ok(()),
        PieceKind::Token(kind) => {
            if push_token(tokens, kind, source, span).is_ok() {
                Ok(())
            } else {
                Err(EduceError::alloc(alloc))
            }
        }
        PieceKind::Uncarried(kind) => Err(not_carried(alloc, kind, source, span)),
    }
}

/// The span of the last token, or the empty span at the end where there is no token.
fn last_place(tokens: &[Token], end: u32) -> Span
    ensures { result ≡ last_of (map (λ token. token.span) tokens.now) (empty_at end) }
{
    match tokens.last() {
        Some(token) => token.span,
        None => Span { start: end, end },
    }
}

/// The tokens among the pieces of a source, each a part of the shared text, which is the same. It
/// is rejected where no piece fits, at the last token before, or at an unsupported literal,
/// whichever comes first. Blanks are skipped in one step.
fn token_pieces(alloc: Global, source: &str, shared: &Spelling) -> Result<Seq<Token>, EduceError>
    requires limit { length source.now ≤ SOURCE_LIMIT }
    requires shared { shared.now ≡ chars source.now }
    ensures lexes { IfOk result (λ tokens. Lexes (chars source.now) tokens) }
    ensures err { IfErr result (λ e. (nesting : ℕ) → IsLexicalCauseWithin nesting (chars source.now) e) }
{
    let mut tokens = Seq::new(alloc);
    let mut rest = behind_blanks(source);
    while !rest.is_empty() {
        let Ok(found) = next_piece(alloc, rest) else {
            return Err(EduceError::alloc(alloc));
        };
        let Some((kind, len)) = found else {
            let place = last_place(tokens.as_slice(), source.len() as u32);
            return Err(EduceError::new(alloc, Kind::Syntax, place));
        };
        let start = (source.len() - rest.len()) as u32;
        let end = start + len as u32;
        let (_, more) = rest.split_at(len);
        push_piece(alloc, &mut tokens, kind, shared, Span { start, end })?;
        rest = behind_blanks(more);
    }
    Ok(tokens)
}

/// The tokens of a text whose brackets close in order, at most `nesting` of them open at once.
fn checked_tokens(alloc: Global, source: &str, nesting: u32) -> Result<Seq<Token>, EduceError>
    requires { length source.now ≤ SOURCE_LIMIT }
    ensures ok { IfOk result (λ tokens. IsReadingWithin nesting (chars source.now) tokens) }
    ensures err { IfErr result (λ e. IsLexicalCauseWithin nesting (chars source.now) e) }
{
    let Ok(shared) = Spelling::from_str(alloc, source) else {
        return Err(EduceError::alloc(alloc));
    };
    let tokens = token_pieces(alloc, source, &shared)?;
    check_brackets(alloc, &tokens, source.len() as u32, nesting)?;
    Ok(tokens)
}

/// The tokens of a text as `lex` reads it, with this limit on the brackets that are open at once in
/// place of 128.
pub fn lex_within(alloc: Global, source: &str, nesting: u32) -> Result<Seq<Token>, EduceError>
    requires { length source.now ≤ SOURCE_LIMIT }
    ensures lexes { IfOk result (λ tokens. Lexes (chars source.now) tokens) }
    ensures balanced { IfOk result (λ tokens. IsBalanced (lexemes tokens)) }
    ensures shallow { IfOk result (λ tokens. NestsWithin nesting (lexemes tokens)) }
    ensures joined { IfOk result (λ tokens. IsTrue (puncts_join (kinds (lexemes tokens)))) }
    ensures few { IfOk result (λ tokens. length tokens ≤ length source.now) }
    // Each span cuts the token's spelling out of the source.
    ensures slices { IfOk result (λ tokens. AllByRecursion (IsSlice source.now) tokens) }
    ensures err { IfErr result (λ e. IsLexicalCauseWithin nesting (chars source.now) e) }
    // The words are those that the message needs, and the place begins at a character or at the end.
    ensures words { IfErr result (λ e. HasWords e.kind e.words) }
    ensures place { IfErr result (λ e. IsCharBoundary source.now e.span.start) }
    // A text that lexes has no cause of rejection.
    ensures uncaused { IfOk result (λ _. (e : EduceError) → IsLexicalCauseWithin nesting (chars source.now) e → e.kind ≡ Kind.Alloc) }
    // Where the text has such tokens, the result is these tokens or out of memory: there is no
    // other reading, and no other rejection.
    ensures only { (tokens : List Token) → Lexes (chars source.now) tokens →
        IsBalanced (lexemes tokens) → NestsWithin nesting (lexemes tokens) → Gives result tokens }
    // A printed text is read back.
    ensures back { (found : List Lexeme) → LexesAside (chars source.now) found →
        IsBalanced found → NestsWithin nesting found →
        IfOk result (λ tokens. lexemes tokens ≡ found) × IfErr result (λ e. e.kind ≡ Kind.Alloc) }
    // A text whose brackets close in order and nest deeper is rejected for that, unless memory fails.
    ensures deep { (found : List Lexeme) → LexesAside (chars source.now) found →
        IsBalanced found → (NestsWithin nesting found → ⊥) →
        IfOk result (λ _. ⊥) ×
        IfErr result (λ e. (e.kind ≡ Kind.TooDeep) ⊎ (e.kind ≡ Kind.Alloc)) }
{
    checked_tokens(alloc, source, nesting)
}

/// The tokens of a text (Rust Reference, Lexical structure), whose brackets close in order, at most
/// 128 of them open at once. Blanks and comments that are no documentation are left out. A text is
/// rejected for the first of these, with its place:
/// - no piece fits (`Syntax`, at the last token before, or, where no token stands before, empty at
///   the end of the text), or a literal is unsupported (`NotCarried`, at the literal, with its
///   spelling as the word), whichever comes first in the text;
/// - a bracket closes another than the innermost one, or none (`Syntax`, at that bracket), or opens
///   where 128 are open (`TooDeep`, at that bracket), whichever comes first;
/// - brackets are open at the end (`Syntax`, empty at the end of the text).
///
/// Out of memory (`Alloc`) has no place.
pub fn lex(alloc: Global, source: &str) -> Result<Seq<Token>, EduceError>
    requires { length source.now ≤ SOURCE_LIMIT }
    ensures lexes { IfOk result (λ tokens. Lexes (chars source.now) tokens) }
    ensures balanced { IfOk result (λ tokens. IsBalanced (lexemes tokens)) }
    ensures shallow { IfOk result (λ tokens. IsShallow (lexemes tokens)) }
    ensures joined { IfOk result (λ tokens. IsTrue (puncts_join (kinds (lexemes tokens)))) }
    ensures few { IfOk result (λ tokens. length tokens ≤ length source.now) }
    // Each span cuts the token's spelling out of the source.
    ensures slices { IfOk result (λ tokens. AllByRecursion (IsSlice source.now) tokens) }
    ensures err { IfErr result (λ e. IsLexicalCause (chars source.now) e) }
    // The words are those that the message needs, and the place begins at a character or at the end.
    ensures words { IfErr result (λ e. HasWords e.kind e.words) }
    ensures place { IfErr result (λ e. IsCharBoundary source.now e.span.start) }
    // A text that lexes has no cause of rejection.
    ensures uncaused { IfOk result (λ _. (e : EduceError) → IsLexicalCause (chars source.now) e → e.kind ≡ Kind.Alloc) }
    // Where the text has such tokens, the result is these tokens or out of memory: there is no
    // other reading, and no other rejection.
    ensures only { (tokens : List Token) → Lexes (chars source.now) tokens →
        IsBalanced (lexemes tokens) → IsShallow (lexemes tokens) → Gives result tokens }
    // A printed text is read back.
    ensures back { (found : List Lexeme) → LexesAside (chars source.now) found →
        IsBalanced found → IsShallow found →
        IfOk result (λ tokens. lexemes tokens ≡ found) × IfErr result (λ e. e.kind ≡ Kind.Alloc) }
    // A text whose brackets close in order and nest deeper is rejected for that, unless memory fails.
    ensures deep { (found : List Lexeme) → LexesAside (chars source.now) found →
        IsBalanced found → (IsShallow found → ⊥) →
        IfOk result (λ _. ⊥) ×
        IfErr result (λ e. (e.kind ≡ Kind.TooDeep) ⊎ (e.kind ≡ Kind.Alloc)) }
{
    lex_within(alloc, source, NESTING as u32)
}
