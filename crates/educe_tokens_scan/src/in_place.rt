//! Pieces that are scanned where they stand in the text. Each function answers the kind of the
//! piece at the front and what follows it; None says nothing about the text, but where a comment
//! opens it.
ghost use Rattle.std.specs.Prelude.{◌≡◌, ◌∷◌, ◌++◌, chars, IfSome};
ghost use Rattle.educe_tokens_pieces.specs.Chars.{begins, is_slash_or_star};
ghost use Rattle.educe_tokens_pieces.specs.Words.{touches_lifetime};
ghost use Rattle.educe_tokens_pieces.specs.Comments.{opens_comment, opens_line_doc, opens_block_doc};
ghost use Rattle.educe_tokens_pieces.specs.CommentScan.{comment_at};
ghost use Rattle.educe_tokens_scan.specs.InPlace.{Stands, opening, quoted_kind};

use crate::decimals::decimal_front;
use crate::scan::piece_at;
use educe_tokens_pieces::{
    LiteralKind, PieceKind, Quote, TokenKind, UncarriedKind, behind_block, behind_mark,
    behind_quoted, behind_raw, behind_word, comment_kind, ends_word, first_of, split_line,
    text_begins, text_touches_word,
};
use unicode_ident::is_xid_continue;

fn documents_line(line: &str) -> bool
    ensures { result ≡ opens_line_doc (chars line.now) }
{
    match behind_mark(line, '/') {
        Some(more) => !text_begins(more, '/'),
        None => false,
    }
}

fn documents_block(text: &str) -> bool
    ensures { result ≡ opens_block_doc (chars text.now) }
{
    match behind_mark(text, '*') {
        Some(more) => !(text_begins(more, '/') || text_begins(more, '*')),
        None => false,
    }
}

/// The line comment or documentation whose `//` stands before the text.
fn line_front(text: &str) -> Option<(PieceKind, &str)>
    ensures stands { IfSome result (λ x. Stands x.0 (47 ∷ 47 ∷ chars text.now) (chars x.1.now)) }
    ensures none { result ≡ None → comment_at (47 ∷ 47 ∷ chars text.now) ≡ None }
{
    let (line, rest) = split_line(text);
    if text_begins(line, '!') {
        None
    } else {
        Some((comment_kind(documents_line(line)), rest))
    }
}

/// The block comment or documentation whose `/*` stands before the text.
fn block_front(text: &str) -> Option<(PieceKind, &str)>
    ensures stands { IfSome result (λ x. Stands x.0 (47 ∷ 42 ∷ chars text.now) (chars x.1.now)) }
    ensures none { result ≡ None → comment_at (47 ∷ 42 ∷ chars text.now) ≡ None }
{
    if text_begins(text, '!') {
        return None;
    }
    let rest = behind_block(text)?;
    Some((comment_kind(documents_block(text)), rest))
}

/// Whether a text begins with `/` or `*`, which open a comment behind a `/` (Rust Reference,
/// Comments).
fn begins_slash_or_star(text: &str) -> bool
    ensures { result ≡ begins is_slash_or_star (chars text.now) }
{
    match first_of(text) {
        Some((c, _)) => matches!(c, '/' | '*'),
        None => false,
    }
}

/// Whether a comment or documentation opens a text (Rust Reference, Comments).
pub(crate) fn opens_comment(text: &str) -> bool
    ensures { result ≡ opens_comment (chars text.now) }
{
    match behind_mark(text, '/') {
        Some(behind) => begins_slash_or_star(behind),
        None => false,
    }
}

/// The comment or documentation at the front, and none only where none stands there.
pub(crate) fn comment_front(text: &str) -> Option<(PieceKind, &str)>
    ensures stands { IfSome result (λ x. Stands x.0 (chars text.now) (chars x.1.now)) }
    ensures none { result ≡ None → comment_at (chars text.now) ≡ None }
{
    let behind = behind_mark(text, '/')?;
    match behind_mark(behind, '/') {
        Some(line) => line_front(line),
        None => block_front(behind_mark(behind, '*')?),
    }
}

fn quoted_kind(quote: Quote) -> PieceKind
    ensures { result ≡ quoted_kind quote }
{
    match quote {
        Quote::Str => PieceKind::Token(TokenKind::Literal(LiteralKind::Str)),
        Quote::ByteStr => PieceKind::Token(TokenKind::Literal(LiteralKind::ByteStr)),
        Quote::CStr => PieceKind::Uncarried(UncarriedKind::CStr),
        Quote::Char => PieceKind::Token(TokenKind::Literal(LiteralKind::Char)),
        Quote::Byte => PieceKind::Token(TokenKind::Literal(LiteralKind::Byte)),
    }
}

/// The quoted literal whose opening quote stands before the text.
fn quoted_front(quote: Quote, body: &str) -> Option<(PieceKind, &str)>
    ensures { IfSome result (λ x. Stands x.0 (opening quote ++ chars body.now) (chars x.1.now)) }
{
    let rest = behind_quoted(quote, body)?;
    if ends_word(rest) {
        Some((quoted_kind(quote), rest))
    } else {
        None
    }
}

fn string_front(text: &str) -> Option<(PieceKind, &str)>
    ensures { IfSome result (λ x. Stands x.0 (chars text.now) (chars x.1.now)) }
{
    let body = behind_mark(text, '"')?;
    quoted_front(Quote::Str, body)
}

/// A byte or a byte string that is not raw.
fn byte_front(text: &str) -> Option<(PieceKind, &str)>
    ensures { IfSome result (λ x. Stands x.0 (chars text.now) (chars x.1.now)) }
{
    let behind = behind_mark(text, 'b')?;
    match behind_mark(behind, '"') {
        Some(body) => quoted_front(Quote::ByteStr, body),
        None => quoted_front(Quote::Byte, behind_mark(behind, '\'')?),
    }
}

/// A C string that is not raw.
fn c_string_front(text: &str) -> Option<(PieceKind, &str)>
    ensures { IfSome result (λ x. Stands x.0 (chars text.now) (chars x.1.now)) }
{
    let behind = behind_mark(text, 'c')?;
    let body = behind_mark(behind, '"')?;
    quoted_front(Quote::CStr, body)
}

/// Whether a character stands at the front that makes a lifetime before it no piece.
fn text_touches_lifetime(rest: &str) -> bool
    ensures { result ≡ begins touches_lifetime (chars rest.now) }
{
    match first_of(rest) {
        Some((c, _)) => is_xid_continue(c) || c == '\'',
        None => false,
    }
}

/// The lifetime whose `'` stands before the text.
fn lifetime_front(word: &str) -> Option<(PieceKind, &str)>
    ensures { IfSome result (λ x. Stands x.0 (39 ∷ chars word.now) (chars x.1.now)) }
{
    let rest = behind_word(word)?;
    if text_touches_lifetime(rest) {
        None
    } else {
        Some((PieceKind::Token(TokenKind::Lifetime), rest))
    }
}

/// A character, or else a lifetime.
fn mark_front(text: &str) -> Option<(PieceKind, &str)>
    ensures { IfSome result (λ x. Stands x.0 (chars text.now) (chars x.1.now)) }
{
    let body = behind_mark(text, '\'')?;
    match quoted_front(Quote::Char, body) {
        Some(found) => Some(found),
        None => lifetime_front(body),
    }
}

fn raw_string_front(text: &str) -> Option<(PieceKind, &str)>
    ensures { IfSome result (λ x. Stands x.0 (chars text.now) (chars x.1.now)) }
{
    let raw = behind_mark(text, 'r')?;
    let rest = behind_raw(raw)?;
    if ends_word(rest) {
        Some((PieceKind::Token(TokenKind::Literal(LiteralKind::Str)), rest))
    } else {
        None
    }
}

fn word_front(text: &str) -> Option<(PieceKind, &str)>
    ensures { IfSome result (λ x. Stands x.0 (chars text.now) (chars x.1.now)) }
{
    let rest = behind_word(text)?;
    if text_touches_word(rest) {
        None
    } else {
        Some((PieceKind::Token(TokenKind::Ident), rest))
    }
}

/// The piece of one character, by the next two. A digit seldom stands alone.
fn single_front(text: &str) -> Option<(PieceKind, &str)>
    ensures { IfSome result (λ x. Stands x.0 (chars text.now) (chars x.1.now)) }
{
    let (first, rest) = first_of(text)?;
    if first.is_ascii_digit() {
        return None;
    }
    let (second, more) = first_of(rest)?;
    let (third, _) = first_of(more)?;
    let (kind, len) = piece_at(&[first, second, third])?;
    if len == 1 { Some((kind, rest)) } else { None }
}

/// A literal or a lifetime.
fn long_front(text: &str) -> Option<(PieceKind, &str)>
    ensures { IfSome result (λ x. Stands x.0 (chars text.now) (chars x.1.now)) }
{
    match first_of(text) {
        Some(('"', _)) => string_front(text),
        Some(('r', _)) => raw_string_front(text),
        Some(('\'', _)) => mark_front(text),
        Some(('b', _)) => byte_front(text),
        Some(('c', _)) => c_string_front(text),
        Some(('0'..='9', _)) => decimal_front(text),
        _ => None,
    }
}

fn short_front(text: &str) -> Option<(PieceKind, &str)>
    ensures { IfSome result (λ x. Stands x.0 (chars text.now) (chars x.1.now)) }
{
    match word_front(text) {
        Some(found) => Some(found),
        None => single_front(text),
    }
}

/// The piece at the front of a text that no comment opens, if it is of a kind that is scanned in
/// place.
pub(crate) fn front_in_place(text: &str) -> Option<(PieceKind, &str)>
    ensures { IfSome result (λ x. Stands x.0 (chars text.now) (chars x.1.now)) }
{
    match long_front(text) {
        Some(found) => Some(found),
        None => short_front(text),
    }
}
