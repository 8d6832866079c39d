//! The next piece of a text.
ghost use Rattle.std.specs.Prelude.{◌≡◌, None, chars, drop, IfOk, IfSome, MatchOption};
ghost use Rattle.educe_tokens_scan.specs.InPlace.{Stands, IsFront, byte_piece};
ghost use Rattle.educe_tokens_scan.specs.Reading.{IsPiece, IsLongest, FitsNone};
ghost use Rattle.educe_tokens_scan.specs.Scan.{piece_at};

use crate::in_place::{comment_front, front_in_place, opens_comment};
use crate::windows::front_by_windows;
use educe_tokens_pieces::PieceKind;
use std::alloc::{AllocError, Global};

/// The piece at the front of a text, and what follows it.
fn front(alloc: Global, text: &str) -> Result<Option<(PieceKind, &str)>, AllocError>
    ensures stands { IfOk result (λ found. IfSome found (λ x. Stands x.0 (chars text.now) (chars x.1.now))) }
    ensures none { IfOk result (λ found. found ≡ None → piece_at (chars text.now) ≡ None) }
{
    if opens_comment(text) {
        return Ok(comment_front(text));
    }
    match front_in_place(text) {
        Some(found) => Ok(Some(found)),
        None => front_by_windows(alloc, text),
    }
}

/// The kind of the piece at the front of a text and its length in bytes; none where no piece stands
/// there (Rust Reference, Lexical structure).
pub fn next_piece(alloc: Global, text: &str) -> Result<Option<(PieceKind, usize)>, AllocError>
    ensures value { IfOk result (λ found. MatchOption found (piece_at (chars text.now) ≡ None) (IsFront text.now)) }
    ensures stands { IfOk result (λ found. IfSome found (λ x. IsPiece (byte_piece text.now x) (chars (drop x.1 text.now)))) }
    ensures longest { IfOk result (λ found. IfSome found (λ x. IsLongest (byte_piece text.now x) (chars text.now))) }
    ensures none { IfOk result (λ found. found ≡ None → FitsNone (chars text.now)) }
{
    match front(alloc, text)? {
        Some((kind, rest)) => Ok(Some((kind, text.len() - rest.len()))),
        None => Ok(None),
    }
}
