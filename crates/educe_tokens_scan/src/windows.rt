//! Pieces that are scanned in a list of the next characters, which grows until the piece is in it.
ghost use Rattle.std.specs.Prelude.{◌≡◌, ◌<◌, None, drop, chars, IfOk, IfSome};
ghost use Rattle.educe_tokens_scan.specs.InPlace.{Stands};
ghost use Rattle.educe_tokens_scan.specs.Scan.{piece_at};

use crate::scan::piece_at;
use educe_tokens_pieces::{PieceKind, first_of};
use std::alloc::{AllocError, Global};

fn characters(alloc: Global, text: &str) -> Result<Vec<char>, AllocError>
    ensures { IfOk result (λ list. list.items ≡ chars text.now) }
{
    text.chars().collect(alloc)
}

/// What follows so many characters.
fn behind_count(text: &str, count: usize) -> &str
    ensures { chars result.now ≡ drop count (chars text.now) }
{
    let mut rest = text;
    let mut seen: usize = 0;
    while seen < count {
        match first_of(rest) {
            Some((_, more)) => rest = more,
            None => return rest,
        }
        seen += 1;
    }
    rest
}

/// The piece at the front, if the characters of about so many bytes show what it is.
fn front_within(
    alloc: Global,
    text: &str,
    size: usize,
) -> Result<Option<(PieceKind, &str)>, AllocError>
    ensures { IfOk result (λ found. IfSome found (λ x. Stands x.0 (chars text.now) (chars x.1.now))) }
{
    let (window, _) = text.split_at(text.ceil_char_boundary(size));
    let list = characters(alloc, window)?;
    let Some((kind, len)) = piece_at(&list) else {
        return Ok(None);
    };
    if len + 2 <= list.len() {
        Ok(Some((kind, behind_count(text, len))))
    } else {
        Ok(None)
    }
}

/// The piece at the front, by all characters of the text.
fn front_of_all(alloc: Global, text: &str) -> Result<Option<(PieceKind, &str)>, AllocError>
    ensures stands { IfOk result (λ found. IfSome found (λ x. Stands x.0 (chars text.now) (chars x.1.now))) }
    ensures none { IfOk result (λ found. found ≡ None → piece_at (chars text.now) ≡ None) }
{
    let list = characters(alloc, text)?;
    match piece_at(&list) {
        Some((kind, len)) => Ok(Some((kind, behind_count(text, len)))),
        None => Ok(None),
    }
}

/// How many bytes to begin with: those of the number, the lifetime or the character at the front,
/// and a few more.
fn first_size(text: &str) -> usize
    ensures { 0 < result }
{
    let word = text
        .as_bytes()
        .iter()
        .skip(1)
        .take_while(|b| b.is_ascii_alphanumeric())
        .count();
    word.saturating_add(4)
}

/// The piece at the front of a text; none where no piece stands there.
pub(crate) fn front_by_windows(
    alloc: Global,
    text: &str,
) -> Result<Option<(PieceKind, &str)>, AllocError>
    ensures stands { IfOk result (λ found. IfSome found (λ x. Stands x.0 (chars text.now) (chars x.1.now))) }
    ensures none { IfOk result (λ found. found ≡ None → piece_at (chars text.now) ≡ None) }
{
    let mut size = first_size(text);
    while size < text.len() / 2 {
        let found = front_within(alloc, text, size)?;
        if found.is_some() {
            return Ok(found);
        }
        size *= 2;
    }
    front_of_all(alloc, text)
}
