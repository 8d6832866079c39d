//! Whether a text is one piece of a kind (Rust Reference, Lexical structure).
ghost use Rattle.std.specs.Prelude.{◌≡◌, Some, IsTrue, length};
ghost use Rattle.educe_tokens_pieces.specs.Pieces.{is_piece};
ghost use Rattle.educe_tokens_pieces.specs.Spells.{IsPieceOf};
ghost use Rattle.educe_tokens_scan.specs.Joining.{unjoined};
ghost use Rattle.educe_tokens_scan.specs.Scan.{candidate};

use crate::scan::candidate;
use educe_tokens_pieces::{PieceKind, TokenKind};

/// The kind at the end of a text, where no punctuation character is joint.
fn unjoined(kind: PieceKind) -> PieceKind
    ensures { result ≡ unjoined kind }
{
    match kind {
        PieceKind::Token(TokenKind::Punct(c, _)) => PieceKind::Token(TokenKind::Punct(c, false)),
        _ => kind,
    }
}

/// Whether the scan takes the whole text for a piece of the kind.
fn is_whole(kind: PieceKind, text: &[char]) -> bool
    ensures is { IsTrue result → candidate text.now ≡ Some (kind, length text.now) }
    ensures only { candidate text.now ≡ Some (kind, length text.now) → IsTrue result }
{
    match candidate(text) {
        Some((found, len)) => found == kind && len == text.len(),
        None => false,
    }
}

/// Whether the text is one piece of the kind, by itself. Whether a punctuation character is joint
/// makes no difference (Rust Reference, Lexical structure).
pub fn is_piece(kind: PieceKind, text: &[char]) -> bool
    ensures value { result ≡ is_piece kind text.now }
    ensures is { IsTrue result → IsPieceOf kind text.now }
    ensures only { IsPieceOf kind text.now → IsTrue result }
{
    is_whole(unjoined(kind), text)
}
