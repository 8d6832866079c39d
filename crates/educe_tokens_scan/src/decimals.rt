//! Decimal integers of few digits, with no suffix, where they stand in the text.
ghost use Rattle.std.specs.Prelude.{◌≤◌, chars, IfSome};
ghost use Rattle.educe_tokens_pieces.specs.Fronts.{HasFront};
ghost use Rattle.educe_tokens_scan.specs.InPlace.{Stands, is_digits};

use educe_tokens_pieces::{LiteralKind, PieceKind, TokenKind, ends_word, first_of, text_begins};

/// An integer of at most so many digits is within `u128`.
const FEW_DIGITS: usize = 38;

/// How many ASCII digits stand at the front of a text, and what follows them. Digits from the 39th
/// on are left to what follows.
fn split_digits(text: &str) -> (usize, &str)
    ensures digits { HasFront (is_digits result.0) (chars text.now) (chars result.1.now) }
    ensures few { result.0 ≤ 38 }
{
    let mut count: usize = 0;
    let mut rest = text;
    while let Some((c, more)) = first_of(rest) {
        if count < FEW_DIGITS && c.is_ascii_digit() {
            count += 1;
            rest = more;
        } else {
            return (count, rest);
        }
    }
    (count, rest)
}

/// The integer at the front, if it is of few digits that neither a word nor a `.` follows.
pub(crate) fn decimal_front(text: &str) -> Option<(PieceKind, &str)>
    ensures { IfSome result (λ x. Stands x.0 (chars text.now) (chars x.1.now)) }
{
    let (count, rest) = split_digits(text);
    if count > 0 && ends_word(rest) && !text_begins(rest, '.') {
        Some((PieceKind::Token(TokenKind::Literal(LiteralKind::Int)), rest))
    } else {
        None
    }
}
