//! The number at the front of a text (Rust Reference, Number literals).
ghost use Rattle.std.specs.Prelude.{◌≡◌, ◌≤◌, ◌+◌, length, IfSome};
ghost use Rattle.educe_tokens_pieces.specs.Numbers.{int_kind, int_at, number_at};
ghost use Rattle.educe_tokens_pieces.specs.Pieces.{may_follow_int, may_follow_float};

use crate::floats::{digits_len, ends_with_dot, is_float_tail, tail_len};
use crate::integers::{fits_u128, has_int_form, makes_float, suffix_of};
use crate::kind::{LiteralKind, PieceKind, TokenKind, UncarriedKind};
use crate::words::{continue_len, ends_word_before};

/// The kind of an integer: supported where its value fits in `u128`.
fn int_kind(spelling: &[char]) -> PieceKind
    ensures { result ≡ int_kind spelling.now }
{
    if fits_u128(spelling) {
        PieceKind::Token(TokenKind::Literal(LiteralKind::Int))
    } else {
        PieceKind::Uncarried(UncarriedKind::WideInt)
    }
}

/// The first `len` characters as an integer, if they have the form of one.
fn int_at(text: &[char], len: usize) -> Option<(PieceKind, usize)>
    requires { len ≤ length text.now }
    ensures value { result ≡ int_at text.now len }
    ensures within { IfSome result (λ found. found.1 ≤ length text.now) }
{
    let spelling = &text[..len];
    if has_int_form(spelling) {
        Some((int_kind(spelling), len))
    } else {
        None
    }
}

/// The number at the front of a text that begins with a decimal digit: its kind, and how many
/// characters it has. None where no number fits (Rust Reference, Number literals).
pub fn number_at(text: &[char]) -> Option<(PieceKind, usize)>
    ensures value { result ≡ number_at text.now }
    ensures within { IfSome result (λ found. found.1 ≤ length text.now) }
{
    let digits = digits_len(text);
    let rest = &text[digits..];
    let len = tail_len(rest);
    if is_float_tail(&rest[..len]) {
        Some((PieceKind::Uncarried(UncarriedKind::Float), digits + len))
    } else {
        int_at(text, continue_len(text))
    }
}

/// Whether an integer may stand before this rest: one without a suffix must not become a float
/// (Rust Reference, Integer literals).
pub fn may_follow_int(spelling: &[char], rest: &[char]) -> bool
    ensures { result ≡ may_follow_int spelling.now rest.now }
{
    ends_word_before(rest) && (!suffix_of(spelling).is_empty() || !makes_float(rest))
}

/// Whether a float may stand before this rest: a trailing `.` must not become `..` (Rust Reference,
/// Floating-point literals).
pub fn may_follow_float(spelling: &[char], rest: &[char]) -> bool
    ensures { result ≡ may_follow_float spelling.now rest.now }
{
    ends_word_before(rest) && !(ends_with_dot(spelling) && matches!(rest, ['.', ..]))
}
