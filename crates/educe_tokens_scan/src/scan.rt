//! The piece at the front of a text.
ghost use Rattle.std.specs.Prelude.{◌≡◌, ◌≤◌, ◌<◌, ◌+◌, ◌^◌, ◌==◌, None, length, drop, IfSome};
ghost use Rattle.std.specs.List.{list_all};
ghost use Rattle.std.specs.Char.{is_ascii};
ghost use Rattle.educe_tokens_scan.specs.Reading.{front_piece, IsPiece, IsLongest, FitsNone};
ghost use Rattle.educe_tokens_scan.specs.Scan.{bracket_of, longer_by, punct_at, plain_word, opens_raw, opens_prefixed_raw, opens_raw_word, raw_ascii_len, raw_or_word, byte_or_word, c_string_or_word, by_word, by_quote, by_sign, candidate, piece_at};

use crate::preceding::{is_joint, may_precede};
use educe_tokens_pieces::{
    Bracket, LiteralKind, PieceKind, Quote, TokenKind, UncarriedKind, begins_with, comment_at,
    continue_len, is_blank, is_punct, is_word_start, number_at, opens_comment, quote_end, raw_len,
    raw_word_len, word_len,
};

fn bracket_of(c: char) -> Option<TokenKind>
    ensures { result ≡ bracket_of c }
{
    match c {
        '(' => Some(TokenKind::Start(Bracket::Round)),
        ')' => Some(TokenKind::Stop(Bracket::Round)),
        '[' => Some(TokenKind::Start(Bracket::Square)),
        ']' => Some(TokenKind::Stop(Bracket::Square)),
        '{' => Some(TokenKind::Start(Bracket::Curly)),
        '}' => Some(TokenKind::Stop(Bracket::Curly)),
        _ => None,
    }
}

fn longer_by(more: usize, kind: PieceKind, len: Option<usize>) -> Option<(PieceKind, usize)>
    requires { IfSome len (λ n. more + n < 2 ^ 64) }
    ensures { result ≡ longer_by more kind len }
{
    match len {
        Some(len) => Some((kind, more + len)),
        None => None,
    }
}

fn punct_at(first: char, rest: &[char]) -> Option<(PieceKind, usize)>
    ensures { result ≡ punct_at first rest.now }
{
    Some((PieceKind::Token(TokenKind::Punct(first, is_joint(rest))), 1))
}

fn plain_word(rest: &[char]) -> Option<(PieceKind, usize)>
    ensures value { result ≡ plain_word rest.now }
    ensures within { IfSome result (λ found. found.1 ≤ length rest.now + 1) }
{
    Some((PieceKind::Token(TokenKind::Ident), 1 + continue_len(rest)))
}

fn opens_raw(rest: &[char]) -> bool
    ensures { result ≡ opens_raw rest.now }
{
    match rest {
        [first, more @ ..] => {
            *first == '"' || *first == '#' && (begins_with(more, '"') || begins_with(more, '#'))
        }
        [] => false,
    }
}

fn opens_prefixed_raw(rest: &[char]) -> bool
    ensures { result ≡ opens_prefixed_raw rest.now }
{
    match rest {
        [first, more @ ..] => *first == 'r' && opens_raw(more),
        [] => false,
    }
}

fn opens_raw_word(rest: &[char]) -> bool
    ensures { result ≡ opens_raw_word rest.now }
{
    match rest {
        [first, second, ..] => *first == '#' && is_word_start(*second),
        _ => false,
    }
}

fn raw_or_word(rest: &[char]) -> Option<(PieceKind, usize)>
    ensures value { result ≡ raw_or_word rest.now }
    ensures within { IfSome result (λ found. found.1 ≤ length rest.now + 1) }
{
    if opens_raw(rest) {
        let kind = PieceKind::Token(TokenKind::Literal(LiteralKind::Str));
        longer_by(1, kind, raw_len(rest))
    } else if opens_raw_word(rest) {
        longer_by(
            2,
            PieceKind::Token(TokenKind::Ident),
            raw_word_len(&rest[1..]),
        )
    } else {
        plain_word(rest)
    }
}

fn is_all_ascii(text: &[char]) -> bool
    ensures { result ≡ list_all is_ascii text.now }
{
    text.iter().all(|c| c.is_ascii())
}

/// The length of a raw text of ASCII characters.
fn raw_ascii_len(text: &[char]) -> Option<usize>
    ensures value { result ≡ raw_ascii_len text.now }
    ensures within { IfSome result (λ len. len ≤ length text.now) }
{
    match raw_len(text) {
        Some(len) => {
            if is_all_ascii(&text[..len]) {
                Some(len)
            } else {
                None
            }
        }
        None => None,
    }
}

fn byte_or_word(rest: &[char]) -> Option<(PieceKind, usize)>
    ensures value { result ≡ byte_or_word rest.now }
    ensures within { IfSome result (λ found. found.1 ≤ length rest.now + 1) }
{
    let string = PieceKind::Token(TokenKind::Literal(LiteralKind::ByteStr));
    if begins_with(rest, '\'') {
        let byte = PieceKind::Token(TokenKind::Literal(LiteralKind::Byte));
        longer_by(2, byte, quote_end(Quote::Byte, &rest[1..]))
    } else if begins_with(rest, '"') {
        longer_by(2, string, quote_end(Quote::ByteStr, &rest[1..]))
    } else if opens_prefixed_raw(rest) {
        longer_by(2, string, raw_ascii_len(&rest[1..]))
    } else {
        plain_word(rest)
    }
}

fn c_string_or_word(rest: &[char]) -> Option<(PieceKind, usize)>
    ensures value { result ≡ c_string_or_word rest.now }
    ensures within { IfSome result (λ found. found.1 ≤ length rest.now + 1) }
{
    let string = PieceKind::Uncarried(UncarriedKind::CStr);
    if begins_with(rest, '"') {
        longer_by(2, string, quote_end(Quote::CStr, &rest[1..]))
    } else if opens_prefixed_raw(rest) {
        longer_by(2, string, raw_len(&rest[1..]))
    } else {
        plain_word(rest)
    }
}

fn by_word(first: char, rest: &[char]) -> Option<(PieceKind, usize)>
    ensures value { result ≡ by_word first rest.now }
    ensures within { IfSome result (λ found. found.1 ≤ length rest.now + 1) }
{
    match first {
        'r' => raw_or_word(rest),
        'b' => byte_or_word(rest),
        'c' => c_string_or_word(rest),
        _ => plain_word(rest),
    }
}

fn by_quote(rest: &[char]) -> Option<(PieceKind, usize)>
    ensures value { result ≡ by_quote rest.now }
    ensures within { IfSome result (λ found. found.1 ≤ length rest.now + 1) }
{
    match quote_end(Quote::Char, rest) {
        Some(len) => {
            let kind = PieceKind::Token(TokenKind::Literal(LiteralKind::Char));
            Some((kind, 1 + len))
        }
        None => longer_by(1, PieceKind::Token(TokenKind::Lifetime), word_len(rest)),
    }
}

fn by_sign(first: char, rest: &[char]) -> Option<(PieceKind, usize)>
    ensures value { result ≡ by_sign first rest.now }
    ensures within { IfSome result (λ found. found.1 ≤ length rest.now + 1) }
{
    if first == '"' {
        let kind = PieceKind::Token(TokenKind::Literal(LiteralKind::Str));
        longer_by(1, kind, quote_end(Quote::Str, rest))
    } else if first == '\'' {
        by_quote(rest)
    } else if is_punct(first) {
        punct_at(first, rest)
    } else {
        match bracket_of(first) {
            Some(kind) => Some((PieceKind::Token(kind), 1)),
            None => None,
        }
    }
}

pub(crate) fn candidate(text: &[char]) -> Option<(PieceKind, usize)>
    ensures value { result ≡ candidate text.now }
    ensures within { IfSome result (λ found. found.1 ≤ length text.now) }
{
    let (first, rest) = text.split_first()?;
    if is_blank(*first) {
        Some((PieceKind::Blank, 1))
    } else if is_word_start(*first) {
        by_word(*first, rest)
    } else if first.is_ascii_digit() {
        number_at(text)
    } else if opens_comment(text) {
        comment_at(text)
    } else {
        by_sign(*first, rest)
    }
}

/// The kind of the piece at the front of a text and its length in characters; none where no piece
/// stands there (Rust Reference, Lexical structure).
#[tactic(auto, unfolding(crate::specs::Scan::piece_at))]
pub fn piece_at(text: &[char]) -> Option<(PieceKind, usize)>
    ensures value { result ≡ piece_at text.now }
    ensures within { IfSome result (λ found. found.1 ≤ length text.now) }
    ensures stands { IfSome result (λ found. IsPiece (front_piece text.now found) (drop found.1 text.now)) }
    ensures longest { IfSome result (λ found. IsLongest (front_piece text.now found) text.now) }
    ensures none { result ≡ None → FitsNone text.now }
{
    let (kind, len) = candidate(text)?;
    let (spelling, rest) = text.split_at(len);
    if may_precede(kind, spelling, rest) {
        Some((kind, len))
    } else {
        None
    }
}
