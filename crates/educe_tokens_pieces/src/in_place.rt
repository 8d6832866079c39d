//! Scanners that work on the text itself, with no list of its characters. Each function returns the
//! rest of the text after the piece.
ghost use Rattle.std.specs.Prelude.{◌≡◌, ◌+◌, ◌<◌, ◌++◌, ◌∷◌, ◌==◌, [], false, chars, length, IsTrue, IfSome, MatchOption};
ghost use Rattle.std.specs.List.{list_all};
ghost use Rattle.educe_tokens_pieces.specs.Chars.{begins, is_blank, is_in_line};
ghost use Rattle.educe_tokens_pieces.specs.Words.{is_word, touches_word};
ghost use Rattle.unicode_ident.specs.Ident.{is_xid_continue};
ghost use Rattle.educe_tokens_pieces.specs.Comments.{closes_comment};
ghost use Rattle.educe_tokens_pieces.specs.CommentScan.{closing_len};
ghost use Rattle.educe_tokens_pieces.specs.Fronts.{HasFront, begins_pair, is_last};
ghost use Rattle.educe_tokens_pieces.specs.Machine.{ends};
ghost use Rattle.educe_tokens_pieces.specs.Pieces.{ends_word_before};
ghost use Rattle.educe_tokens_pieces.specs.declared.quotes.Within.{Within};

use crate::chars::{is_blank, is_word_start};
use crate::quotes::{Next, Quote, Within, step};
use unicode_ident::is_xid_continue;

/// The first character of a text, and what follows it.
#[inline]
pub fn first_of(text: &str) -> Option<(char, &str)>
    ensures parts { MatchOption result (chars text.now ≡ []) (λ x. chars text.now ≡ x.0 ∷ chars x.1.now) }
    ensures shorter { IfSome result (λ x. length x.1.now < length text.now) }
{
    let mut rest = text.chars();
    let first = rest.next()?;
    Some((first, rest.as_str()))
}

/// Whether a text begins with this character.
pub fn text_begins(text: &str, mark: char) -> bool
    ensures { result ≡ begins (λ c. c == mark) (chars text.now) }
{
    match first_of(text) {
        Some((c, _)) => c == mark,
        None => false,
    }
}

/// Whether the text begins with no character that continues a word (Rust Reference, Identifiers).
pub fn ends_word(rest: &str) -> bool
    ensures { result ≡ ends_word_before (chars rest.now) }
{
    match first_of(rest) {
        Some((c, _)) => !is_xid_continue(c),
        None => true,
    }
}

/// Whether the text begins with a character that makes a word before it no piece (Rust Reference,
/// Reserved prefixes).
pub fn text_touches_word(rest: &str) -> bool
    ensures { result ≡ begins touches_word (chars rest.now) }
{
    match first_of(rest) {
        Some((c, _)) => is_xid_continue(c) || matches!(c, '"' | '\'' | '#'),
        None => false,
    }
}

/// The rest of the text after its first character, where that is the given one.
pub fn behind_mark(text: &str, mark: char) -> Option<&str>
    ensures parts { IfSome result (λ rest. chars text.now ≡ mark ∷ chars rest.now) }
    ensures none { result ≡ None → begins (λ c. c == mark) (chars text.now) ≡ false }
    ensures shorter { IfSome result (λ rest. length rest.now < length text.now) }
{
    let (c, rest) = first_of(text)?;
    if c == mark { Some(rest) } else { None }
}

/// The rest of the text after its leading blanks.
pub fn behind_blanks(text: &str) -> &str
    ensures { HasFront (list_all is_blank) (chars text.now) (chars result.now) }
{
    let mut rest = text;
    while let Some((c, more)) = first_of(rest) {
        if is_blank(c) {
            rest = more;
        } else {
            return rest;
        }
    }
    rest
}

/// The rest of the text after the leading characters that continue a word.
fn behind_continues(text: &str) -> &str
    ensures { HasFront (list_all is_xid_continue) (chars text.now) (chars result.now) }
{
    let mut rest = text;
    while let Some((c, more)) = first_of(rest) {
        if is_xid_continue(c) {
            rest = more;
        } else {
            return rest;
        }
    }
    rest
}

/// The rest of the text after its first word, if it begins with one.
pub fn behind_word(text: &str) -> Option<&str>
    ensures { IfSome result (λ rest. HasFront is_word (chars text.now) (chars rest.now)) }
{
    let (first, rest) = first_of(text)?;
    if is_word_start(first) {
        Some(behind_continues(rest))
    } else {
        None
    }
}

/// The first line of the text and the rest, which is empty or begins with a line feed.
pub fn split_line(text: &str) -> (&str, &str)
    ensures line { IsTrue (list_all is_in_line (chars result.0.now)) }
    ensures parts { chars text.now ≡ chars result.0.now ++ chars result.1.now }
    ensures ends { begins is_in_line (chars result.1.now) ≡ false }
{
    match text.find('\n') {
        Some(end) => text.split_at(end),
        None => (text, ""),
    }
}

fn ends_in_slash(text: &str) -> bool
    ensures { result ≡ is_last 47 (chars text.now) }
{
    text.ends_with('/')
}

/// The rest of the text after the two given ASCII characters, where it begins with them.
fn behind_pair(text: &str, first: u8, second: u8) -> Option<&str>
    requires ascii { (first < 128) × (second < 128) }
    ensures parts { IfSome result (λ rest. chars text.now ≡ first ∷ second ∷ chars rest.now) }
    ensures none { result ≡ None → begins_pair first second (chars text.now) ≡ false }
    ensures shorter { IfSome result (λ rest. length rest.now + 2 ≡ length text.now) }
{
    let bytes = text.as_bytes();
    if bytes.len() < 2 {
        return None;
    }
    if bytes[0] != first {
        return None;
    }
    if bytes[1] == second {
        Some(&text[2..])
    } else {
        None
    }
}

/// The rest of the text after the end of the block comment that it is in, which may nest others, if
/// it closes.
fn behind_nested(text: &str) -> Option<&str>
    ensures front { IfSome result (λ rest. HasFront (closes_comment 0) (chars text.now) (chars rest.now)) }
    ensures none { result ≡ None → closing_len 0 (chars text.now) ≡ None }
{
    let mut inner: usize = 0;
    let mut rest = text;
    loop {
        if let Some(behind) = behind_pair(rest, b'/', b'*') {
            inner += 1;
            rest = behind;
        } else if let Some(behind) = behind_pair(rest, b'*', b'/') {
            if inner == 0 {
                return Some(behind);
            }
            inner -= 1;
            rest = behind;
        } else {
            let (_, more) = first_of(rest)?;
            rest = more;
        }
    }
}

/// The rest of the text after the end of the block comment that it is in, if it closes. Fast where
/// none is nested in it.
pub fn behind_block(text: &str) -> Option<&str>
    ensures front { IfSome result (λ rest. HasFront (closes_comment 0) (chars text.now) (chars rest.now)) }
    ensures none { result ≡ None → closing_len 0 (chars text.now) ≡ None }
{
    let (front, rest) = text.split_once("*/")?;
    if front.contains("/*") || ends_in_slash(front) {
        behind_nested(text)
    } else {
        Some(rest)
    }
}

/// The rest of the text after the literal whose opening quote stands before it, if it ends.
pub fn behind_quoted(quote: Quote, text: &str) -> Option<&str>
    ensures { IfSome result (λ rest. HasFront (ends (Within.Open quote)) (chars text.now) (chars rest.now)) }
{
    let mut within = Within::Open(quote);
    let mut rest = text;
    while let Some((c, more)) = first_of(rest) {
        rest = more;
        match step(within, c) {
            Next::Go(next) => within = next,
            Next::End => return Some(rest),
            Next::Stop => return None,
        }
    }
    None
}
