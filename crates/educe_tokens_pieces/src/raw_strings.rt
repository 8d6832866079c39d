//! Raw strings (Rust Reference, Raw string literals).
ghost use Rattle.std.specs.Prelude.{◌≡◌, ◌≤◌, ◌==◌, ◌&&◌, ◌++◌, true, length, replicate, nat_le, chars, IsTrue, IfSome};
ghost use Rattle.educe_tokens_pieces.specs.Fronts.{HasFront};
ghost use Rattle.educe_tokens_pieces.specs.RawStrings.{mark_count, closes_raw, raw_closing_len, raw_len, is_raw, is_raw_str, raw_value, IsRawOf};

use crate::chars::begins_with;
use crate::in_place::behind_mark;

fn mark_count(text: &[char]) -> usize
    ensures value { result ≡ mark_count text.now }
    ensures within { result ≤ length text.now }
{
    text.iter().take_while(|c| **c == '#').count()
}

fn closes(marks: usize, first: char, rest: &[char]) -> bool
    ensures value { result ≡ (first == 34) && nat_le marks (mark_count rest.now) }
    ensures within { result ≡ true → marks ≤ length rest.now }
{
    first == '"' && marks <= mark_count(rest)
}

/// The number of characters after the opening quote up to the end of the raw text.
fn raw_closing_len(marks: usize, text: &[char]) -> Option<usize>
    ensures value { result ≡ raw_closing_len marks text.now }
    ensures within { IfSome result (λ n. n ≤ length text.now) }
{
    for (i, c) in text.iter().enumerate() {
        if closes(marks, *c, &text[i + 1..]) {
            return Some(i + 1 + marks);
        }
    }
    None
}

/// How many characters the raw text at the front has, from its first `#` or `"` on; none where no
/// such text stands there (Rust Reference, Raw string literals).
pub fn raw_len(text: &[char]) -> Option<usize>
    ensures value { result ≡ raw_len text.now }
    ensures within { IfSome result (λ n. n ≤ length text.now) }
{
    let marks = mark_count(text);
    if marks <= 255 && begins_with(&text[marks..], '"') {
        let len = raw_closing_len(marks, &text[marks + 1..])?;
        Some(marks + 1 + len)
    } else {
        None
    }
}

/// How many `#` stand at the front of a text, and what follows them.
fn split_marks(text: &str) -> (usize, &str)
    ensures { chars text.now ≡ replicate result.0 35 ++ chars result.1.now }
{
    let mut count: usize = 0;
    let mut rest = text;
    while let Some(more) = behind_mark(rest, '#') {
        count += 1;
        rest = more;
    }
    (count, rest)
}

/// The end of the raw text with the most `#`, of which the end of any other is a prefix.
const LONGEST_END: &str = "\"\
    ###################################################\
    ###################################################\
    ###################################################\
    ###################################################\
    ###################################################";

/// What follows the raw text behind its opening quote, if it ends.
fn behind_closing(marks: usize, text: &str) -> Option<&str>
    requires { marks ≤ 255 }
    ensures { IfSome result (λ rest. HasFront (closes_raw marks) (chars text.now) (chars rest.now)) }
{
    let (_, rest) = text.split_once(&LONGEST_END[..marks + 1])?;
    Some(rest)
}

/// What follows the raw text at the front, from its first `#` or `"` on, if it ends.
pub fn behind_raw(text: &str) -> Option<&str>
    ensures { IfSome result (λ rest. HasFront is_raw (chars text.now) (chars rest.now)) }
{
    let (marks, quoted) = split_marks(text);
    if marks > 255 {
        return None;
    }
    behind_closing(marks, behind_mark(quoted, '"')?)
}

/// The value of a raw string: the text between its quotes (Rust Reference, Raw string literals).
pub fn raw_value(literal: &str) -> &str
    requires { IsTrue (is_raw_str (chars literal.now)) }
    ensures value { chars result.now ≡ raw_value (chars literal.now) }
    ensures law { IsRawOf (chars literal.now) (chars result.now) }
{
    let (opening, rest) = literal.split_once('"').unwrap();
    &rest[..rest.len() - opening.len()]
}
