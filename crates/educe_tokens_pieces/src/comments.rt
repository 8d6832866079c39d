//! Comments and documentation (Rust Reference, Comments).
ghost use Rattle.std.specs.Prelude.{◌≡◌, ◌≤◌, ◌+◌, ◌==◌, ◌&&◌, ◌||◌, length, chars, IsTrue, IfSome};
ghost use Rattle.std.specs.List.{prefix_len};
ghost use Rattle.educe_tokens_pieces.specs.Chars.{begins, is_in_line};
ghost use Rattle.educe_tokens_pieces.specs.Comments.{opens_line_doc, opens_block_doc, opens_inner, opens_line, is_comment, is_doc, opens_comment, ends_line_before, doc_value, IsDocOf};
ghost use Rattle.educe_tokens_pieces.specs.CommentScan.{closing_len, comment_kind, line_at, block_at, comment_at};

use crate::kind::{PieceKind, TokenKind};

fn line_len(text: &[char]) -> usize
    ensures value { result ≡ prefix_len is_in_line text.now }
    ensures within { result ≤ length text.now }
{
    text.iter().take_while(|c| **c != '\n').count()
}

fn closes(first: char, second: char) -> bool
    ensures { result ≡ (first == 42) && (second == 47) }
{
    first == '*' && second == '/'
}

fn opens(first: char, second: char) -> bool
    ensures { result ≡ (first == 47) && (second == 42) }
{
    first == '/' && second == '*'
}

/// How many characters it takes until the comment closes that the text is in, if it does.
fn closing_len(text: &[char]) -> Option<usize>
    ensures value { result ≡ closing_len 0 text.now }
    ensures within { IfSome result (λ n. n ≤ length text.now) }
{
    let mut inner: usize = 0;
    let mut i = 0;
    while i + 1 < text.len() {
        let first = text[i];
        let second = text[i + 1];
        if closes(first, second) {
            if inner == 0 {
                return Some(i + 2);
            }
            inner -= 1;
            i += 2;
        } else if opens(first, second) {
            inner += 1;
            i += 2;
        } else {
            i += 1;
        }
    }
    None
}

fn opens_inner(rest: &[char]) -> bool
    ensures { result ≡ opens_inner rest.now }
{
    matches!(rest, ['!', ..])
}

fn opens_line_doc(rest: &[char]) -> bool
    ensures { result ≡ opens_line_doc rest.now }
{
    match rest {
        [first, second, ..] => *first == '/' && *second != '/',
        [first] => *first == '/',
        [] => false,
    }
}

fn opens_block_doc(rest: &[char]) -> bool
    ensures { result ≡ opens_block_doc rest.now }
{
    match rest {
        [first, second, ..] => *first == '*' && !matches!(*second, '/' | '*'),
        [first] => *first == '*',
        [] => false,
    }
}

/// The kind of a comment: documentation, or a comment that documents nothing.
pub fn comment_kind(documents: bool) -> PieceKind
    ensures { result ≡ comment_kind documents }
{
    if documents {
        PieceKind::Token(TokenKind::Doc)
    } else {
        PieceKind::Comment
    }
}

fn line_at(rest: &[char]) -> Option<(PieceKind, usize)>
    ensures value { result ≡ line_at rest.now }
    ensures within { IfSome result (λ found. found.1 ≤ 2 + length rest.now) }
{
    if opens_inner(rest) {
        None
    } else {
        Some((comment_kind(opens_line_doc(rest)), 2 + line_len(rest)))
    }
}

fn block_at(rest: &[char]) -> Option<(PieceKind, usize)>
    ensures value { result ≡ block_at rest.now }
    ensures within { IfSome result (λ found. found.1 ≤ 2 + length rest.now) }
{
    if opens_inner(rest) {
        None
    } else {
        match closing_len(rest) {
            Some(len) => Some((comment_kind(opens_block_doc(rest)), 2 + len)),
            None => None,
        }
    }
}

/// The comment or the outer documentation at the front of a text, and how many characters it has;
/// none where inner documentation stands there, or a block that doesn't end (Rust Reference,
/// Comments).
pub fn comment_at(text: &[char]) -> Option<(PieceKind, usize)>
    ensures value { result ≡ comment_at text.now }
    ensures within { IfSome result (λ found. found.1 ≤ length text.now) }
{
    match text {
        [first, second, rest @ ..] => {
            if *first == '/' && *second == '/' {
                line_at(rest)
            } else if *first == '/' && *second == '*' {
                block_at(rest)
            } else {
                None
            }
        }
        _ => None,
    }
}

/// Whether a comment or documentation opens here, with `//` or `/*` (Rust Reference, Comments).
pub fn opens_comment(rest: &[char]) -> bool
    ensures { result ≡ opens_comment rest.now }
{
    match rest {
        [first, second, ..] => *first == '/' && matches!(*second, '/' | '*'),
        _ => false,
    }
}

fn opens_line(text: &[char]) -> bool
    ensures { result ≡ opens_line text.now }
{
    match text {
        [first, second, ..] => *first == '/' && *second == '/',
        _ => false,
    }
}

fn begins_in_line(rest: &[char]) -> bool
    ensures { result ≡ begins is_in_line rest.now }
{
    match rest {
        [first, ..] => *first != '\n',
        [] => false,
    }
}

/// Whether a comment or documentation may stand before a rest: one of a line only before its end
/// (Rust Reference, Comments).
pub fn ends_line_before(spelling: &[char], rest: &[char]) -> bool
    requires { IsTrue (is_comment spelling.now || is_doc spelling.now) }
    ensures { result ≡ ends_line_before spelling.now rest.now }
{
    !(opens_line(spelling) && begins_in_line(rest))
}

/// The text of documentation: what stands behind `///`, or between `/**` and `*/` (Rust Reference,
/// Doc comments).
pub fn doc_value(doc: &str) -> &str
    requires { IsTrue (is_doc (chars doc.now)) }
    ensures value { chars result.now ≡ doc_value (chars doc.now) }
    ensures law { IsDocOf (chars doc.now) (chars result.now) }
{
    if doc.starts_with("//") {
        &doc[3..]
    } else {
        &doc[3..doc.len() - 2]
    }
}
