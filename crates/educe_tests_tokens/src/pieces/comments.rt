//! Comments and documentation.

use crate::answers::OfCharacters::{CommentAt, EndsLineBefore};
use crate::answers::{Call, check, check_characters};
use crate::common::characters;
use educe_tokens_pieces::{PieceKind, TokenKind, doc_value, ends_line_before};
use educe_tokens_scan::is_piece;
use std::alloc::Global;
use std::test::Fail;

/// A comment that is no documentation.
const COMMENT: PieceKind = PieceKind::Comment;

/// Outer documentation.
const DOC: PieceKind = PieceKind::Token(TokenKind::Doc);

/// Whether the first so many characters, a comment or documentation, may stand before the rest.
pub(crate) fn may_stand_before_rest(text: &[char], len: usize) -> Option<bool> {
    if len > text.len() {
        return None;
    }
    let (comment, rest) = text.split_at(len);
    if is_piece(COMMENT, comment) || is_piece(DOC, comment) {
        Some(ends_line_before(comment, rest))
    } else {
        None
    }
}

/// The text of documentation.
pub(crate) fn doc_text(alloc: Global, doc: &str) -> Result<String, Fail> {
    if is_piece(DOC, &characters(alloc, doc)?) {
        Ok(String::from_str(alloc, doc_value(doc))?)
    } else {
        Err(Fail::from(doc))
    }
}

static COMMENTS: &str = r#"
// a
// a␊// b
////
/**/
: Comment 4

//
: Comment 2

/***/
: Comment 5

/*** a */
: Comment 9

/* /* */ */ */
: Comment 11

/* / * /*/ */ */
: Comment 16

/// a
: Token(Doc) 5

///
///␊/
: Token(Doc) 3

/** a */
: Token(Doc) 8

/**␊*/ a */
: Token(Doc) 6

/** /* */ */
: Token(Doc) 12

//!
//! a
/*! a */
/* a
/*/
/* /* */
a/*
/
∅
: none
"#;

static LINES_OF_3: &str = r#"
//ab
: false

//a␊b
///
: true
"#;

static BLOCK_OF_4: &str = r#"
/**/b
: true
"#;

static TEXTS: &str = "
/// a\u{2028}
: ␠a\u{2028}

///
: ∅

/** /* é */ */
: ␠/* é */␠
";

#[test]
fn comments_and_documentation(rt: HostRuntime) -> Result<(), Fail> {
    check_characters(rt.alloc(), CommentAt, COMMENTS)?;
    check_characters(rt.alloc(), EndsLineBefore(3), LINES_OF_3)?;
    check_characters(rt.alloc(), EndsLineBefore(4), BLOCK_OF_4)?;
    check(rt.alloc(), Call::DocValue, TEXTS)
}
