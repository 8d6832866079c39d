//! Raw strings.

use crate::answers::{Call, OfCharacters, check, check_characters};
use crate::common::characters;
use educe_tokens_pieces::{LiteralKind, PieceKind, TokenKind, begins_with, raw_value};
use educe_tokens_scan::is_piece;
use std::alloc::Global;
use std::test::Fail;

/// A string, raw or not.
const STR: PieceKind = PieceKind::Token(TokenKind::Literal(LiteralKind::Str));

/// The value of a raw string.
pub(crate) fn value(alloc: Global, literal: &str) -> Result<String, Fail> {
    let text = characters(alloc, literal)?;
    if begins_with(&text, 'r') && is_piece(STR, &text) {
        Ok(String::from_str(alloc, raw_value(literal))?)
    } else {
        Err(Fail::from(literal))
    }
}

static RAW_TEXTS: &str = r###"
""
"""
: 2

#"a"b"#
#"a"b"##
: 7

##"a"#"##
: 9

#"a"
"a
#a
∅
: none
"###;

/// With 255 and with 256 `#`.
static MARKS: &str = "
###############################################################################################################################################################################################################################################################\"\"###############################################################################################################################################################################################################################################################
: 512

################################################################################################################################################################################################################################################################\"\"################################################################################################################################################################################################################################################################
: none
";

static VALUES: &str = r###"
r""
: ∅

r#"a"b"#
: a"b

r##"a"#"##
: a"#
"###;

#[test]
fn raw_strings_with_at_most_255_marks(rt: HostRuntime) -> Result<(), Fail> {
    check_characters(rt.alloc(), OfCharacters::RawLen, RAW_TEXTS)?;
    check_characters(rt.alloc(), OfCharacters::RawLen, MARKS)?;
    check(rt.alloc(), Call::RawValue, VALUES)
}
