//! Literals between quotes, and the values of strings.

use crate::answers::{Call, OfCharacters, check, check_characters};
use educe_tokens_pieces::{Quote, is_body, quote_end};
use std::test::Fail;

/// What a literal opens with, and the text behind its opening quote.
fn opened(literal: &[char]) -> Option<(Quote, &[char])> {
    match literal {
        ['"', body @ ..] => Some((Quote::Str, body)),
        ['\'', body @ ..] => Some((Quote::Char, body)),
        ['b', '"', body @ ..] => Some((Quote::ByteStr, body)),
        ['c', '"', body @ ..] => Some((Quote::CStr, body)),
        ['b', '\'', body @ ..] => Some((Quote::Byte, body)),
        _ => None,
    }
}

/// Whether a literal goes on behind its opening quote as such a literal does.
pub(crate) fn fits(literal: &[char]) -> Option<bool> {
    let (quote, body) = opened(literal)?;
    Some(is_body(quote, body))
}

/// Where a literal ends behind its opening quote.
pub(crate) fn end(literal: &[char]) -> Option<usize> {
    let (quote, body) = opened(literal)?;
    quote_end(quote, body)
}

static LITERALS: &str = r#"
"a"
""
"é␊"
"\n\r\t\\\0\'\""
"\x7f"
"\␊"
"\␍␊"
: true

"a
"a"b"
"\"
"\q"
"\x80"
"\x7"
"\␍"
: false

'\u{1_F600}'
'\u{0_0_0_0_4_1__}'
'\u{D7FF}'
'\u{E000}'
'\u{10FFFF}'
: true

'\u{D800}'
'\u{DFFF}'
'\u{110000}'
'\u{}'
'\u{_1}'
'\u{1234567}'
'\u{1g}'
'\u{1'
'\u41'
: false

"\u{1_F600}"
b"a\x80\xff\'"
b"\␊"
c"é\xff\u{41}"
b'a'
b'\xff'
: true

"\u{D800}"
b"a
b"é"
b"\u{41}"
c"\xff
c"\q"
b'a
b'\u{1}'
b'é'
b'␊'
: false

'a'
'é'
'"'
'\''
: true

'a
'''
''
'ab'
'␊'
'␍'
'␉'
'\x80'
'\␊'
: false
"#;

static ENDS: &str = r#"
"a"b"
: 2

"\"
'a␠
: none
"#;

static VALUES_OF_STRINGS: &str = r#"
""
: ∅

"a b"
: a b

"a\␊   b"
: ab

"a\␍␊ ␉␍␊ b c"
: ab c

"\␊ \␊ \n "
: 
 

"\u{41}\x42C"
: ABC

"\u{1_F600_}\x7f"
: 😀␡

"\n\r\t\\\0\'\""
: 
␍␉\␀'"

"é\u{e9}"
: éé
"#;

#[test]
fn strings_bytes_and_characters(rt: HostRuntime) -> Result<(), Fail> {
    check_characters(rt.alloc(), OfCharacters::IsBody, LITERALS)?;
    check_characters(rt.alloc(), OfCharacters::QuoteEnd, ENDS)?;
    check(rt.alloc(), Call::StrValue, VALUES_OF_STRINGS)
}
