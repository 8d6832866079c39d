//! Spans and values of tokens.

use crate::answers::OfTokens::{All, IntegerValue, StringValue};
use crate::answers::check_tokens;
use educe_tokens::{Token, int_value, string_value};
use std::alloc::{AllocError, Global};
use std::test::Fail;

/// The integer value of one token, where it has one.
pub(crate) fn integer(tokens: &[Token]) -> Option<u128> {
    match tokens {
        [token] => int_value(token),
        _ => None,
    }
}

/// The string value of one token, where it has one.
pub(crate) fn string(alloc: Global, tokens: &[Token]) -> Result<Option<String>, AllocError> {
    match tokens {
        [token] => string_value(alloc, token),
        _ => Ok(None),
    }
}

static SPANS: &str = "
struct é\u{2028}{ a: u8 }
: 0..6 Ident struct
7..9 Ident é
12..13 Start(Curly) {
14..15 Ident a
15..16 Punct(':', false) :
17..19 Ident u8
20..21 Stop(Curly) }
";

static INTEGERS: &str = r#"
1
: 1

007
: 7

1_000
: 1000

0x_Fu8
0o17_i128
: 15

0b1010usize
: 10

340282366920938463463374607431768211455
: 340282366920938463463374607431768211455

_1
'1'
: none
"#;

static STRINGS: &str = r##"
"a"
: a

"\n\r\t\\\0\'\""
: 
␍␉\␀'"

"\x41\u{1_F600}"
: A😀

"a\␊ ␉␍␊ b"
"a\␍␊ b"
: ab

r"\n"
: \n

r#"a"b"#
: a"b

/// a
: ␠a

/** a */
: ␠a␠

b"a"
'a'
a
: none
"##;

#[test]
fn spans_in_bytes_and_values(rt: HostRuntime) -> Result<(), Fail> {
    check_tokens(rt.alloc(), All, SPANS)?;
    check_tokens(rt.alloc(), IntegerValue, INTEGERS)?;
    check_tokens(rt.alloc(), StringValue, STRINGS)
}
