//! Numbers, and the values of integers.

use crate::answers::{Call, OfCharacters, check, check_characters};
use crate::common::{characters, or_none};
use educe_tokens_pieces::{
    LiteralKind, PieceKind, TokenKind, UncarriedKind, int_value, may_follow_float, may_follow_int,
    number_at,
};
use educe_tokens_scan::is_piece;
use std::alloc::Global;
use std::test::Fail;

/// An integer.
const INT: PieceKind = PieceKind::Token(TokenKind::Literal(LiteralKind::Int));

/// The number at the front, if it may stand before the rest.
pub(crate) fn number_before_rest(text: &[char]) -> Option<(PieceKind, usize)> {
    let (kind, len) = number_at(text)?;
    let (spelling, rest) = text.split_at(len);
    let apart = match kind {
        PieceKind::Uncarried(UncarriedKind::Float) => may_follow_float(spelling, rest),
        _ => may_follow_int(spelling, rest),
    };
    if apart { Some((kind, len)) } else { None }
}

/// The value of an integer.
pub(crate) fn value(alloc: Global, integer: &str) -> Result<String, Fail> {
    if is_piece(INT, &characters(alloc, integer)?) {
        Ok(or_none(alloc, int_value(integer))?)
    } else {
        Err(Fail::from(integer))
    }
}

static NUMBERS: &str = r#"
1
1..2
1.a
1._
1.e5
: Token(Literal(Int)) 1

007
1u8.5
0xe+1
: Token(Literal(Int)) 3

1_000
: Token(Literal(Int)) 5

0x_F
0o17
: Token(Literal(Int)) 4

0x_Fu8
0x1f32
: Token(Literal(Int)) 6

0b101i128
: Token(Literal(Int)) 9

340282366920938463463374607431768211455
: Token(Literal(Int)) 39

340282366920938463463374607431768211456
: Uncarried(WideInt) 39

0xFFFF_FFFF_FFFF_FFFF_FFFF_FFFF_FFFF_FFFF
: Token(Literal(Int)) 41

0x1_0000_0000_0000_0000_0000_0000_0000_0000u8
: Uncarried(WideInt) 45

1.
1.+
: Uncarried(Float) 2

1.5
1.5.6
1e3
: Uncarried(Float) 3

1.5e3
1E-_5
1_f32
: Uncarried(Float) 5

1e+3f64
: Uncarried(Float) 7

1f32
0f32
: Uncarried(Float) 4

0x
0x_
0b2
0b12
0o8
1a
1u9
1e
1e+
1e+_
1.5f33
1.5e
0b1f32
0x1.5
0b1.
1é
: none
"#;

static VALUES_OF_INTEGERS: &str = r#"
1_000
: 1000

0x_Fu8
0o17
: 15

0b101i128
: 5

340282366920938463463374607431768211455
: 340282366920938463463374607431768211455
"#;

#[test]
fn integers_and_floats(rt: HostRuntime) -> Result<(), Fail> {
    check_characters(rt.alloc(), OfCharacters::NumberAt, NUMBERS)?;
    check(rt.alloc(), Call::IntValue, VALUES_OF_INTEGERS)
}
