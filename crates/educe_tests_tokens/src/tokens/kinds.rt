//! What `lex` answers for each kind of piece: where it fits, where it is a character short, and where
//! it is a character too long. The answers are those of the Rust Reference. Where `rustc` reads a text
//! as pieces that are carried, it gives the same kinds and the same jointness, but for the differences
//! that `docs/DECISIONS.md` names.

use crate::answers::OfTokens::Kinds;
use crate::answers::check_tokens;
use educe_tokens::{LiteralKind, Token, TokenKind};
use std::alloc::{AllocError, Global};
use std::test::Fail;

/// The name of a kind; a joint punctuation character has a `+` behind it.
fn kind_name(kind: TokenKind) -> &'static str {
    match kind {
        TokenKind::Ident => "Ident",
        TokenKind::Lifetime => "Lifetime",
        TokenKind::Literal(LiteralKind::Int) => "Int",
        TokenKind::Literal(LiteralKind::Str) => "Str",
        TokenKind::Literal(LiteralKind::ByteStr) => "ByteStr",
        TokenKind::Literal(LiteralKind::Char) => "Char",
        TokenKind::Literal(LiteralKind::Byte) => "Byte",
        TokenKind::Punct(_, true) => "Punct+",
        TokenKind::Punct(_, false) => "Punct",
        TokenKind::Start(_) => "Start",
        TokenKind::Stop(_) => "Stop",
        TokenKind::Doc => "Doc",
    }
}

/// The kinds of tokens, with a blank between two.
pub(crate) fn kind_names(alloc: Global, tokens: &[Token]) -> Result<String, AllocError> {
    let mut names = String::new(alloc);
    let mut between = "";
    for token in tokens {
        names.push_str(between)?;
        names.push_str(kind_name(token.kind))?;
        between = " ";
    }
    Ok(names)
}

static CHARACTERS_THAT_DO_NOT_SHOW: &str = "
␉\u{B}\u{C}␍␊ \u{85}\u{200E}\u{200F}\u{2028}\u{2029}a
: Ident

\u{A0}
: Syntax 2..2

\u{200B}
: Syntax 3..3

\u{301}
: Syntax 2..2
";

static COMMENTS: &str = r#"
// a
//
////
/**/
/* /* */ */
/***/
: ∅

// a␊b
/* a */b
: Ident

/
: Punct

/* a *
: Syntax 6..6

/* a */ */
: Punct+ Punct

/*/
: Syntax 3..3

/* /* */
: Syntax 8..8

a/* x /* y */ */b
: Ident Ident

///
/** a */
: Doc

/// a␊b
/** a */ b
: Doc Ident

/** a *
: Syntax 7..7

//! a
: Syntax 5..5

/*! a */
: Syntax 8..8
"#;

static WORDS: &str = r#"
a
_
é1_
fn
r#a
r#fn
r#__
: Ident

a b
: Ident Ident

r#
a#
: Syntax 2..2

r#crate
r#super
: Syntax 7..7

r#self
r#Self
: Syntax 6..6

r#_
r#1
: Syntax 3..3

a"b"
a'b'
r#a#
: Syntax 4..4

'a
'_
: Lifetime

'static b
: Lifetime Ident

'
: Syntax 1..1

'1
: Syntax 2..2

'ab'
: Syntax 4..4

'a#
: Lifetime Punct
"#;

static NUMBERS: &str = r#"
0
1_000_
0b1_0
0o17
0x_F
0xFfu8
1i128
340282366920938463463374607431768211455
: Int

0x
1u
: Syntax 2..2

0b_
0b2
0o8
0xg
1_a
: Syntax 3..3

0b12
1u88
0x1.
: Syntax 4..4

340282366920938463463374607431768211456
: NotCarried 0..39

0x1_00000000000000000000000000000000u8
: NotCarried 0..38

1..2
: Int Punct+ Punct Int

1.a
1._
: Int Punct Ident

1u8.5
0xe+1
: Int Punct Int

0b1.5
: Syntax 5..5

1.
: NotCarried 0..2

1.5
1e3
: NotCarried 0..3

1.5_e-3
: NotCarried 0..7

1E+_5f64
: NotCarried 0..8

2f32
0f64
: NotCarried 0..4

1.5f32
: NotCarried 0..6

1e
: Syntax 2..2

1e+
1e_
: Syntax 3..3

1.5f3
: Syntax 5..5

1.5a
: Syntax 4..4

0b1f32
: Syntax 6..6
"#;

static CHARACTERS: &str = r#"
'a'
'é'
'"'
'\''
'\n'
'\x7f'
'\u{1_F600}'
: Char

''
'\
'(
: Syntax 2..2

'''
'␊'
'␉'
'␍'
: Syntax 3..3

'\q'
'a'b
: Syntax 4..4

'\x80'
'\u{}'
: Syntax 6..6

'\x7'
: Syntax 5..5

'\u{_1}'
: Syntax 8..8

'\u{D800}'
: Syntax 10..10

'\u{110000}'
: Syntax 12..12

'\u{0000001}'
: Syntax 13..13

b'a'
b'\xff'
b'\''
: Byte

b''
b'a
: Syntax 3..3

b'é'
b'ab'
: Syntax 5..5

b'\u{1}'
: Syntax 8..8
"#;

static STRINGS: &str = r###"
""
"a"
"a␊b"
"\␊  b"
"\␍␊ b"
"\u{41}\x42\0"
"␍"
: Str

"a"+"b"
: Str Punct Str

"a
: Syntax 2..2

"\"
: Syntax 3..3

"a"b
"\q"
"\␍"
: Syntax 4..4

"\x80"
: Syntax 6..6

b""
b"a\xff\␊ b"
: ByteStr

b"é"
: Syntax 5..5

b"\u{41}"
: Syntax 9..9

b"a
: Syntax 3..3

r""
r"\"
r#"a"b"#
r##"a"#"##
r"é"
: Str

r#""##
: Str Punct

r"
: Syntax 2..2

r#"a"
r"a"b
: Syntax 5..5

r##"a"#
: Syntax 7..7

r##a
br#a
: Syntax 4..4

br""
br#"a"b"#
: ByteStr

br"é"
br#"a"
: Syntax 6..6

c"a"
: NotCarried 0..4

c"é\xff\u{1}"
: NotCarried 0..14

cr"a"
: NotCarried 0..5

cr#"a"b"#
: NotCarried 0..9

c"a
: Syntax 3..3

cr#"a"
: Syntax 6..6

cr#a
c'a'
: Syntax 4..4
"###;

static SIGNS: &str = r#"
+=
-/␠
: Punct+ Punct

+ =
+/**/=
: Punct Punct

+//
: Punct

+///a
: Punct Doc

::<
: Punct+ Punct+ Punct

`
\
␀
: Syntax 1..1

§
: Syntax 2..2

()
: Start Stop

([{}])
: Start Start Start Stop Stop Stop

(
: Syntax 1..1

)
: Syntax 0..1

(]
: Syntax 1..2

a ((
: Syntax 4..4
"#;

#[test]
fn kinds_of_tokens(rt: HostRuntime) -> Result<(), Fail> {
    check_tokens(rt.alloc(), Kinds, CHARACTERS_THAT_DO_NOT_SHOW)?;
    check_tokens(rt.alloc(), Kinds, COMMENTS)?;
    check_tokens(rt.alloc(), Kinds, WORDS)?;
    check_tokens(rt.alloc(), Kinds, NUMBERS)
}

#[test]
fn kinds_of_literals_and_signs(rt: HostRuntime) -> Result<(), Fail> {
    check_tokens(rt.alloc(), Kinds, CHARACTERS)?;
    check_tokens(rt.alloc(), Kinds, STRINGS)?;
    check_tokens(rt.alloc(), Kinds, SIGNS)
}
