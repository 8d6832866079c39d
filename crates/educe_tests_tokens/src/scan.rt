//! Of `educe_tokens_scan`: the piece at the front of a text, and whether a text is one piece.

use crate::answers::OfCharacters::PieceAt;
use crate::answers::check_characters;
use crate::common::characters;
use educe_tests::check_at;
use educe_tokens_pieces::PieceKind::Token;
use educe_tokens_pieces::TokenKind::Punct;
use educe_tokens_pieces::{LiteralKind, PieceKind, TokenKind, UncarriedKind};
use educe_tokens_scan::is_piece;
use std::alloc::Global;
use std::test::Fail;

const BLANK: PieceKind = PieceKind::Blank;

const COMMENT: PieceKind = PieceKind::Comment;

const DOC: PieceKind = PieceKind::Token(TokenKind::Doc);

const WORD: PieceKind = PieceKind::Token(TokenKind::Ident);

const LIFETIME: PieceKind = PieceKind::Token(TokenKind::Lifetime);

const INT: PieceKind = PieceKind::Token(TokenKind::Literal(LiteralKind::Int));

const STR: PieceKind = PieceKind::Token(TokenKind::Literal(LiteralKind::Str));

const FLOAT: PieceKind = PieceKind::Uncarried(UncarriedKind::Float);

const C_STRING: PieceKind = PieceKind::Uncarried(UncarriedKind::CStr);

static PIECES: &str = r##"
a_1:
: Token(Ident) 3

é
r
: Token(Ident) 1

br␠
: Token(Ident) 2

r#fn
r#__
: Token(Ident) 4

r#crate
r#_
r#
a#
a"
a'
: none

'a'
: Token(Literal(Char)) 3

'\''
: Token(Literal(Char)) 4

'a
'_,
'r#a
: Token(Lifetime) 2

'a'b
'ab'
'+
b'a
: none

'static␠
: Token(Lifetime) 7

b'a'
: Token(Literal(Byte)) 4

"a"+
: Token(Literal(Str)) 3

"a"b
"a
br"é"
br#a
r##a
: none

b"a"
: Token(Literal(ByteStr)) 4

br"a"
: Token(Literal(ByteStr)) 5

r"é"
: Token(Literal(Str)) 4

r#"""#
: Token(Literal(Str)) 6

c"a"
: Uncarried(CStr) 4

cr#"a"#
: Uncarried(CStr) 7

[]
: Token(Start(Square)) 1

}}
: Token(Stop(Curly)) 1

::
: Token(Punct(':', true)) 1

/
: Token(Punct('/', false)) 1

/=
: Token(Punct('/', true)) 1

+/
: Token(Punct('+', true)) 1

+//
: Token(Punct('+', false)) 1

-/*
: Token(Punct('-', false)) 1

&'a
: Token(Punct('&', false)) 1

\n
∅
: none

//
: Comment 2

//a␊b
: Comment 3

/**//
: Comment 4

///a␊
: Token(Doc) 4

/*
//!
: none

1..
1.a
: Token(Literal(Int)) 1

1_u8
: Token(Literal(Int)) 4

1.
: Uncarried(Float) 2

1.5..
: Uncarried(Float) 3

1a
: none
"##;

static MARK: &str = "
\u{200E}a
: Blank 1
";

#[test]
fn pieces_at_the_front(rt: HostRuntime) -> Result<(), Fail> {
    check_characters(rt.alloc(), PieceAt, PIECES)?;
    check_characters(rt.alloc(), PieceAt, MARK)
}

/// Compares whether a text is one piece of a kind.
fn check_whole(alloc: Global, expected: bool, table: &[(PieceKind, &str)]) -> Result<(), Fail> {
    for (kind, text) in table {
        let found = is_piece(*kind, &characters(alloc, text)?);
        check_at(*text, found, expected)?;
    }
    Ok(())
}

static TEXTS_THAT_ARE_ONE_PIECE: [(PieceKind, &str); 9] = [
    (BLANK, "\t"),
    (COMMENT, "/* /* */ */"),
    (DOC, "/// a"),
    (WORD, "r#type"),
    (Token(Punct('+', false)), "+"),
    (Token(Punct('+', true)), "+"),
    (INT, "0xffu8"),
    (FLOAT, "1.5e-3f32"),
    (C_STRING, "cr#\"\"a\"#"),
];

static TEXTS_THAT_ARE_NOT_ONE_PIECE: [(PieceKind, &str); 9] = [
    (BLANK, "  "),
    (COMMENT, "/* /* */"),
    (COMMENT, "//! a"),
    (DOC, "////"),
    (WORD, "r#self"),
    (WORD, "a b"),
    (LIFETIME, "'a'"),
    (INT, "1.5"),
    (STR, ""),
];

#[test]
fn texts_that_are_one_piece(rt: HostRuntime) -> Result<(), Fail> {
    check_whole(rt.alloc(), true, &TEXTS_THAT_ARE_ONE_PIECE)?;
    check_whole(rt.alloc(), false, &TEXTS_THAT_ARE_NOT_ONE_PIECE)
}
