//! What a piece of a text is (Rust Reference, Lexical structure).

/// The three kinds of brackets (Rust Reference, Delimiters).
#[derive(Clone, Copy, Debug, PartialEq, Eq)]
pub enum Bracket {
    Round,
    Square,
    Curly,
}

/// The kinds of supported literals (Rust Reference, Literals). A `Str` or a `ByteStr` may be
/// raw.
#[derive(Clone, Copy, Debug, PartialEq, Eq)]
pub enum LiteralKind {
    Int,
    Str,
    ByteStr,
    Char,
    Byte,
}

/// What a token is (Rust Reference, Tokens). Keywords and `_` are identifiers too. A punctuation
/// character is joint where the next one follows it at once; a `Doc` is an outer documentation
/// comment.
#[derive(Clone, Copy, Debug, PartialEq, Eq)]
pub enum TokenKind {
    Ident,
    Lifetime,
    Literal(LiteralKind),
    Punct(char, bool),
    Start(Bracket),
    Stop(Bracket),
    Doc,
}

/// The kinds of unsupported literals (Rust Reference, Literals).
#[derive(Clone, Copy, Debug, PartialEq, Eq)]
pub enum UncarriedKind {
    /// A floating-point literal.
    Float,
    /// An integer literal whose value is above 2^128 - 1.
    WideInt,
    /// A C string, raw or not.
    CStr,
}

/// What a piece of a text is (Rust Reference, Lexical structure).
#[derive(Clone, Copy, Debug, PartialEq, Eq)]
pub enum PieceKind {
    /// One blank character.
    Blank,
    /// A comment that is no documentation.
    Comment,
    Token(TokenKind),
    /// An unsupported literal.
    Uncarried(UncarriedKind),
}
