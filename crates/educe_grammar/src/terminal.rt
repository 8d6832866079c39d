//! Terminals of the grammar: the kinds of tokens that a parser asks for.
ghost use Rattle.std.specs.Prelude.{◌≡◌, chars};
ghost use Rattle.std.specs.List.{list_any};
ghost use Rattle.std.specs.Str.{bytes_eq};
ghost use Rattle.educe_tokens.specs.TokenKind.TheVariants as kind;
ghost use Rattle.educe_grammar.specs.Terminals as spec;

use educe_tokens::{LiteralKind, Spelling, Token, TokenKind};
use educe_tree::{is_name, is_spelled};

/// A keyword of the grammar (Rust Reference, Keywords).
#[derive(Clone, Copy)]
pub enum Keyword {
    /// `as`
    As,
    /// `const`
    Const,
    /// `crate`
    Crate,
    /// `dyn`
    Dyn,
    /// `enum`
    Enum,
    /// `extern`
    Extern,
    /// `false`
    False,
    /// `fn`
    Fn,
    /// `for`
    For,
    /// `in`
    In,
    /// `mut`
    Mut,
    /// `pub`
    Pub,
    /// `Self`
    SelfType,
    /// `self`
    SelfValue,
    /// `struct`
    Struct,
    /// `super`
    Super,
    /// `true`
    True,
    /// `_`
    Underscore,
    /// `unsafe`
    Unsafe,
    /// `where`
    Where,
}

impl Keyword {
    /// How the word is spelled.
    #[tactic(auto, using(crate::proofs::Words::chars_text))]
    pub fn text(self) -> &'static str
        ensures { chars result.now ≡ spec.text_of self }
    {
        match self {
            Keyword::As => "as",
            Keyword::Const => "const",
            Keyword::Crate => "crate",
            Keyword::Dyn => "dyn",
            Keyword::Enum => "enum",
            Keyword::Extern => "extern",
            Keyword::False => "false",
            Keyword::Fn => "fn",
            Keyword::For => "for",
            Keyword::In => "in",
            Keyword::Mut => "mut",
            Keyword::Pub => "pub",
            Keyword::SelfType => "Self",
            Keyword::SelfValue => "self",
            Keyword::Struct => "struct",
            Keyword::Super => "super",
            Keyword::True => "true",
            Keyword::Underscore => "_",
            Keyword::Unsafe => "unsafe",
            Keyword::Where => "where",
        }
    }
}

/// What a token may be asked to be. No bracket and no documentation is one of these.
#[derive(Clone, Copy)]
pub enum Terminal {
    /// An identifier that is spelled so.
    Word(Keyword),
    /// An identifier that is neither `_` nor a keyword.
    Name,
    /// Any identifier, keywords and `_` too.
    AnyWord,
    /// A name, or `_`.
    NameOrUnderscore,
    /// A name, or an integer.
    NameOrIndex,
    /// A name, `self`, `Self`, `super` or `crate` (Rust Reference, Path segments).
    PathSegment,
    /// `crate`, `self` or `super`, as in `pub(crate)` (Rust Reference, Visibility and privacy).
    Scope,
    /// `const` or `mut`, behind the `*` of a pointer.
    PointerWord,
    /// `true` or `false`
    Truth,
    /// A lifetime.
    Lifetime,
    /// A literal of any kind.
    Literal,
    /// An integer.
    Int,
    /// A string.
    Str,
    /// This punctuation character, joint with the next token or not.
    Sign(char),
    /// `-`, `!` or `*` before an operand (Rust Reference, Operator expressions).
    PrefixSign,
    /// Any token that is neither a bracket nor documentation.
    Leaf,
}

/// Whether the text is one of the words.
fn is_one_of(text: &Spelling, words: &[Keyword]) -> bool
    ensures { result ≡ list_any (λ word. bytes_eq (spec.text_of word) text.now) words.now }
{
    words.iter().any(|word| is_spelled(text, word.text()))
}

impl Terminal {
    /// Whether an identifier is what is asked for.
    fn accepts_word(self, token: &Token) -> bool
        requires { token.now.kind ≡ kind.Ident }
        ensures { result ≡ spec.word_in (spec.set_of self).words token.now.spelling }
    {
        let text = &token.spelling;
        match self {
            Terminal::Word(word) => is_one_of(text, &[word]),
            Terminal::Name => is_name(token),
            Terminal::NameOrIndex => is_name(token),
            Terminal::NameOrUnderscore => {
                is_name(token) || is_one_of(text, &[Keyword::Underscore])
            }
            Terminal::PathSegment => {
                let words = [
                    Keyword::SelfValue,
                    Keyword::SelfType,
                    Keyword::Super,
                    Keyword::Crate,
                ];
                is_name(token) || is_one_of(text, &words)
            }
            Terminal::Scope => {
                is_one_of(text, &[Keyword::Crate, Keyword::SelfValue, Keyword::Super])
            }
            Terminal::PointerWord => is_one_of(text, &[Keyword::Const, Keyword::Mut]),
            Terminal::Truth => is_one_of(text, &[Keyword::True, Keyword::False]),
            Terminal::AnyWord => true,
            Terminal::Leaf => true,
            _ => false,
        }
    }

    /// Whether a literal of this kind is what is asked for.
    fn accepts_literal(self, literal: LiteralKind) -> bool
        ensures { result ≡ spec.literal_in (spec.set_of self).literals literal }
    {
        match (self, literal) {
            (Terminal::Literal, _) => true,
            (Terminal::Leaf, _) => true,
            (Terminal::Int, LiteralKind::Int) => true,
            (Terminal::NameOrIndex, LiteralKind::Int) => true,
            (Terminal::Str, LiteralKind::Str) => true,
            _ => false,
        }
    }

    /// Whether this punctuation character is what is asked for.
    fn accepts_sign(self, c: char) -> bool
        ensures { result ≡ spec.sign_in (spec.set_of self).signs c }
    {
        match self {
            Terminal::Sign(sign) => sign == c,
            Terminal::PrefixSign => c == '-' || c == '!' || c == '*',
            Terminal::Leaf => true,
            _ => false,
        }
    }

    /// Whether the token is what is asked for.
    #[tactic(auto, unfolding(crate::specs::Terminals::accepts))]
    pub fn accepts(self, token: &Token) -> bool
        ensures { result ≡ spec.accepts self token.now }
    {
        match token.kind {
            TokenKind::Ident => self.accepts_word(token),
            TokenKind::Lifetime => matches!(self, Terminal::Lifetime | Terminal::Leaf),
            TokenKind::Literal(literal) => self.accepts_literal(literal),
            TokenKind::Punct(c, _) => self.accepts_sign(c),
            _ => false,
        }
    }
}
