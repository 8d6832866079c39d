//! What may follow a piece.
ghost use Rattle.std.specs.Prelude.{◌≡◌, ◌==◌, IsTrue};
ghost use Rattle.educe_tokens_pieces.specs.Pieces.{is_joint, is_piece, spells, spells_uncarried, may_precede};

use educe_tokens_pieces::{
    LiteralKind, PieceKind, TokenKind, UncarriedKind, begins_slash_or_star, ends_line_before,
    ends_word_before, is_punct, may_follow_float, may_follow_int, opens_comment, touches_lifetime,
    touches_word,
};

/// Whether a punct is joint before a rest (Rust Reference, Punctuation).
pub(crate) fn is_joint(rest: &[char]) -> bool
    ensures { result ≡ is_joint rest.now }
{
    match rest {
        [first, ..] => is_punct(*first) && !opens_comment(rest),
        _ => false,
    }
}

fn literal_may_precede(kind: LiteralKind, spelling: &[char], rest: &[char]) -> bool
    requires { IsTrue (spells (TokenKind.Literal kind) spelling.now) }
    ensures { result ≡ may_precede (PieceKind.Token (TokenKind.Literal kind)) spelling.now rest.now }
{
    match kind {
        LiteralKind::Int => may_follow_int(spelling, rest),
        LiteralKind::Str => ends_word_before(rest),
        LiteralKind::ByteStr => ends_word_before(rest),
        LiteralKind::Char => ends_word_before(rest),
        LiteralKind::Byte => ends_word_before(rest),
    }
}

fn token_may_precede(kind: TokenKind, spelling: &[char], rest: &[char]) -> bool
    requires { IsTrue (spells kind spelling.now) }
    ensures { result ≡ may_precede (PieceKind.Token kind) spelling.now rest.now }
{
    match kind {
        TokenKind::Ident => !touches_word(rest),
        TokenKind::Lifetime => !touches_lifetime(rest),
        TokenKind::Literal(kind) => literal_may_precede(kind, spelling, rest),
        TokenKind::Punct(c, joint) => {
            joint == is_joint(rest) && !(c == '/' && begins_slash_or_star(rest))
        }
        TokenKind::Start(_) => true,
        TokenKind::Stop(_) => true,
        TokenKind::Doc => ends_line_before(spelling, rest),
    }
}

fn uncarried_may_precede(kind: UncarriedKind, spelling: &[char], rest: &[char]) -> bool
    requires { IsTrue (spells_uncarried kind spelling.now) }
    ensures { result ≡ may_precede (PieceKind.Uncarried kind) spelling.now rest.now }
{
    match kind {
        UncarriedKind::Float => may_follow_float(spelling, rest),
        UncarriedKind::WideInt => may_follow_int(spelling, rest),
        UncarriedKind::CStr => ends_word_before(rest),
    }
}

/// Whether a piece of the kind that is spelled so may stand before a rest (Rust Reference, Lexical
/// structure).
pub(crate) fn may_precede(kind: PieceKind, spelling: &[char], rest: &[char]) -> bool
    requires { IsTrue (is_piece kind spelling.now) }
    ensures { result ≡ may_precede kind spelling.now rest.now }
{
    match kind {
        PieceKind::Blank => true,
        PieceKind::Comment => ends_line_before(spelling, rest),
        PieceKind::Token(kind) => token_may_precede(kind, spelling, rest),
        PieceKind::Uncarried(kind) => uncarried_may_precede(kind, spelling, rest),
    }
}
