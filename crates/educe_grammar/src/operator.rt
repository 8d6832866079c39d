//! Binary operators (Rust Reference, Operator expressions).
ghost use Rattle.std.specs.Prelude.{◌≡◌};
ghost use Rattle.educe_grammar.specs.Operators as spec;

use educe_tokens::{Token, TokenKind};

/// The classes of binary operators that the grammar distinguishes.
#[derive(Clone, Copy)]
pub enum Operator {
    /// `&&` or `||`
    Joins,
    /// `==`, `!=`, `>`, `<=` or `>=`
    Compares,
    /// `<`
    Less,
    /// `<<`
    ShiftsLeft,
    /// Any other: `+`, `-`, `*`, `/`, `%`, `^`, `&`, `|` or `>>`.
    Calculates,
}

/// The operator that two puncts spell.
fn pair_of(c: char, d: char) -> Option<Operator>
    ensures { result ≡ spec.pair_of c d }
{
    match (c, d) {
        ('&', '&') => Some(Operator::Joins),
        ('|', '|') => Some(Operator::Joins),
        ('=', '=') => Some(Operator::Compares),
        ('!', '=') => Some(Operator::Compares),
        ('<', '=') => Some(Operator::Compares),
        ('>', '=') => Some(Operator::Compares),
        ('<', '<') => Some(Operator::ShiftsLeft),
        ('>', '>') => Some(Operator::Calculates),
        _ => None,
    }
}

/// The operator that one punct spells.
fn single_of(c: char) -> Option<Operator>
    ensures { result ≡ spec.single_of c }
{
    match c {
        '<' => Some(Operator::Less),
        '>' => Some(Operator::Compares),
        '+' | '-' | '*' | '/' | '%' | '^' | '&' | '|' => Some(Operator::Calculates),
        _ => None,
    }
}

/// The operator of two tokens, of which the first is joint with the second.
fn pair_operator(first: &Token, second: &Token) -> Option<Operator>
    ensures { result ≡ spec.pair_operator first.now.kind second.now.kind }
{
    match (first.kind, second.kind) {
        (TokenKind::Punct(c, true), TokenKind::Punct(d, _)) => pair_of(c, d),
        _ => None,
    }
}

/// The operator of one token.
fn single_operator(first: &Token) -> Option<Operator>
    ensures { result ≡ spec.single_operator first.now.kind }
{
    match first.kind {
        TokenKind::Punct(c, _) => single_of(c),
        _ => None,
    }
}

/// The longest operator at the start of the tokens, and its number of tokens.
#[tactic(auto, unfolding(crate::specs::Operators::operator_at))]
pub fn operator_at(tokens: &[Token]) -> Option<(Operator, usize)>
    ensures { result ≡ spec.operator_at tokens.now }
{
    match tokens {
        [first, second, ..] => match pair_operator(first, second) {
            Some(pair) => Some((pair, 2)),
            None => single_operator(first).map(|single| (single, 1)),
        },
        [first] => single_operator(first).map(|single| (single, 1)),
        [] => None,
    }
}
