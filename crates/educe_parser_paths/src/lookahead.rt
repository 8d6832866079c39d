//! Lookaheads of types, paths and token trees.
ghost use Rattle.std.specs.Prelude.{◌≡◌};
ghost use Rattle.educe_grammar.specs.Ahead.{sees_any};
ghost use Rattle.educe_grammar.specs.Expressions as expressions;
ghost use Rattle.educe_grammar.specs.Types as types;

use educe_grammar::{Cursor, Keyword, Lookahead, Terminal};
use educe_tokens::Bracket;

/// Lookahead for what may follow a type or bounds.
pub struct BehindType;

impl Lookahead for BehindType {
    ghost look = { types.behind_type };

    #[tactic(auto, unfolding(educe_grammar::specs::Ahead::sees_any))]
    fn is_next(cursor: &Cursor<'_>) -> bool {
        cursor.sees(Terminal::Sign(','))
            || cursor.sees(Terminal::Sign(';'))
            || cursor.sees(Terminal::Sign('='))
            || cursor.sees(Terminal::Sign('>'))
            || cursor.begins_lone(':', ':')
            || cursor.opens(Bracket::Curly)
            || cursor.closes(Bracket::Round)
            || cursor.closes(Bracket::Square)
            || cursor.closes(Bracket::Curly)
            || cursor.sees(Terminal::Word(Keyword::As))
            || cursor.at_end()
    }
}

/// Lookahead for a constant argument that is no name.
#[tactic(auto, unfolding(educe_grammar::specs::Ahead::sees_any))]
pub fn at_constant(cursor: &Cursor<'_>) -> bool
    ensures { result ≡ sees_any types.at_constant cursor.now }
{
    cursor.sees(Terminal::Literal)
        || cursor.sees(Terminal::Sign('-'))
        || cursor.sees(Terminal::Truth)
        || cursor.opens(Bracket::Curly)
}

/// Lookahead for an associated type binding, as `Item = T`.
#[tactic(auto, using(educe_grammar::proofs::Behind::behind_one), unfolding(educe_grammar::specs::Ahead::sees_any))]
pub fn at_binding(cursor: &Cursor<'_>) -> bool
    ensures { result ≡ sees_any types.at_binding cursor.now }
{
    cursor.sees(Terminal::Name) && cursor.behind(1).begins_lone('=', '=')
}

/// Lookahead for `<` or `::<`, with arguments after it.
#[tactic(auto, using(educe_grammar::proofs::Behind::behind_pair), unfolding(educe_grammar::specs::Ahead::sees_any))]
pub fn at_angle_args(cursor: &Cursor<'_>) -> bool
    ensures { result ≡ sees_any types.at_angle_args cursor.now }
{
    cursor.begins_lone('<', '=')
        || cursor.begins_pair(':', ':') && cursor.behind(2).begins_lone('<', '=')
}

/// Lookahead for a token tree (Rust Reference, Token trees).
#[tactic(auto, unfolding(educe_grammar::specs::Ahead::sees_any))]
pub fn at_tree(cursor: &Cursor<'_>) -> bool
    ensures { result ≡ sees_any expressions.at_tree cursor.now }
{
    cursor.sees(Terminal::Leaf)
        || cursor.opens(Bracket::Round)
        || cursor.opens(Bracket::Square)
        || cursor.opens(Bracket::Curly)
}
