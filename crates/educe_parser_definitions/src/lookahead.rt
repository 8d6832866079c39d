//! Lookaheads: what the next tokens may begin.
ghost use Rattle.std.specs.Prelude.{◌≡◌};
ghost use Rattle.educe_grammar.specs.Ahead.{sees_any, finish};
ghost use Rattle.educe_grammar.specs.Attributes as attributes;
ghost use Rattle.educe_grammar.specs.Combining.{at};
ghost use Rattle.educe_grammar.specs.Definitions as definitions;
ghost use Rattle.educe_grammar.specs.Generics as generics;

use educe_grammar::{Cursor, Keyword, Lookahead, Terminal};
use educe_tokens::Bracket;

/// A bracket pair (Rust Reference, Delimited token trees).
#[tactic(auto, unfolding(educe_grammar::specs::Ahead::sees_any))]
pub fn at_group(cursor: &Cursor<'_>) -> bool
    ensures { result ≡ sees_any attributes.at_group cursor.now }
{
    cursor.opens(Bracket::Round) || cursor.opens(Bracket::Square) || cursor.opens(Bracket::Curly)
}

/// An attribute (Rust Reference, Attributes).
#[tactic(auto, unfolding(educe_grammar::specs::Ahead::sees_any))]
pub fn at_attribute(cursor: &Cursor<'_>) -> bool
    ensures { result ≡ sees_any attributes.at_attribute cursor.now }
{
    cursor.documents() || cursor.sees(Terminal::Sign('#'))
}

/// What stands behind a where clause (Rust Reference, Where clauses).
pub struct BehindWhere;

impl Lookahead for BehindWhere {
    ghost look = { generics.behind_where };

    #[tactic(auto, unfolding(educe_grammar::specs::Ahead::sees_any))]
    fn is_next(cursor: &Cursor<'_>) -> bool {
        cursor.opens(Bracket::Curly) || cursor.sees(Terminal::Sign(';')) || cursor.at_end()
    }
}

/// The end of the tokens.
pub struct AtEnd;

impl Lookahead for AtEnd {
    ghost look = { at finish };

    #[tactic(auto, unfolding(educe_grammar::specs::Ahead::sees_any))]
    fn is_next(cursor: &Cursor<'_>) -> bool {
        cursor.at_end()
    }
}

/// A scope in brackets, and not a type in them (Rust Reference, Visibility and privacy).
#[tactic(auto, using(educe_grammar::proofs::Behind::behind_start, educe_grammar::proofs::Behind::behind_one), unfolding(educe_grammar::specs::Ahead::sees_any))]
pub fn at_scope(cursor: &Cursor<'_>) -> bool
    ensures { result ≡ sees_any definitions.at_scope cursor.now }
{
    let inside = cursor.behind(1);
    cursor.opens(Bracket::Round)
        && inside.sees(Terminal::Scope)
        && inside.behind(1).closes(Bracket::Round)
        || cursor.opens(Bracket::Round) && inside.sees(Terminal::Word(Keyword::In))
}
