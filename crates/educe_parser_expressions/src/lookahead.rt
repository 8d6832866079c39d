//! Lookaheads of types and expressions.
ghost use Rattle.std.specs.Prelude.{◌≡◌, [], ◌∷◌};
ghost use Rattle.educe_grammar.specs.Ahead.{sees_any, one, lone};
ghost use Rattle.educe_grammar.specs.declared.terminal.Terminal.TheVariants as terminal;
ghost use Rattle.educe_grammar.specs.Expressions as expressions;
ghost use Rattle.educe_grammar.specs.Types as types;

use educe_grammar::{Cursor, Keyword, Lookahead, Terminal};
use educe_tokens::Bracket;

/// The name of a parameter, and `:` (Rust Reference, Function pointer types).
#[tactic(auto, using(educe_grammar::proofs::Behind::behind_one), unfolding(educe_grammar::specs::Ahead::sees_any))]
pub fn at_fn_param(cursor: &Cursor<'_>) -> bool
    ensures { result ≡ sees_any ((one terminal.NameOrUnderscore ∷ lone 58 58 ∷ []) ∷ []) cursor.now }
{
    cursor.sees(Terminal::NameOrUnderscore) && cursor.behind(1).begins_lone(':', ':')
}

/// A function pointer (Rust Reference, Function pointer types).
#[tactic(auto, unfolding(educe_grammar::specs::Ahead::sees_any))]
pub fn at_fn(cursor: &Cursor<'_>) -> bool
    ensures { result ≡ sees_any types.at_fn cursor.now }
{
    cursor.sees(Terminal::Word(Keyword::For))
        || cursor.sees(Terminal::Word(Keyword::Unsafe))
        || cursor.sees(Terminal::Word(Keyword::Extern))
        || cursor.sees(Terminal::Word(Keyword::Fn))
}

/// Lookahead for `::<`, with arguments after it.
#[tactic(auto, using(educe_grammar::proofs::Behind::behind_pair), unfolding(educe_grammar::specs::Ahead::sees_any))]
pub fn at_turbofish(cursor: &Cursor<'_>) -> bool
    ensures { result ≡ sees_any expressions.at_turbofish cursor.now }
{
    cursor.begins_pair(':', ':') && cursor.behind(2).begins_lone('<', '=')
}

/// Lookahead for the name of a field and the colon before its value.
#[tactic(auto, using(educe_grammar::proofs::Behind::behind_one), unfolding(educe_grammar::specs::Ahead::sees_any))]
pub fn at_value(cursor: &Cursor<'_>) -> bool
    ensures { result ≡ sees_any expressions.at_value cursor.now }
{
    cursor.sees(Terminal::NameOrIndex) && cursor.behind(1).begins_lone(':', ':')
}

/// Lookahead for what may follow the fields of a struct.
pub struct BehindFields;

impl Lookahead for BehindFields {
    ghost look = { expressions.behind_fields };

    #[tactic(auto, unfolding(educe_grammar::specs::Ahead::sees_any))]
    fn is_next(cursor: &Cursor<'_>) -> bool {
        cursor.closes(Bracket::Curly) || cursor.begins_pair('.', '.')
    }
}

/// Lookahead for a prefix operator.
pub struct AtPrefix;

impl Lookahead for AtPrefix {
    ghost look = { expressions.at_prefix };

    #[tactic(auto, unfolding(educe_grammar::specs::Ahead::sees_any))]
    fn is_next(cursor: &Cursor<'_>) -> bool {
        cursor.sees(Terminal::PrefixSign) || cursor.sees(Terminal::Sign('&'))
    }
}

/// Lookahead for a postfix of an operand.
pub struct AtPostfix;

impl Lookahead for AtPostfix {
    ghost look = { expressions.at_postfix };

    #[tactic(auto, unfolding(educe_grammar::specs::Ahead::sees_any))]
    fn is_next(cursor: &Cursor<'_>) -> bool {
        cursor.opens(Bracket::Round)
            || cursor.opens(Bracket::Square)
            || cursor.begins_lone('.', '.')
    }
}

/// Lookahead for `as` or a binary operator.
pub struct AtLink;

impl Lookahead for AtLink {
    ghost look = { expressions.at_link };

    #[tactic(auto, unfolding(educe_grammar::specs::Ahead::sees_any))]
    fn is_next(cursor: &Cursor<'_>) -> bool {
        cursor.sees(Terminal::Word(Keyword::As))
            || cursor.sees(Terminal::Sign('+'))
            || cursor.sees(Terminal::Sign('-'))
            || cursor.sees(Terminal::Sign('*'))
            || cursor.sees(Terminal::Sign('/'))
            || cursor.sees(Terminal::Sign('%'))
            || cursor.sees(Terminal::Sign('^'))
            || cursor.sees(Terminal::Sign('&'))
            || cursor.sees(Terminal::Sign('|'))
            || cursor.sees(Terminal::Sign('<'))
            || cursor.sees(Terminal::Sign('>'))
            || cursor.begins_pair('=', '=')
            || cursor.begins_pair('!', '=')
    }
}
