//! Brackets around an item or a comma-separated list, and items that follow a token.
ghost use Rattle.std.specs.Prelude.{◌≡◌, ◌+◌, ◌-◌, ℕ};
ghost use Rattle.educe_tokens.specs.Bracket.TheVariants as bracket;
ghost use Rattle.educe_grammar.specs.Ahead.{sees_any, stop};
ghost use Rattle.educe_grammar.specs.Bracketed as spec;
ghost use Rattle.educe_grammar.specs.Bracketed.{comma_items};
ghost use Rattle.educe_grammar.specs.Combining.{at, at_sign};
ghost use Rattle.educe_grammar.specs.Steps.{Gives};

use crate::cursor::Cursor;
use crate::loops::list;
use crate::parse_error::ParseError;
use crate::parse_stream::ParseStream;
use crate::production::{Context, Lookahead, Production};
use crate::terminal::Terminal;
use educe_tokens::{Bracket, Seq, terminated};

/// Lookahead for the end of round brackets.
pub struct RoundEnd;

impl Lookahead for RoundEnd {
    ghost look = { at (stop bracket.Round) };

    #[tactic(auto, unfolding(crate::specs::Ahead::sees_any))]
    fn is_next(cursor: &Cursor<'_>) -> bool {
        cursor.closes(Bracket::Round)
    }
}

/// Lookahead for the end of curly brackets.
pub struct CurlyEnd;

impl Lookahead for CurlyEnd {
    ghost look = { at (stop bracket.Curly) };

    #[tactic(auto, unfolding(crate::specs::Ahead::sees_any))]
    fn is_next(cursor: &Cursor<'_>) -> bool {
        cursor.closes(Bracket::Curly)
    }
}

/// Lookahead for the end of angle brackets.
pub struct AngleEnd;

impl Lookahead for AngleEnd {
    ghost look = { at_sign 62 };

    #[tactic(auto, unfolding(crate::specs::Ahead::sees_any))]
    fn is_next(cursor: &Cursor<'_>) -> bool {
        cursor.sees(Terminal::Sign('>'))
    }
}

/// Parses an item in brackets.
pub fn nested<C, P: Production<C>>(
    context: &C,
    input: &mut ParseStream<'_>,
    budget: u8,
    bracket: Bracket,
) -> Result<P::Tree, ParseError>
    requires { (below : ℕ) → below + 1 ≡ budget → P.ready context.now below }
    ensures { Gives (spec.nested bracket budget (P.reads (budget - 1)) input.old) result input.new }
{
    let below = input.cursor.open(budget, bracket)?;
    let found = P::parse(context, input, below)?;
    terminated(found, input.cursor.expect_close(bracket))
}

/// Parses an item in angle brackets.
pub fn angled<C, P: Production<C>>(
    context: &C,
    input: &mut ParseStream<'_>,
    budget: u8,
) -> Result<P::Tree, ParseError>
    requires { (below : ℕ) → below + 1 ≡ budget → P.ready context.now below }
    ensures { Gives (spec.angled budget (P.reads (budget - 1)) input.old) result input.new }
{
    let below = input.cursor.open_angle(budget)?;
    let found = P::parse(context, input, below)?;
    terminated(found, input.cursor.expect(Terminal::Sign('>')))
}

/// Parses comma-separated items in brackets, up to what the lookahead accepts.
fn in_brackets<C: Context, P: Production<C>, S: Lookahead>(
    context: &C,
    input: &mut ParseStream<'_>,
    budget: u8,
    bracket: Bracket,
) -> Result<Seq<P::Tree>, ParseError>
    requires { (below : ℕ) → below + 1 ≡ budget → P.ready context.now below }
    ensures { Gives (spec.nested bracket budget (comma_items S.look (P.reads (budget - 1))) input.old) result input.new }
{
    let below = input.cursor.open(budget, bracket)?;
    let found = list::<C, P, S>(context, input, below, Terminal::Sign(','))?;
    terminated(found, input.cursor.expect_close(bracket))
}

/// Parses comma-separated items in round brackets, with an optional trailing comma.
pub fn in_round<C: Context, P: Production<C>>(
    context: &C,
    input: &mut ParseStream<'_>,
    budget: u8,
) -> Result<Seq<P::Tree>, ParseError>
    requires { (below : ℕ) → below + 1 ≡ budget → P.ready context.now below }
    ensures { Gives (spec.nested bracket.Round budget
        (comma_items (at (stop bracket.Round)) (P.reads (budget - 1))) input.old) result input.new }
{
    in_brackets::<C, P, RoundEnd>(context, input, budget, Bracket::Round)
}

/// Parses comma-separated items in curly brackets, with an optional trailing comma.
pub fn in_curly<C: Context, P: Production<C>>(
    context: &C,
    input: &mut ParseStream<'_>,
    budget: u8,
) -> Result<Seq<P::Tree>, ParseError>
    requires { (below : ℕ) → below + 1 ≡ budget → P.ready context.now below }
    ensures { Gives (spec.nested bracket.Curly budget
        (comma_items (at (stop bracket.Curly)) (P.reads (budget - 1))) input.old) result input.new }
{
    in_brackets::<C, P, CurlyEnd>(context, input, budget, Bracket::Curly)
}

/// Parses comma-separated items in angle brackets, with an optional trailing comma.
pub fn in_angles<C: Context, P: Production<C>>(
    context: &C,
    input: &mut ParseStream<'_>,
    budget: u8,
) -> Result<Seq<P::Tree>, ParseError>
    requires { (below : ℕ) → below + 1 ≡ budget → P.ready context.now below }
    ensures { Gives (spec.angled budget (comma_items (at_sign 62) (P.reads (budget - 1))) input.old) result input.new }
{
    let below = input.cursor.open_angle(budget)?;
    let found = list::<C, P, AngleEnd>(context, input, below, Terminal::Sign(','))?;
    terminated(found, input.cursor.expect(Terminal::Sign('>')))
}

/// Parses a token of the terminal and the item after it, or nothing where no such token comes next.
#[tactic(auto, unfolding(crate::specs::Ahead::sees_any))]
pub fn optional_behind<C, P: Production<C>>(
    context: &C,
    input: &mut ParseStream<'_>,
    budget: u8,
    asked: Terminal,
) -> Result<Option<P::Tree>, ParseError>
    requires { P.ready context.now budget }
    ensures { Gives (spec.optional_behind asked (P.reads budget) input.old) result input.new }
{
    if !input.cursor.eat(asked) {
        return Ok(None);
    }
    Ok(Some(P::parse(context, input, budget)?))
}
