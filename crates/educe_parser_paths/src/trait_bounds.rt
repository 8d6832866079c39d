//! Bounds (Rust Reference, Trait and lifetime bounds).
ghost use Rattle.std.specs.Prelude.{◌≡◌, ℕ, IfOk, ⊤};
ghost use Rattle.educe_grammar.specs.Combining.{flag, sign, at_sign, at_word};
ghost use Rattle.educe_grammar.specs.declared.terminal.Keyword.TheVariants as keyword;
ghost use Rattle.educe_grammar.specs.Names as names;
ghost use Rattle.educe_grammar.specs.NotedReads.{read};
ghost use Rattle.educe_grammar.specs.Steps.{Gives};
ghost use Rattle.educe_grammar.specs.Types as spec;

use crate::lookahead::BehindType;
use crate::names::lifetime;
use crate::paths::type_path;
use educe_grammar::{
    Ending, Inside, Keyword, ParseError, ParseStream, Parts, Production, Terminal, in_angles, list,
    nested,
};
use educe_tokens::{Bracket, Seq, unit};
use educe_tree::{Lifetime, Path, Paths};
use std::alloc::{AllocError, Global};

/// The path of a bound, unless it is a lifetime, and the ending of the bound.
pub type BoundRead = (Option<Path>, Ending);

/// A bound of a lifetime (Rust Reference, Lifetime bounds).
struct LifetimeBound;

impl Production<Global> for LifetimeBound {
    type Tree = Lifetime;

    ghost ready = { λ _ _. ⊤ };

    ghost reads = { λ budget. read budget names.lifetime };

    fn parse(
        alloc: &Global,
        input: &mut ParseStream<'_>,
        _budget: u8,
    ) -> Result<Lifetime, ParseError> {
        lifetime(*alloc, input)
    }
}

/// Lifetimes with `+` between (Rust Reference, Lifetime bounds).
#[tactic(auto, unfolding(educe_grammar::proofs::Opened::rules, educe_grammar::specs::Types::lifetime_bounds))]
pub fn lifetime_bounds(
    alloc: Global,
    input: &mut ParseStream<'_>,
    budget: u8,
) -> Result<(), ParseError>
    ensures { Gives (read budget spec.lifetime_bounds input.old) result input.new }
{
    let plus = Terminal::Sign('+');
    unit(list::<Global, LifetimeBound, BehindType>(&alloc, input, budget, plus))
}

/// A lifetime with its bounds, in `for<'a>` (Rust Reference, Higher-ranked trait bounds).
struct ForLifetime;

impl Production<Global> for ForLifetime {
    type Tree = ();

    ghost ready = { λ _ _. ⊤ };

    ghost reads = { λ budget. read budget spec.for_lifetime };

    #[tactic(auto, unfolding(educe_grammar::proofs::Opened::rules, educe_grammar::specs::Types::for_lifetime))]
    fn parse(alloc: &Global, input: &mut ParseStream<'_>, budget: u8) -> Result<(), ParseError> {
        lifetime(*alloc, input)?;
        if !input.cursor.eat_lone(':', ':') {
            return Ok(());
        }
        lifetime_bounds(*alloc, input, budget)
    }
}

/// `for<'a>` (Rust Reference, Higher-ranked trait bounds).
#[tactic(auto, unfolding(educe_grammar::proofs::Opened::rules, educe_grammar::specs::Types::for_all))]
pub fn for_all(alloc: Global, input: &mut ParseStream<'_>, budget: u8) -> Result<(), ParseError>
    ensures { Gives (read budget spec.for_all input.old) result input.new }
{
    unit(input.cursor.expect(Terminal::Word(Keyword::For)))?;
    unit(in_angles::<Global, ForLifetime>(&alloc, input, budget))
}

/// `for<'a>`, where it comes next.
#[tactic(auto, unfolding(educe_grammar::proofs::Opened::rules))]
pub fn optional_for_all(
    alloc: Global,
    input: &mut ParseStream<'_>,
    budget: u8,
) -> Result<bool, ParseError>
    ensures { Gives (read budget (flag (at_word keyword.For) spec.for_all) input.old) result input.new }
{
    if !input.cursor.sees(Terminal::Word(Keyword::For)) {
        return Ok(false);
    }
    for_all(alloc, input, budget)?;
    Ok(true)
}

/// The paths of the bounds; lifetimes are left out.
pub fn bound_paths(alloc: Global, found: Seq<BoundRead>) -> Result<Paths, AllocError>
    ensures { IfOk result (λ paths. paths ≡ spec.bound_paths found) }
{
    let mut paths = Seq::new(alloc);
    for (path, _) in found.into_items() {
        if let Some(path) = path {
            paths.push(path)?;
        }
    }
    Ok(paths)
}

/// `?`, if it comes next (Rust Reference, Trait and lifetime bounds).
#[tactic(auto, unfolding(educe_grammar::proofs::Opened::rules))]
fn skip_question(input: &mut ParseStream<'_>) -> bool
    ensures { (budget : ℕ) → read budget (flag (at_sign 63) (sign 63)) input.old ≡ Ok (result, input.new) }
{
    input.cursor.eat(Terminal::Sign('?'))
}

/// `?`, `for<'a>` and a path (Rust Reference, Trait and lifetime bounds).
struct BoundPath;

impl<R: Inside> Production<Parts<R>> for BoundPath {
    type Tree = (Path, Ending);

    ghost ready = { λ parts budget. R.nests parts.inside budget };

    ghost reads = { λ budget. read budget spec.bound_path };

    #[tactic(auto, unfolding(educe_grammar::proofs::Opened::rules, educe_grammar::specs::Types::bound_path))]
    fn parse(
        parts: &Parts<R>,
        input: &mut ParseStream<'_>,
        budget: u8,
    ) -> Result<(Path, Ending), ParseError> {
        skip_question(input);
        optional_for_all(parts.alloc, input, budget)?;
        type_path(parts, input, budget)
    }
}

/// The production of a bound (Rust Reference, Trait and lifetime bounds).
pub struct Bound;

impl<R: Inside> Production<Parts<R>> for Bound {
    type Tree = BoundRead;

    ghost ready = { λ parts budget. R.nests parts.inside budget };

    ghost reads = { λ budget. read budget spec.bound };

    #[tactic(auto, unfolding(educe_grammar::proofs::Opened::rules, educe_grammar::specs::Types::bound, educe_grammar::specs::Names::lifetime))]
    fn parse(
        parts: &Parts<R>,
        input: &mut ParseStream<'_>,
        budget: u8,
    ) -> Result<BoundRead, ParseError> {
        if input.cursor.eat(Terminal::Lifetime) {
            return Ok((None, Ending::Closed));
        }
        if input.cursor.opens(Bracket::Round) {
            let (path, _) = nested::<Parts<R>, BoundPath>(parts, input, budget, Bracket::Round)?;
            return Ok((Some(path), Ending::Closed));
        }
        let (path, ending) = BoundPath::parse(parts, input, budget)?;
        Ok((Some(path), ending))
    }
}

/// Bounds with `+` between, or nothing (Rust Reference, Trait and lifetime bounds).
#[tactic(auto, unfolding(educe_grammar::proofs::Opened::rules, educe_grammar::specs::Types::bounds))]
pub fn bounds<R: Inside>(
    parts: &Parts<R>,
    input: &mut ParseStream<'_>,
    budget: u8,
) -> Result<Seq<BoundRead>, ParseError>
    requires { R.nests parts.now.inside budget }
    ensures { Gives (read budget spec.bounds input.old) result input.new }
{
    list::<Parts<R>, Bound, BehindType>(parts, input, budget, Terminal::Sign('+'))
}
