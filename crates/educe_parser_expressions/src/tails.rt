//! What follows a path in an expression: the fields of a struct, or the input of a macro call (Rust
//! Reference, Struct expressions; Macro invocation).
ghost use Rattle.std.specs.Prelude.{◌≡◌, ◌+◌};
ghost use Rattle.educe_grammar.specs.Expressions as spec;
ghost use Rattle.educe_grammar.specs.NotedReads.{read};
ghost use Rattle.educe_grammar.specs.Steps.{Gives};

use crate::expr_paths::is_mod_path;
use crate::lookahead::{BehindFields, at_value};
use educe_grammar::{
    Cursor, Inside, ParseError, ParseStream, Parts, Production, Tail, Terminal, list, nested,
};
use educe_parser_paths::group;
use educe_tokens::{Bracket, TokenSlice, unit};
use educe_tree::{ExprForm, ExprPath};
use std::alloc::Global;

/// Whether the tail may follow the path: the path of a macro has no arguments (Rust Reference,
/// Macro invocation).
pub fn fits_tail(path: &ExprPath, tail: Tail) -> bool
    ensures { result ≡ spec.fits_tail (path.now, tail) }
{
    match tail {
        Tail::Nothing | Tail::Fields => true,
        Tail::Call => is_mod_path(path),
    }
}

/// The form of an expression that is a path with this tail.
pub fn tail_form(tail: Tail) -> ExprForm
    ensures { result ≡ spec.tail_form tail }
{
    match tail {
        Tail::Nothing => ExprForm::Path,
        Tail::Fields | Tail::Call => ExprForm::Other,
    }
}

/// Whether each `self` is followed by `::`.
#[tactic(auto, unfolding(educe_grammar::specs::Expressions::self_begins_paths))]
fn self_begins_paths(group: &TokenSlice) -> bool
    ensures { result ≡ spec.self_begins_paths group.now }
{
    let cursor = Cursor::new(group);
    let tokens = group.as_slice();
    for index in 0..tokens.len() {
        let is_self = tokens[index].spelling.spells("self");
        if is_self && !cursor.behind(index + 1).begins_pair(':', ':') {
            return false;
        }
    }
    true
}

/// Parses the input of a macro call (Rust Reference, Macro invocation).
#[tactic(auto, unfolding(educe_grammar::proofs::Opened::rules, educe_grammar::specs::Expressions::macro_group))]
fn macro_group(alloc: Global, input: &mut ParseStream<'_>, budget: u8) -> Result<(), ParseError>
    ensures { Gives (read budget spec.macro_group input.old) result input.new }
{
    let start = input.cursor.mark();
    group(alloc, input, budget)?;
    let tokens = input.cursor.since(&start)?;
    if !self_begins_paths(&tokens) {
        return Err(input.cursor.refuse());
    }
    Ok(())
}

/// The value of a field, or its name alone (Rust Reference, Field struct expression).
struct FieldInit;

impl<R: Inside> Production<Parts<R>> for FieldInit {
    type Tree = ();

    ghost ready = { λ parts budget. R.nests parts.inside (budget + 1) };

    ghost reads = { λ budget. read budget spec.init };

    #[tactic(auto, unfolding(educe_grammar::proofs::Opened::rules, educe_grammar::specs::Expressions::init))]
    fn parse(parts: &Parts<R>, input: &mut ParseStream<'_>, budget: u8) -> Result<(), ParseError> {
        if !at_value(&input.cursor) {
            return unit(input.cursor.expect(Terminal::Name));
        }
        input.cursor.expect(Terminal::NameOrIndex)?;
        input.cursor.skip_lone(':', ':')?;
        unit(parts.expr(input, budget))
    }
}

/// The fields of a struct, and what the others are taken from (Rust Reference, Functional update
/// syntax).
struct FieldInits;

impl<R: Inside> Production<Parts<R>> for FieldInits {
    type Tree = ();

    ghost ready = { λ parts budget. R.nests parts.inside (budget + 1) };

    ghost reads = { λ budget. read budget spec.inits };

    #[tactic(auto, unfolding(educe_grammar::proofs::Opened::rules, educe_grammar::specs::Expressions::inits))]
    fn parse(parts: &Parts<R>, input: &mut ParseStream<'_>, budget: u8) -> Result<(), ParseError> {
        let comma = Terminal::Sign(',');
        unit(list::<Parts<R>, FieldInit, BehindFields>(parts, input, budget, comma))?;
        if !input.cursor.eat_pair('.', '.') {
            return Ok(());
        }
        unit(parts.expr(input, budget))
    }
}

/// Nothing, the fields of a struct, or the call of a macro (Rust Reference, Struct expressions;
/// Macro invocation).
#[tactic(auto, unfolding(educe_grammar::proofs::Opened::rules, educe_grammar::specs::Expressions::path_tail))]
pub fn path_tail<R: Inside>(
    parts: &Parts<R>,
    input: &mut ParseStream<'_>,
    budget: u8,
) -> Result<Tail, ParseError>
    requires { R.nests parts.now.inside budget }
    ensures { Gives (read budget spec.path_tail input.old) result input.new }
{
    if input.cursor.opens(Bracket::Curly) {
        nested::<Parts<R>, FieldInits>(parts, input, budget, Bracket::Curly)?;
        return Ok(Tail::Fields);
    }
    if !input.cursor.eat_lone('!', '=') {
        return Ok(Tail::Nothing);
    }
    macro_group(parts.alloc, input, budget)?;
    Ok(Tail::Call)
}
