//! The operands of an expression (Rust Reference, Expressions).
ghost use Rattle.std.specs.Prelude.{◌≡◌, ⊤};
ghost use Rattle.educe_grammar.specs.Ahead.{is_sign, start};
ghost use Rattle.educe_grammar.specs.Combining.{at, in_round, unit};
ghost use Rattle.educe_grammar.specs.Expressions as spec;
ghost use Rattle.educe_grammar.specs.NotedReads.{read};
ghost use Rattle.educe_grammar.specs.Rules.{exprs, part, made, checked, both, either};
ghost use Rattle.educe_grammar.specs.Steps.{Gives};
ghost use Rattle.educe_tokens.specs.Bracket.TheVariants.{Round};
ghost use Rattle.educe_tree.specs.declared.expr.ExprForm.TheVariants as form;

use crate::expr_paths::expr_path;
use crate::lookahead::{AtPostfix, AtPrefix};
use crate::tails::{fits_tail, path_tail, tail_form};
use educe_grammar::{
    ExprInside, Inside, Keyword, ParseError, ParseStream, Parts, Production, Terminal, chain,
    in_round, nested,
};
use educe_parser_paths::angle_args;
use educe_tokens::{Bracket, Token, TokenKind, pair, unit};
use educe_tree::ExprForm;
use std::alloc::Global;

/// Whether the token is `-`.
fn is_minus(token: &Token) -> bool
    ensures { result ≡ is_sign 45 token.now.kind }
{
    match token.kind {
        TokenKind::Punct(c, _) => c == '-',
        _ => false,
    }
}

/// A prefix, and whether it is `-` (Rust Reference, Borrow operators; Negation operators; The
/// dereference operator).
struct Prefix;

impl Production<Global> for Prefix {
    type Tree = bool;

    ghost ready = { λ _ _. ⊤ };

    ghost reads = { λ budget. read budget spec.prefix };

    #[tactic(auto, unfolding(educe_grammar::proofs::Opened::rules, educe_grammar::specs::Expressions::prefix))]
    fn parse(
        _alloc: &Global,
        input: &mut ParseStream<'_>,
        _budget: u8,
    ) -> Result<bool, ParseError> {
        if input.cursor.eat(Terminal::Sign('&')) {
            input.cursor.eat(Terminal::Word(Keyword::Mut));
            return Ok(false);
        }
        let token = input.cursor.expect(Terminal::PrefixSign)?;
        Ok(is_minus(token))
    }
}

/// The form of an operand behind one prefix.
fn negated_form(minus: bool, operand: ExprForm) -> ExprForm
    ensures { result ≡ spec.negated_form minus operand }
{
    match operand {
        ExprForm::Literal if minus => ExprForm::Negated,
        _ => ExprForm::Other,
    }
}

/// The form of an operand with its prefixes and postfixes.
fn unary_form(prefixes: &[bool], operand: ExprForm, postfixes: &[()]) -> ExprForm
    ensures { result ≡ spec.unary_form prefixes.now operand postfixes.now }
{
    match (prefixes, postfixes) {
        ([], []) => operand,
        ([minus], []) => negated_form(*minus, operand),
        _ => ExprForm::Other,
    }
}

/// Expressions in round brackets (Rust Reference, Call expressions).
#[tactic(auto, unfolding(educe_grammar::proofs::Opened::rules))]
fn round_exprs<R: Inside>(
    parts: &Parts<R>,
    input: &mut ParseStream<'_>,
    budget: u8,
) -> Result<(), ParseError>
    requires { R.nests parts.now.inside budget }
    ensures { Gives (read budget (unit (in_round (part exprs))) input.old) result input.new }
{
    unit(in_round::<Parts<R>, ExprInside>(parts, input, budget))
}

/// A field or a method behind `.` (Rust Reference, Field access expressions; Method-call
/// expressions).
#[tactic(auto, unfolding(educe_grammar::proofs::Opened::rules, educe_grammar::specs::Expressions::member))]
fn member<R: Inside>(
    parts: &Parts<R>,
    input: &mut ParseStream<'_>,
    budget: u8,
) -> Result<(), ParseError>
    requires { R.nests parts.now.inside budget }
    ensures { Gives (read budget spec.member input.old) result input.new }
{
    if !input.cursor.eat(Terminal::Name) {
        return unit(input.cursor.expect(Terminal::Int));
    }
    if !input.cursor.eat_pair(':', ':') {
        return Ok(());
    }
    unit(angle_args(parts, input, budget))
}

/// A postfix of an operand (Rust Reference, Call expressions; Array and slice indexing
/// expressions; Field access expressions).
struct Postfix;

impl<R: Inside> Production<Parts<R>> for Postfix {
    type Tree = ();

    ghost ready = { λ parts budget. R.nests parts.inside budget };

    ghost reads = { λ budget. read budget spec.postfix };

    #[tactic(auto, unfolding(educe_grammar::proofs::Opened::rules, educe_grammar::specs::Expressions::postfix))]
    fn parse(parts: &Parts<R>, input: &mut ParseStream<'_>, budget: u8) -> Result<(), ParseError> {
        if input.cursor.opens(Bracket::Round) {
            return round_exprs(parts, input, budget);
        }
        if input.cursor.opens(Bracket::Square) {
            return unit(nested::<Parts<R>, ExprInside>(parts, input, budget, Bracket::Square));
        }
        input.cursor.skip_lone('.', '.')?;
        member(parts, input, budget)
    }
}

/// A path, and what stands behind it where it names a macro or a struct (Rust Reference, Path
/// expressions).
#[tactic(auto, unfolding(educe_grammar::proofs::Opened::rules))]
fn path_operand<R: Inside>(
    parts: &Parts<R>,
    input: &mut ParseStream<'_>,
    budget: u8,
) -> Result<ExprForm, ParseError>
    requires { R.nests parts.now.inside budget }
    ensures { Gives (read budget (made (λ p. spec.tail_form p.1)
        (checked spec.fits_tail (both spec.expr_path spec.path_tail))) input.old) result input.new }
{
    let path = expr_path(parts, input, budget)?;
    let (path, tail) = pair(path, path_tail(parts, input, budget))?;
    let fits = fits_tail(&path, tail);
    drop(path);
    if !fits {
        return Err(input.cursor.refuse());
    }
    Ok(tail_form(tail))
}

/// An operand in parentheses, or a path (Rust Reference, Grouped expressions; Tuple expressions; Path
/// expressions).
#[tactic(auto, unfolding(educe_grammar::proofs::Opened::rules))]
fn group_or_path<R: Inside>(
    parts: &Parts<R>,
    input: &mut ParseStream<'_>,
    budget: u8,
) -> Result<ExprForm, ParseError>
    requires { R.nests parts.now.inside budget }
    ensures { Gives (read budget (either (at (start Round)) (made (λ _. form.Other) (in_round (part exprs)))
        (made (λ p. spec.tail_form p.1) (checked spec.fits_tail (both spec.expr_path spec.path_tail)))) input.old)
        result input.new }
{
    if input.cursor.opens(Bracket::Round) {
        round_exprs(parts, input, budget)?;
        return Ok(ExprForm::Other);
    }
    path_operand(parts, input, budget)
}

/// An operand with no prefix and no postfix (Rust Reference, Literal expressions; Path
/// expressions; Grouped expressions; Tuple expressions).
#[tactic(auto, unfolding(educe_grammar::proofs::Opened::rules, educe_grammar::specs::Expressions::primary))]
fn primary<R: Inside>(
    parts: &Parts<R>,
    input: &mut ParseStream<'_>,
    budget: u8,
) -> Result<ExprForm, ParseError>
    requires { R.nests parts.now.inside budget }
    ensures { Gives (read budget spec.primary input.old) result input.new }
{
    if input.cursor.eat(Terminal::Literal) {
        return Ok(ExprForm::Literal);
    }
    if input.cursor.eat(Terminal::Truth) {
        return Ok(ExprForm::Truth);
    }
    group_or_path(parts, input, budget)
}

/// An operand with its prefixes and postfixes (Rust Reference, Operator expressions).
#[tactic(auto, unfolding(educe_grammar::proofs::Opened::rules, educe_grammar::specs::Expressions::unary))]
pub fn unary<R: Inside>(
    parts: &Parts<R>,
    input: &mut ParseStream<'_>,
    budget: u8,
) -> Result<ExprForm, ParseError>
    requires { R.nests parts.now.inside budget }
    ensures { Gives (read budget spec.unary input.old) result input.new }
{
    let prefixes = chain::<Global, Prefix, AtPrefix>(&parts.alloc, input, budget)?;
    let operand = primary(parts, input, budget)?;
    let postfixes = chain::<Parts<R>, Postfix, AtPostfix>(parts, input, budget)?;
    Ok(unary_form(prefixes.as_slice(), operand, postfixes.as_slice()))
}
