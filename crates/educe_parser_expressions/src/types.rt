//! Types (Rust Reference, Types).
ghost use Rattle.std.specs.Prelude.{◌≡◌, ℕ, ◌+◌, [], IfOk};
ghost use Rattle.educe_tree.specs.declared.ty.TypeForm.TheVariants as form;
ghost use Rattle.educe_grammar.specs.declared.ending.Ending.TheVariants.{Closed};
ghost use Rattle.educe_tokens.specs.Bracket.TheVariants.{Round};
ghost use Rattle.educe_grammar.specs.Ahead.{one, stop};
ghost use Rattle.educe_grammar.specs.Combining.{optional, skipping, flag, commas, sign, word, at, at_angle, at_sign, at_word};
ghost use Rattle.educe_grammar.specs.Names.{lifetime};
ghost use Rattle.educe_grammar.specs.NotedReads.{read};
ghost use Rattle.educe_grammar.specs.Rules.{types, plains, exprs, token, empty, both, either, made, part};
ghost use Rattle.educe_grammar.specs.Steps.{Gives};
ghost use Rattle.educe_grammar.specs.Types as spec;
ghost use Rattle.educe_grammar.specs.declared.terminal.Keyword.TheVariants as keyword;
ghost use Rattle.educe_grammar.specs.declared.terminal.Terminal.TheVariants as terminal;

use crate::lookahead::{at_fn, at_fn_param};
use educe_grammar::{
    Ending, ExprInside, Inside, Keyword, ParseError, ParseStream, Parts, Production, RoundEnd,
    Terminal, TypeInside, Typed, in_round, list, nested, optional_behind, written,
};
use educe_parser_paths::{
    Bound, BoundRead, bound_paths, bounds, optional_for_all, output, qualified, skip_lifetime,
    type_path,
};
use educe_tokens::{Boxed, Bracket, Seq, pair};
use educe_tree::{Expr, Ty, TypeForm, Types};
use std::alloc::{AllocError, Global};

/// The form of a type with its ending.
type FormRead = (TypeForm, Ending);

/// A parenthesis, or a tuple with these types behind the first.
fn round_of(alloc: Global, first: Ty, more: Option<Types>) -> Result<FormRead, AllocError>
    ensures { IfOk result (λ read. read ≡ spec.round_of (first, more)) }
{
    let Some(more) = more else {
        return Ok((TypeForm::Paren(Boxed::new(alloc, first)?), Ending::Closed));
    };
    let mut all = Seq::new(alloc);
    all.push(first)?;
    all.append(more)?;
    Ok((TypeForm::Tuple(all), Ending::Closed))
}

/// A function pointer with these parameters.
fn fn_of(alloc: Global, params: Types, output: Option<Typed>) -> Result<FormRead, AllocError>
    ensures { IfOk result (λ read. read ≡ spec.fn_of (params, output)) }
{
    match output {
        None => Ok((TypeForm::FnPtr(params, None), Ending::Closed)),
        Some((output, ending)) => {
            let output = Boxed::new(alloc, output)?;
            Ok((TypeForm::FnPtr(params, Some(output)), ending))
        }
    }
}

/// `unsafe`, if it comes next (Rust Reference, Function pointer types).
#[tactic(auto, unfolding(educe_grammar::proofs::Opened::rules))]
fn skip_unsafe(input: &mut ParseStream<'_>) -> bool
    ensures { (budget : ℕ) → read budget (flag (at_word keyword.Unsafe) (word keyword.Unsafe)) input.old ≡ Ok (result, input.new) }
{
    input.cursor.eat(Terminal::Word(Keyword::Unsafe))
}

/// `extern "C"`, if it comes next (Rust Reference, Function pointer types).
#[tactic(auto, unfolding(educe_grammar::proofs::Opened::rules))]
fn skip_abi(input: &mut ParseStream<'_>) -> bool
    ensures { (budget : ℕ) → read budget (flag (at_word keyword.Extern)
        (both (word keyword.Extern) (flag (at (one terminal.Str)) (token terminal.Str)))) input.old ≡ Ok
        (result, input.new) }
{
    if !input.cursor.eat(Terminal::Word(Keyword::Extern)) {
        return false;
    }
    input.cursor.eat(Terminal::Str);
    true
}

/// What stands before `fn` (Rust Reference, Function pointer types).
#[tactic(auto, unfolding(educe_grammar::proofs::Opened::rules, educe_grammar::specs::Types::fn_qualifiers))]
fn fn_qualifiers(alloc: Global, input: &mut ParseStream<'_>, budget: u8) -> Result<(), ParseError>
    ensures { Gives (read budget spec.fn_qualifiers input.old) result input.new }
{
    optional_for_all(alloc, input, budget)?;
    skip_unsafe(input);
    skip_abi(input);
    Ok(())
}

/// Types up to the end of round brackets (Rust Reference, Tuple types).
struct CommaTypes;

impl<R: Inside> Production<Parts<R>> for CommaTypes {
    type Tree = Types;

    ghost ready = { λ parts budget. R.nests parts.inside (budget + 1) };

    ghost reads = { λ budget. read budget (commas (at (stop Round)) (part types)) };

    #[tactic(auto, unfolding(educe_grammar::proofs::Opened::rules))]
    fn parse(
        parts: &Parts<R>,
        input: &mut ParseStream<'_>,
        budget: u8,
    ) -> Result<Types, ParseError> {
        list::<Parts<R>, TypeInside, RoundEnd>(parts, input, budget, Terminal::Sign(','))
    }
}

/// A type, and those behind a comma (Rust Reference, Tuple types).
#[tactic(auto, unfolding(educe_grammar::proofs::Opened::rules))]
fn some_types<R: Inside>(
    parts: &Parts<R>,
    input: &mut ParseStream<'_>,
    budget: u8,
) -> Result<(Ty, Option<Types>), ParseError>
    requires { R.nests parts.now.inside (budget + 1) }
    ensures { Gives (read budget (both (part types)
        (optional (at_sign 44) (skipping (sign 44) (commas (at (stop Round)) (part types))))) input.old) result
        input.new }
{
    let first = parts.ty(input, budget)?;
    let comma = Terminal::Sign(',');
    pair(
        first,
        optional_behind::<Parts<R>, CommaTypes>(parts, input, budget, comma),
    )
}

/// What stands in the brackets of a parenthesis or a tuple (Rust Reference, Parenthesized types;
/// Tuple types).
struct RoundInside;

impl<R: Inside> Production<Parts<R>> for RoundInside {
    type Tree = FormRead;

    ghost ready = { λ parts budget. R.nests parts.inside (budget + 1) };

    ghost reads = { λ budget. read budget (either (at (stop Round)) (empty (form.Tuple [], Closed))
        (made spec.round_of (both (part types) (optional (at_sign 44) (skipping (sign 44) (commas (at (stop Round)) (part types))))))) };

    #[tactic(auto, unfolding(educe_grammar::proofs::Opened::rules))]
    fn parse(
        parts: &Parts<R>,
        input: &mut ParseStream<'_>,
        budget: u8,
    ) -> Result<FormRead, ParseError> {
        if input.cursor.closes(Bracket::Round) {
            return Ok((TypeForm::Tuple(Seq::new(parts.alloc)), Ending::Closed));
        }
        let (first, more) = some_types(parts, input, budget)?;
        Ok(round_of(parts.alloc, first, more)?)
    }
}

/// A parenthesis or a tuple (Rust Reference, Parenthesized types; Tuple types).
#[tactic(auto, unfolding(educe_grammar::proofs::Opened::rules, educe_grammar::specs::Types::round_form))]
fn round_form<R: Inside>(
    parts: &Parts<R>,
    input: &mut ParseStream<'_>,
    budget: u8,
) -> Result<FormRead, ParseError>
    requires { R.nests parts.now.inside budget }
    ensures { Gives (read budget spec.round_form input.old) result input.new }
{
    nested::<Parts<R>, RoundInside>(parts, input, budget, Bracket::Round)
}

/// The lifetime, the `mut` and the type of a reference (Rust Reference, Pointer types).
#[tactic(auto, unfolding(educe_grammar::proofs::Opened::rules))]
fn referred<R: Inside>(
    parts: &Parts<R>,
    input: &mut ParseStream<'_>,
    budget: u8,
) -> Result<(bool, Typed), ParseError>
    requires { R.nests parts.now.inside (budget + 1) }
    ensures { Gives (read budget (skipping (flag (at (one terminal.Lifetime)) lifetime)
        (both (flag (at_word keyword.Mut) (word keyword.Mut)) (part plains))) input.old) result input.new }
{
    skip_lifetime(input);
    let mutable = input.cursor.eat(Terminal::Word(Keyword::Mut));
    pair(mutable, parts.plain(input, budget))
}

/// `&'a mut` and a type (Rust Reference, Pointer types).
#[tactic(auto, unfolding(educe_grammar::proofs::Opened::rules, educe_grammar::specs::Types::reference))]
fn reference<R: Inside>(
    parts: &Parts<R>,
    input: &mut ParseStream<'_>,
    budget: u8,
) -> Result<FormRead, ParseError>
    requires { R.nests parts.now.inside budget }
    ensures { Gives (read budget spec.reference input.old) result input.new }
{
    let below = input.cursor.open_under(budget, Terminal::Sign('&'))?;
    let (mutable, (target, ending)) = referred(parts, input, below)?;
    let target = Boxed::new(parts.alloc, target)?;
    Ok((TypeForm::Reference(mutable, target), ending))
}

/// `*const` or `*mut` and a type (Rust Reference, Pointer types).
#[tactic(auto, unfolding(educe_grammar::proofs::Opened::rules, educe_grammar::specs::Types::pointer))]
fn pointer<R: Inside>(
    parts: &Parts<R>,
    input: &mut ParseStream<'_>,
    budget: u8,
) -> Result<FormRead, ParseError>
    requires { R.nests parts.now.inside budget }
    ensures { Gives (read budget spec.pointer input.old) result input.new }
{
    let below = input.cursor.open_under(budget, Terminal::Sign('*'))?;
    input.cursor.expect(Terminal::PointerWord)?;
    let (target, ending) = parts.plain(input, below)?;
    Ok((TypeForm::Pointer(Boxed::new(parts.alloc, target)?), ending))
}

/// A slice, or an array of this length.
fn square_of(alloc: Global, item: Ty, length: Option<Expr>) -> Result<FormRead, AllocError>
    ensures { IfOk result (λ read. read ≡ spec.square_of (item, length)) }
{
    let item = Boxed::new(alloc, item);
    match length {
        None => Ok((TypeForm::Slice(item?), Ending::Closed)),
        Some(length) => Ok((TypeForm::Array(item?, length.written), Ending::Closed)),
    }
}

/// What stands in the brackets of a slice or an array (Rust Reference, Slice types; Array types).
struct SquareInside;

impl<R: Inside> Production<Parts<R>> for SquareInside {
    type Tree = (Ty, Option<Expr>);

    ghost ready = { λ parts budget. R.nests parts.inside (budget + 1) };

    ghost reads = { λ budget. read budget (both (part types) (optional (at_sign 59) (skipping (sign 59) (part exprs)))) };

    #[tactic(auto, unfolding(educe_grammar::proofs::Opened::rules))]
    fn parse(
        parts: &Parts<R>,
        input: &mut ParseStream<'_>,
        budget: u8,
    ) -> Result<(Ty, Option<Expr>), ParseError> {
        let item = parts.ty(input, budget)?;
        let semicolon = Terminal::Sign(';');
        pair(
            item,
            optional_behind::<Parts<R>, ExprInside>(parts, input, budget, semicolon),
        )
    }
}

/// A slice or an array (Rust Reference, Slice types; Array types).
#[tactic(auto, unfolding(educe_grammar::proofs::Opened::rules, educe_grammar::specs::Types::square_form))]
fn square_form<R: Inside>(
    parts: &Parts<R>,
    input: &mut ParseStream<'_>,
    budget: u8,
) -> Result<FormRead, ParseError>
    requires { R.nests parts.now.inside budget }
    ensures { Gives (read budget spec.square_form input.old) result input.new }
{
    let (item, length) = nested::<Parts<R>, SquareInside>(parts, input, budget, Bracket::Square)?;
    Ok(square_of(parts.alloc, item, length)?)
}

/// A parameter of a function pointer (Rust Reference, Function pointer types).
struct FnParam;

impl<R: Inside> Production<Parts<R>> for FnParam {
    type Tree = Ty;

    ghost ready = { λ parts budget. R.nests parts.inside (budget + 1) };

    ghost reads = { λ budget. read budget spec.fn_param };

    #[tactic(auto, unfolding(educe_grammar::proofs::Opened::rules, educe_grammar::specs::Types::fn_param))]
    fn parse(parts: &Parts<R>, input: &mut ParseStream<'_>, budget: u8) -> Result<Ty, ParseError> {
        if at_fn_param(&input.cursor) {
            input.cursor.expect(Terminal::NameOrUnderscore)?;
            input.cursor.skip_lone(':', ':')?;
        }
        parts.ty(input, budget)
    }
}

/// A function pointer (Rust Reference, Function pointer types).
#[tactic(auto, unfolding(educe_grammar::proofs::Opened::rules, educe_grammar::specs::Types::fn_pointer))]
fn fn_pointer<R: Inside>(
    parts: &Parts<R>,
    input: &mut ParseStream<'_>,
    budget: u8,
) -> Result<FormRead, ParseError>
    requires { R.nests parts.now.inside budget }
    ensures { Gives (read budget spec.fn_pointer input.old) result input.new }
{
    fn_qualifiers(parts.alloc, input, budget)?;
    input.cursor.expect(Terminal::Word(Keyword::Fn))?;
    let params = in_round::<Parts<R>, FnParam>(parts, input, budget)?;
    let (params, output) = pair(params, output(parts, input, budget))?;
    Ok(fn_of(parts.alloc, params, output)?)
}

/// A path, which may stand behind its type, or a function pointer (Rust Reference, Paths in types;
/// Qualified paths; Function pointer types).
#[tactic(auto, unfolding(educe_grammar::proofs::Opened::rules))]
fn named_form<R: Inside>(
    parts: &Parts<R>,
    input: &mut ParseStream<'_>,
    budget: u8,
) -> Result<FormRead, ParseError>
    requires { R.nests parts.now.inside budget }
    ensures { Gives (read budget (either at_angle spec.qualified
        (either spec.at_fn spec.fn_pointer (made spec.path_form spec.type_path))) input.old) result input.new }
{
    if input.cursor.begins_lone('<', '=') {
        return qualified(parts, input, budget);
    }
    if at_fn(&input.cursor) {
        return fn_pointer(parts, input, budget);
    }
    let (path, ending) = type_path(parts, input, budget)?;
    Ok((TypeForm::Path(None, path), ending))
}

/// The form of a type that is not `dyn` (Rust Reference, Type expressions).
#[tactic(auto, unfolding(educe_grammar::proofs::Opened::rules, educe_grammar::specs::Types::plain_form))]
fn plain_form<R: Inside>(
    parts: &Parts<R>,
    input: &mut ParseStream<'_>,
    budget: u8,
) -> Result<FormRead, ParseError>
    requires { R.nests parts.now.inside budget }
    ensures { Gives (read budget spec.plain_form input.old) result input.new }
{
    if input.cursor.opens(Bracket::Round) {
        return round_form(parts, input, budget);
    }
    if input.cursor.eat(Terminal::Sign('!')) {
        return Ok((TypeForm::Never, Ending::Closed));
    }
    if input.cursor.sees(Terminal::Sign('&')) {
        return reference(parts, input, budget);
    }
    if input.cursor.sees(Terminal::Sign('*')) {
        return pointer(parts, input, budget);
    }
    if input.cursor.opens(Bracket::Square) {
        return square_form(parts, input, budget);
    }
    named_form(parts, input, budget)
}

/// `dyn` with this bound.
fn one_bound_object(alloc: Global, found: BoundRead) -> Result<FormRead, AllocError>
    ensures { IfOk result (λ read. read ≡ spec.bound_form found) }
{
    let ending = found.1;
    let mut all = Seq::new(alloc);
    all.push(found)?;
    Ok((TypeForm::TraitObject(bound_paths(alloc, all)?), ending))
}

/// The form of a type, where `dyn` has one bound (Rust Reference, Trait objects).
struct OneBoundForm;

impl<R: Inside> Production<Parts<R>> for OneBoundForm {
    type Tree = FormRead;

    ghost ready = { λ parts budget. R.nests parts.inside budget };

    ghost reads = { λ budget. read budget spec.one_bound_form };

    #[tactic(auto, unfolding(educe_grammar::proofs::Opened::rules, educe_grammar::specs::Types::one_bound_form))]
    fn parse(
        parts: &Parts<R>,
        input: &mut ParseStream<'_>,
        budget: u8,
    ) -> Result<FormRead, ParseError> {
        if !input.cursor.sees(Terminal::Word(Keyword::Dyn)) {
            return plain_form(parts, input, budget);
        }
        let below = input
            .cursor
            .open_under(budget, Terminal::Word(Keyword::Dyn))?;
        let found = Bound::parse(parts, input, below)?;
        Ok(one_bound_object(parts.alloc, found)?)
    }
}

/// The form of a type, where `dyn` has any bounds (Rust Reference, Trait objects).
struct AnyBoundsForm;

impl<R: Inside> Production<Parts<R>> for AnyBoundsForm {
    type Tree = FormRead;

    ghost ready = { λ parts budget. R.nests parts.inside budget };

    ghost reads = { λ budget. read budget spec.any_bounds_form };

    #[tactic(auto, unfolding(educe_grammar::proofs::Opened::rules, educe_grammar::specs::Types::any_bounds_form))]
    fn parse(
        parts: &Parts<R>,
        input: &mut ParseStream<'_>,
        budget: u8,
    ) -> Result<FormRead, ParseError> {
        if !input.cursor.sees(Terminal::Word(Keyword::Dyn)) {
            return plain_form(parts, input, budget);
        }
        let below = input
            .cursor
            .open_under(budget, Terminal::Word(Keyword::Dyn))?;
        let found = bounds(parts, input, below)?;
        if found.len() == 0 {
            return Err(input.cursor.refuse());
        }
        let paths = bound_paths(parts.alloc, found)?;
        Ok((TypeForm::TraitObject(paths), Ending::Closed))
    }
}

/// A type whose `dyn` has one bound (Rust Reference, Type expressions).
#[tactic(auto, using(educe_grammar::proofs::Copied::one_bound_form_copied), unfolding(educe_grammar::proofs::Opened::rules, educe_grammar::specs::Types::plain_type))]
pub fn plain_type<R: Inside>(
    parts: &Parts<R>,
    input: &mut ParseStream<'_>,
    budget: u8,
) -> Result<Typed, ParseError>
    requires { R.nests parts.now.inside budget }
    ensures { Gives (read budget spec.plain_type input.old) result input.new }
{
    let ((form, ending), written) = written::<Parts<R>, OneBoundForm>(parts, input, budget)?;
    Ok((Ty { form, written }, ending))
}

/// A type (Rust Reference, Types).
#[tactic(auto, using(educe_grammar::proofs::Copied::any_bounds_form_copied), unfolding(educe_grammar::proofs::Opened::rules, educe_grammar::specs::Types::any_type))]
pub fn any_type<R: Inside>(
    parts: &Parts<R>,
    input: &mut ParseStream<'_>,
    budget: u8,
) -> Result<Ty, ParseError>
    requires { R.nests parts.now.inside budget }
    ensures { Gives (read budget spec.any_type input.old) result input.new }
{
    let ((form, _), written) = written::<Parts<R>, AnyBoundsForm>(parts, input, budget)?;
    Ok(Ty { form, written })
}
