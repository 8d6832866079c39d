//! Generic parameters and where clauses (Rust Reference, Generic parameters).
ghost use Rattle.std.specs.Prelude.{◌+◌, ⊤};
ghost use Rattle.educe_grammar.specs.Combining.{at_colon, at_sign, behind_colon, flag, sign, skipping};
ghost use Rattle.educe_grammar.specs.Generics as spec;
ghost use Rattle.educe_grammar.specs.NotedReads.{read};
ghost use Rattle.educe_grammar.specs.Rules as rule;
ghost use Rattle.educe_grammar.specs.Rules.{part, types};
ghost use Rattle.educe_grammar.specs.Steps.{Gives};
ghost use Rattle.educe_grammar.specs.Types.{bounds, lifetime_bounds};

use crate::lookahead::{AtEnd, BehindWhere};
use educe_grammar::{
    Inside, Keyword, ParseError, ParseStream, Parts, Production, Terminal, in_angles, list, written,
};
use educe_parser_paths::{Constant, bounds, for_all, lifetime, lifetime_bounds, name};
use educe_tokens::{Seq, Written, pair, terminated, unit};
use educe_tree::{
    ConstParam, GenericParam, Ident, Lifetime, LifetimeParam, Params, Predicates, Ty, TypeParam,
    WherePredicate,
};
use std::alloc::Global;

/// Whether a colon stands here, with any bounds (Rust Reference, Lifetime bounds).
#[tactic(auto, unfolding(educe_grammar::proofs::Opened::rules))]
fn colon_lifetimes(
    alloc: Global,
    input: &mut ParseStream<'_>,
    budget: u8,
) -> Result<bool, ParseError>
    ensures { Gives (read budget (flag at_colon (behind_colon lifetime_bounds)) input.old) result input.new }
{
    if !input.cursor.eat_lone(':', ':') {
        return Ok(false);
    }
    lifetime_bounds(alloc, input, budget)?;
    Ok(true)
}

/// A lifetime, and whether bounds stand behind it (Rust Reference, Lifetime bounds).
struct BoundedLifetime;

impl Production<Global> for BoundedLifetime {
    type Tree = (Lifetime, bool);

    ghost ready = { λ _ _. ⊤ };

    ghost reads = { λ budget. read budget spec.bounded_lifetime };

    #[tactic(auto, unfolding(educe_grammar::proofs::Opened::rules, educe_grammar::specs::Generics::bounded_lifetime))]
    fn parse(
        alloc: &Global,
        input: &mut ParseStream<'_>,
        budget: u8,
    ) -> Result<(Lifetime, bool), ParseError> {
        let lifetime = lifetime(*alloc, input)?;
        pair(lifetime, colon_lifetimes(*alloc, input, budget))
    }
}

/// The parameter of a lifetime (Rust Reference, Generic parameters).
#[tactic(auto, using(educe_grammar::proofs::Copied::bounded_lifetime_copied), unfolding(educe_grammar::proofs::Opened::rules, educe_grammar::specs::Generics::lifetime_param))]
fn lifetime_param(
    alloc: Global,
    input: &mut ParseStream<'_>,
    budget: u8,
) -> Result<GenericParam, ParseError>
    ensures { Gives (read budget spec.lifetime_param input.old) result input.new }
{
    let ((lifetime, _), written) = written::<Global, BoundedLifetime>(&alloc, input, budget)?;
    Ok(GenericParam::Lifetime(LifetimeParam { lifetime, written }))
}

/// A predicate of a lifetime (Rust Reference, Where clauses).
#[tactic(auto, unfolding(educe_grammar::proofs::Opened::rules, educe_grammar::specs::Generics::lifetime_predicate))]
fn lifetime_predicate(
    alloc: Global,
    input: &mut ParseStream<'_>,
    budget: u8,
) -> Result<(), ParseError>
    ensures { Gives (read budget spec.lifetime_predicate input.old) result input.new }
{
    lifetime(alloc, input)?;
    input.cursor.skip_lone(':', ':')?;
    lifetime_bounds(alloc, input, budget)
}

/// Whether a colon stands here, with any bounds (Rust Reference, Trait and lifetime bounds).
#[tactic(auto, unfolding(educe_grammar::proofs::Opened::rules))]
fn colon_bounds<R: Inside>(
    parts: &Parts<R>,
    input: &mut ParseStream<'_>,
    budget: u8,
) -> Result<bool, ParseError>
    requires { R.nests parts.now.inside budget }
    ensures { Gives (read budget (flag at_colon (behind_colon bounds)) input.old) result input.new }
{
    if !input.cursor.eat_lone(':', ':') {
        return Ok(false);
    }
    unit(bounds(parts, input, budget))?;
    Ok(true)
}

/// A name, and whether a colon stands behind it, with any bounds (Rust Reference, Trait and
/// lifetime bounds).
struct BoundedName;

impl<R: Inside> Production<Parts<R>> for BoundedName {
    type Tree = (Ident, bool);

    ghost ready = { λ parts budget. R.nests parts.inside (budget + 1) };

    ghost reads = { λ budget. read budget spec.bounded_name };

    #[tactic(auto, unfolding(educe_grammar::proofs::Opened::rules, educe_grammar::specs::Generics::bounded_name))]
    fn parse(
        parts: &Parts<R>,
        input: &mut ParseStream<'_>,
        budget: u8,
    ) -> Result<(Ident, bool), ParseError> {
        let ident = name(parts.alloc, input)?;
        pair(ident, colon_bounds(parts, input, budget))
    }
}

/// A name and whether a colon with any bounds stands behind it, with its tokens as they were
/// written.
#[tactic(auto, using(educe_grammar::proofs::Copied::bounded_name_copied), unfolding(educe_grammar::proofs::Opened::rules))]
fn written_name<R: Inside>(
    parts: &Parts<R>,
    input: &mut ParseStream<'_>,
    budget: u8,
) -> Result<((Ident, bool), Written), ParseError>
    requires { R.nests parts.now.inside (budget + 1) }
    ensures { Gives (read budget (rule.written spec.bounded_name) input.old) result input.new }
{
    written::<Parts<R>, BoundedName>(parts, input, budget)
}

/// Whether `=` and a type stand here (Rust Reference, Generic parameters).
#[tactic(auto, unfolding(educe_grammar::proofs::Opened::rules))]
fn default_type<R: Inside>(
    parts: &Parts<R>,
    input: &mut ParseStream<'_>,
    budget: u8,
) -> Result<bool, ParseError>
    requires { R.nests parts.now.inside (budget + 1) }
    ensures { Gives (read budget (flag (at_sign 61) (skipping (sign 61) (part types))) input.old) result input.new }
{
    if !input.cursor.eat(Terminal::Sign('=')) {
        return Ok(false);
    }
    unit(parts.ty(input, budget))?;
    Ok(true)
}

/// The parameter of a type, of which the default is not kept (Rust Reference, Generic
/// parameters).
#[tactic(auto, unfolding(educe_grammar::proofs::Opened::rules, educe_grammar::specs::Generics::type_param))]
fn type_param<R: Inside>(
    parts: &Parts<R>,
    input: &mut ParseStream<'_>,
    budget: u8,
) -> Result<GenericParam, ParseError>
    requires { R.nests parts.now.inside (budget + 1) }
    ensures { Gives (read budget spec.type_param input.old) result input.new }
{
    let ((ident, _), written) = written_name(parts, input, budget)?;
    let param = GenericParam::TypeParam(TypeParam { ident, written });
    terminated(param, default_type(parts, input, budget))
}

/// A colon and a type (Rust Reference, Structs; Const generics).
#[tactic(auto, unfolding(educe_grammar::proofs::Opened::rules))]
pub fn colon_type<R: Inside>(
    parts: &Parts<R>,
    input: &mut ParseStream<'_>,
    budget: u8,
) -> Result<Ty, ParseError>
    requires { R.nests parts.now.inside (budget + 1) }
    ensures { Gives (read budget (behind_colon (part types)) input.old) result input.new }
{
    input.cursor.skip_lone(':', ':')?;
    parts.ty(input, budget)
}

/// `const`, a name and its type (Rust Reference, Const generics).
struct TypedConst;

impl<R: Inside> Production<Parts<R>> for TypedConst {
    type Tree = Ident;

    ghost ready = { λ parts budget. R.nests parts.inside (budget + 1) };

    ghost reads = { λ budget. read budget spec.typed_const };

    #[tactic(auto, unfolding(educe_grammar::proofs::Opened::rules, educe_grammar::specs::Generics::typed_const))]
    fn parse(
        parts: &Parts<R>,
        input: &mut ParseStream<'_>,
        budget: u8,
    ) -> Result<Ident, ParseError> {
        input.cursor.expect(Terminal::Word(Keyword::Const))?;
        let ident = name(parts.alloc, input)?;
        terminated(ident, colon_type(parts, input, budget))
    }
}

/// A constant, which may be a name (Rust Reference, Const generics).
#[tactic(auto, unfolding(educe_grammar::proofs::Opened::rules, educe_grammar::specs::Generics::any_constant))]
fn any_constant<R: Inside>(
    parts: &Parts<R>,
    input: &mut ParseStream<'_>,
    budget: u8,
) -> Result<(), ParseError>
    requires { R.nests parts.now.inside (budget + 1) }
    ensures { Gives (read budget spec.any_constant input.old) result input.new }
{
    if input.cursor.eat(Terminal::Name) {
        return Ok(());
    }
    Constant::parse(parts, input, budget)
}

/// Whether `=` and a constant stand here (Rust Reference, Const generics).
#[tactic(auto, unfolding(educe_grammar::proofs::Opened::rules))]
fn default_constant<R: Inside>(
    parts: &Parts<R>,
    input: &mut ParseStream<'_>,
    budget: u8,
) -> Result<bool, ParseError>
    requires { R.nests parts.now.inside (budget + 1) }
    ensures { Gives (read budget (flag (at_sign 61) (skipping (sign 61) spec.any_constant)) input.old) result input.new }
{
    if !input.cursor.eat(Terminal::Sign('=')) {
        return Ok(false);
    }
    any_constant(parts, input, budget)?;
    Ok(true)
}

/// The parameter of a constant, of which the default is not kept (Rust Reference, Const
/// generics).
#[tactic(auto, using(educe_grammar::proofs::Copied::typed_const_copied), unfolding(educe_grammar::proofs::Opened::rules, educe_grammar::specs::Generics::const_param))]
fn const_param<R: Inside>(
    parts: &Parts<R>,
    input: &mut ParseStream<'_>,
    budget: u8,
) -> Result<GenericParam, ParseError>
    requires { R.nests parts.now.inside (budget + 1) }
    ensures { Gives (read budget spec.const_param input.old) result input.new }
{
    let (ident, written) = written::<Parts<R>, TypedConst>(parts, input, budget)?;
    let param = GenericParam::Const(ConstParam { ident, written });
    terminated(param, default_constant(parts, input, budget))
}

/// A generic parameter (Rust Reference, Generic parameters).
struct Param;

impl<R: Inside> Production<Parts<R>> for Param {
    type Tree = GenericParam;

    ghost ready = { λ parts budget. R.nests parts.inside (budget + 1) };

    ghost reads = { λ budget. read budget spec.generic_param };

    #[tactic(auto, unfolding(educe_grammar::proofs::Opened::rules, educe_grammar::specs::Generics::generic_param))]
    fn parse(
        parts: &Parts<R>,
        input: &mut ParseStream<'_>,
        budget: u8,
    ) -> Result<GenericParam, ParseError> {
        if input.cursor.sees(Terminal::Lifetime) {
            return lifetime_param(parts.alloc, input, budget);
        }
        if input.cursor.sees(Terminal::Word(Keyword::Const)) {
            return const_param(parts, input, budget);
        }
        type_param(parts, input, budget)
    }
}

/// A generic parameter (Rust Reference, Generic parameters).
pub fn generic_param<R: Inside>(
    parts: &Parts<R>,
    input: &mut ParseStream<'_>,
    budget: u8,
) -> Result<GenericParam, ParseError>
    requires { R.nests parts.now.inside (budget + 1) }
    ensures { Gives (read budget spec.generic_param input.old) result input.new }
{
    Param::parse(parts, input, budget)
}

/// The generic parameters, if there are any (Rust Reference, Generic parameters).
#[tactic(auto, unfolding(educe_grammar::proofs::Opened::rules, educe_grammar::specs::Generics::generic_params))]
pub fn generic_params<R: Inside>(
    parts: &Parts<R>,
    input: &mut ParseStream<'_>,
    budget: u8,
) -> Result<Params, ParseError>
    requires { R.nests parts.now.inside budget }
    ensures { Gives (read budget spec.generic_params input.old) result input.new }
{
    if !input.cursor.begins_lone('<', '=') {
        return Ok(Seq::new(parts.alloc));
    }
    in_angles::<Parts<R>, Param>(parts, input, budget)
}

/// The generic parameters of a header, without its angle brackets, up to the end of the tokens (Rust
/// Reference, Generic parameters).
#[tactic(auto, unfolding(educe_grammar::proofs::Opened::rules, educe_grammar::specs::Generics::params))]
pub fn params<R: Inside>(
    parts: &Parts<R>,
    input: &mut ParseStream<'_>,
    budget: u8,
) -> Result<Params, ParseError>
    requires { R.nests parts.now.inside (budget + 1) }
    ensures { Gives (read budget spec.params input.old) result input.new }
{
    list::<Parts<R>, Param, AtEnd>(parts, input, budget, Terminal::Sign(','))
}

/// A type with bounds (Rust Reference, Where clauses).
#[tactic(auto, unfolding(educe_grammar::proofs::Opened::rules, educe_grammar::specs::Generics::bounded_type))]
fn bounded_type<R: Inside>(
    parts: &Parts<R>,
    input: &mut ParseStream<'_>,
    budget: u8,
) -> Result<(), ParseError>
    requires { R.nests parts.now.inside (budget + 1) }
    ensures { Gives (read budget spec.bounded_type input.old) result input.new }
{
    unit(parts.ty(input, budget))?;
    input.cursor.skip_lone(':', ':')?;
    unit(bounds(parts, input, budget))
}

/// A predicate of a type, which takes the `for` that it begins with (Rust Reference, Where
/// clauses).
#[tactic(auto, unfolding(educe_grammar::proofs::Opened::rules, educe_grammar::specs::Generics::type_predicate))]
fn type_predicate<R: Inside>(
    parts: &Parts<R>,
    input: &mut ParseStream<'_>,
    budget: u8,
) -> Result<(), ParseError>
    requires { R.nests parts.now.inside (budget + 1) }
    ensures { Gives (read budget spec.type_predicate input.old) result input.new }
{
    if !input.cursor.sees(Terminal::Word(Keyword::For)) {
        return bounded_type(parts, input, budget);
    }
    for_all(parts.alloc, input, budget)?;
    bounded_type(parts, input, budget)
}

/// What a predicate says (Rust Reference, Where clauses).
struct AnyPredicate;

impl<R: Inside> Production<Parts<R>> for AnyPredicate {
    type Tree = ();

    ghost ready = { λ parts budget. R.nests parts.inside (budget + 1) };

    ghost reads = { λ budget. read budget spec.any_predicate };

    #[tactic(auto, unfolding(educe_grammar::proofs::Opened::rules, educe_grammar::specs::Generics::any_predicate))]
    fn parse(parts: &Parts<R>, input: &mut ParseStream<'_>, budget: u8) -> Result<(), ParseError> {
        if input.cursor.sees(Terminal::Lifetime) {
            return lifetime_predicate(parts.alloc, input, budget);
        }
        type_predicate(parts, input, budget)
    }
}

/// A predicate (Rust Reference, Where clauses).
struct Predicate;

impl<R: Inside> Production<Parts<R>> for Predicate {
    type Tree = WherePredicate;

    ghost ready = { λ parts budget. R.nests parts.inside (budget + 1) };

    ghost reads = { λ budget. read budget spec.predicate };

    #[tactic(auto, using(educe_grammar::proofs::Copied::any_predicate_copied), unfolding(educe_grammar::proofs::Opened::rules, educe_grammar::specs::Generics::predicate))]
    fn parse(
        parts: &Parts<R>,
        input: &mut ParseStream<'_>,
        budget: u8,
    ) -> Result<WherePredicate, ParseError> {
        let (_, written) = written::<Parts<R>, AnyPredicate>(parts, input, budget)?;
        Ok(WherePredicate { written })
    }
}

/// A predicate (Rust Reference, Where clauses).
pub fn where_predicate<R: Inside>(
    parts: &Parts<R>,
    input: &mut ParseStream<'_>,
    budget: u8,
) -> Result<WherePredicate, ParseError>
    requires { R.nests parts.now.inside (budget + 1) }
    ensures { Gives (read budget spec.predicate input.old) result input.new }
{
    Predicate::parse(parts, input, budget)
}

/// The predicates of a where clause (Rust Reference, Where clauses).
#[tactic(auto, unfolding(educe_grammar::proofs::Opened::rules, educe_grammar::specs::Generics::predicates))]
pub fn predicates<R: Inside>(
    parts: &Parts<R>,
    input: &mut ParseStream<'_>,
    budget: u8,
) -> Result<Predicates, ParseError>
    requires { R.nests parts.now.inside (budget + 1) }
    ensures { Gives (read budget spec.predicates input.old) result input.new }
{
    list::<Parts<R>, Predicate, BehindWhere>(parts, input, budget, Terminal::Sign(','))
}

/// The where clause, if there is one (Rust Reference, Where clauses).
#[tactic(auto, unfolding(educe_grammar::proofs::Opened::rules, educe_grammar::specs::Generics::where_clause))]
pub fn where_clause<R: Inside>(
    parts: &Parts<R>,
    input: &mut ParseStream<'_>,
    budget: u8,
) -> Result<Predicates, ParseError>
    requires { R.nests parts.now.inside (budget + 1) }
    ensures { Gives (read budget spec.where_clause input.old) result input.new }
{
    if !input.cursor.eat(Terminal::Word(Keyword::Where)) {
        return Ok(Seq::new(parts.alloc));
    }
    predicates(parts, input, budget)
}
