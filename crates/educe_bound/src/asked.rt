//! The predicates that ask for a trait (documentation of `educe`, Bounds).
ghost use Rattle.std.specs.Prelude.{◌≡◌, [], ◌++◌, ℕ, List, codes, map, IfOk, OnOk};
ghost use Rattle.std.specs.List.{AllByRecursion};
ghost use Rattle.educe_tokens.specs.Appends.{Appends};
ghost use Rattle.educe_tokens.specs.Copied.{unjoin};
ghost use Rattle.educe_tokens.specs.Lexes.{lexemes};
ghost use Rattle.educe_tokens.specs.Quote.{quoted};
ghost use Rattle.educe_bound_classes.specs.Asked as needs;
ghost use Rattle.educe_bound_classes.specs.Deriving.{Extends};
ghost use Rattle.educe_grammar.specs.Readings.{IsReadPredicate, IsReadType};
ghost use Rattle.educe_bound_classes.specs.Needs.{AreNames, AreOwn};
ghost use Rattle.educe_bound_traits.specs.Paths.{trait_path};
ghost use Rattle.educe_bound_classes.specs.Exceptions.{Exceptions};
ghost use Rattle.educe_bound.specs.Predicates as spec;
ghost use Rattle.educe_tree.specs.declared.generics.GenericParam.{GenericParam};

use crate::sets::PredicateSet;
use educe_bound_classes::{
    Asked, Asker, BoundExceptions, clone_exceptions, copy_exceptions, debug_exceptions,
    default_exceptions, equality_exceptions, hash_exceptions, needs_of, order_exceptions,
};
use educe_bound_traits::{Trait, trait_path};
use educe_syntax::{GenericParam, Ident, Params, Predicates, ToTokens, Ty, WherePredicate};
use educe_tokens::{Seq, TokenStream, Written, quote};
use std::alloc::{AllocError, Global};

/// The types that the trait treats specially (documentation of `educe`, Bounds).
pub fn exceptions_of(which: Trait) -> BoundExceptions
    ensures { result ≡ spec.exceptions_of which }
{
    match which {
        Trait::Debug => debug_exceptions(),
        Trait::Clone => clone_exceptions(),
        Trait::Copy => copy_exceptions(),
        Trait::PartialEq | Trait::Eq => equality_exceptions(),
        Trait::PartialOrd | Trait::Ord => order_exceptions(),
        Trait::Hash => hash_exceptions(),
        Trait::Default => default_exceptions(),
    }
}

/// Appends what stands behind the type in a predicate that asks for the trait.
fn push_bound(alloc: Global, tokens: &mut TokenStream, which: Trait) -> Result<(), AllocError>
    ensures { OnOk result (Appends (quoted (codes ":") ++ quoted (trait_path which)) tokens.old tokens.new) }
{
    quote(alloc, tokens, ":")?;
    quote(alloc, tokens, trait_path(which))
}

/// The predicate that asks for the trait, with the tokens of the value in front of it.
fn predicate_on<T: ToTokens>(
    alloc: Global,
    subject: &T,
    which: Trait,
) -> Result<WherePredicate, AllocError>
    ensures key { IfOk result (λ found. spec.key_of found ≡ map unjoin (T.lexemes_of subject.now) ++ spec.asks_for which) }
    ensures tokens { IfOk result (λ found. lexemes found.written.tokens ≡ T.lexemes_of subject.now ++ spec.behind which) }
{
    let mut tokens = TokenStream::new(alloc);
    subject.to_tokens(alloc, &mut tokens)?;
    push_bound(alloc, &mut tokens, which)?;
    let written = Written::new(tokens.into_slice(alloc)?);
    Ok(WherePredicate { written })
}

/// The predicate that is asked.
fn predicate_of(
    alloc: Global,
    asked: &Asked<'_>,
    which: Trait,
) -> Result<WherePredicate, AllocError>
    ensures key { IfOk result (λ found. spec.key_of found ≡ needs.key_of (spec.asks_for which) asked.now) }
    ensures read { (params : List GenericParam) (ex : Exceptions) (self : List ℕ) →
        needs.IsAskedRead params ex self asked.now → IfOk result IsReadPredicate }
{
    match asked {
        Asked::Itself(ty) => predicate_on(alloc, *ty, which),
        Asked::Param(name) => predicate_on(alloc, *name, which),
    }
}

/// The predicates that are asked, each once.
fn predicates_of(
    alloc: Global,
    asked: &[Asked<'_>],
    which: Trait,
) -> Result<PredicateSet, AllocError>
    ensures keys { IfOk result (λ found. Extends [] (needs.keys_of (spec.asks_for which) asked.now) (spec.keys_of found)) }
    ensures read { (params : List GenericParam) (ex : Exceptions) (self : List ℕ) →
        needs.AreAskedRead params ex self asked.now → IfOk result spec.AreRead }
{
    let mut found = PredicateSet::new(alloc);
    for one in asked {
        let predicate = predicate_of(alloc, one, which)?;
        found.insert(&predicate)?;
    }
    Ok(found)
}

/// The predicates that the types need, each once, in the order of first need (documentation of `educe`,
/// Bounds).
pub fn needed_predicates(
    alloc: Global,
    params: &Params,
    which: Trait,
    types: &[&Ty],
    self_ident: &Ident,
    exceptions: &BoundExceptions,
) -> Result<PredicateSet, AllocError>
    ensures keys { IfOk result (λ found. AreOwn exceptions.now params.now self_ident.now.text (spec.asks_for which)
        (needs.types_of types.now) (spec.keys_of found)) }
    ensures read { AreNames params.now → AllByRecursion IsReadType (needs.types_of types.now) → IfOk result spec.AreRead }
{
    let asker = Asker::new(alloc, exceptions, params, &self_ident.text)?;
    let asked = needs_of(alloc, &asker, types)?;
    predicates_of(alloc, asked.as_slice(), which)
}

/// One predicate for each type parameter (documentation of `educe`, Bounds).
pub fn predicates_on_params(
    alloc: Global,
    params: &Params,
    which: Trait,
) -> Result<Predicates, AllocError>
    ensures keys { IfOk result (λ found. spec.keys_of found ≡ spec.on_each_param params.now which) }
    ensures read { AreNames params.now → IfOk result spec.AreRead }
{
    let mut found = Seq::new(alloc);
    for param in params.as_slice() {
        if let GenericParam::TypeParam(param) = param {
            found.push(predicate_on(alloc, &param.ident, which)?)?;
        }
    }
    Ok(found)
}
