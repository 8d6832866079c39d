//! The values of each kind that tokens are.
ghost use Rattle.std.specs.Prelude.{◌≡◌, IfOk, Some};
ghost use Rattle.educe_attrs_values.specs.Chains.{Gives};
ghost use Rattle.educe_attrs_values.specs.Integers as integers;
ghost use Rattle.educe_attrs_values.specs.Readings as spec;

use crate::choices::{IdentOrBool, WherePredicatesOrBool};
use crate::fault::Fault;
use crate::integer::{decimal_in, signed_in};
use crate::opening::{ident_in, predicates_in};
use crate::source::Source;
use crate::text::only_text;
use educe_bound_traits::is_one_word;
use educe_syntax::{Terminal, is_spelled};
use educe_tokens::{Spelling, Token, TokenSlice};
use std::alloc::{AllocError, Global};

/// The truth value that tokens are.
#[tactic(auto, using(crate::proofs::Words::chars_true, crate::proofs::Words::chars_false))]
fn truth_in(tokens: &[Token]) -> Option<bool>
    ensures { result ≡ spec.truth_in tokens.now }
{
    if is_one_word(tokens, "true") {
        Some(true)
    } else if is_one_word(tokens, "false") {
        Some(false)
    } else {
        None
    }
}

/// The value, or that there is none.
fn or_wrong<T>(found: Option<T>) -> Result<T, Fault>
    ensures { result ≡ spec.or_wrong found }
{
    match found {
        Some(value) => Ok(value),
        None => Err(Fault::Wrong),
    }
}

/// The truth value that tokens are, or the fault that they are none.
pub fn truth(tokens: &[Token]) -> Result<bool, Fault>
    ensures { result ≡ spec.or_wrong (spec.truth_in tokens.now) }
{
    or_wrong(truth_in(tokens))
}

/// The integer that tokens or the text of a string write.
fn integer_in(alloc: Global, tokens: &[Token]) -> Result<Option<i64>, AllocError>
    ensures { IfOk result (λ number. number ≡ integers.integer_in tokens.now) }
{
    match only_text(alloc, tokens)? {
        Some(text) => Ok(decimal_in(text.as_str())),
        None => Ok(signed_in(tokens)),
    }
}

/// The integer that tokens or the text of a string write, or the fault that they write none.
pub fn integer(alloc: Global, tokens: &[Token]) -> Result<i64, Fault>
    ensures { Gives Fault.Memory (spec.or_wrong (integers.integer_in tokens.now)) result }
{
    or_wrong(integer_in(alloc, tokens)?)
}

/// Whether the text has no character.
fn is_empty(text: &Spelling) -> bool
    ensures { result ≡ spec.is_empty_text (Some text.now) }
{
    is_spelled(text, "")
}

/// Whether there is a text, and it has no character.
fn is_empty_text(text: &Option<Spelling>) -> bool
    ensures { result ≡ spec.is_empty_text text.now }
{
    match text {
        Some(text) => is_empty(text),
        None => false,
    }
}

/// The name that tokens or the text of a string are, in a choice.
fn named(alloc: Global, tokens: &TokenSlice) -> Result<IdentOrBool, Fault>
    ensures { Gives Fault.Memory (spec.named tokens.now) result }
{
    match ident_in(alloc, tokens) {
        Ok(ident) => Ok(IdentOrBool::Ident(ident)),
        Err(fault) => Err(fault),
    }
}

/// The name or truth value that tokens or the text of a string are; an empty string is `false`.
pub fn name_in(alloc: Global, tokens: &TokenSlice) -> Result<IdentOrBool, Fault>
    ensures { Gives Fault.Memory (spec.name_in tokens.now) result }
{
    if let Some(truth) = truth_in(tokens.as_slice()) {
        return Ok(IdentOrBool::Bool(truth));
    }
    if is_empty_text(&only_text(alloc, tokens.as_slice())?) {
        return Ok(IdentOrBool::Bool(false));
    }
    named(alloc, tokens)
}

/// Whether the tokens are `*`.
fn is_star(tokens: &[Token]) -> bool
    ensures { result ≡ spec.is_star tokens.now }
{
    match tokens {
        [token] => Terminal::Sign('*').accepts(token),
        _ => false,
    }
}

/// The predicates that tokens or the text of a string are, in a choice.
fn bounded(alloc: Global, tokens: &TokenSlice) -> Result<WherePredicatesOrBool, Fault>
    ensures { Gives Fault.Memory (spec.bounded tokens.now) result }
{
    match predicates_in(alloc, tokens) {
        Ok(predicates) => Ok(WherePredicatesOrBool::WherePredicates(predicates)),
        Err(fault) => Err(fault),
    }
}

/// Whether predicates may stand there: in brackets, or as the text of a string.
fn may_be_predicates(alloc: Global, source: &Source) -> Result<bool, AllocError>
    ensures { IfOk result (λ may. may ≡ spec.may_be_predicates source.now) }
{
    if source.enclosed {
        return Ok(true);
    }
    match only_text(alloc, source.tokens.as_slice())? {
        Some(_) => Ok(true),
        None => Ok(false),
    }
}

/// The truth value, `*` or predicates of a value: `*` only in brackets, predicates only in brackets
/// or as the text of a string.
pub fn bound_in(alloc: Global, source: &Source) -> Result<WherePredicatesOrBool, Fault>
    ensures { Gives Fault.Memory (spec.bound_in source.now) result }
{
    let tokens = source.tokens.as_slice();
    if let Some(truth) = truth_in(tokens) {
        return Ok(WherePredicatesOrBool::Bool(truth));
    }
    if source.enclosed && is_star(tokens) {
        return Ok(WherePredicatesOrBool::All);
    }
    if may_be_predicates(alloc, source)? {
        bounded(alloc, &source.tokens)
    } else {
        Err(Fault::Wrong)
    }
}
