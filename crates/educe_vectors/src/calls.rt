//! Calls of functions that are expanded, as in `eq 0(1, 2) 0(1, 3)`.

use crate::example_values::value;
use crate::outcomes::rendered;
use crate::rows::Example;
use crate::told::{answers, is_told};
use educe_body::{Answers, Body, ImplItem, Item, Items, Scope, Value};
use educe_body_eval::eval;
use educe_syntax::DeriveInput;
use educe_tests::{LINE, check_at};
use std::alloc::{AllocError, Global};
use std::test::Fail;

/// The body of the function of this name of an impl.
fn body_in<'a>(item: &'a ImplItem, name: &str) -> Option<&'a Body> {
    for function in item.functions.as_slice() {
        if function.name.text.as_str() == name {
            return Some(&function.body);
        }
    }
    None
}

/// The body of the function of this name of the first impl that has one.
fn body<'a>(items: &'a Items, name: &str) -> Option<&'a Body> {
    for item in items.as_slice() {
        match item {
            Item::Impl(item) | Item::New(item) => {
                let found = body_in(item, name);
                if found.is_some() {
                    return found;
                }
            }
            _ => {}
        }
    }
    None
}

/// What a body evaluates to, as a text.
fn evaluated(
    alloc: Global,
    body: &Body,
    scope: &Scope,
    answers: &Answers,
) -> Result<String, AllocError> {
    let outcome = eval(alloc, body, scope, answers)?;
    rendered(alloc, &outcome)
}

/// A definition with the value of `self`.
fn scope_of_one<'a>(ast: &'a DeriveInput, this: &'a Value) -> Scope<'a> {
    let this = Some(this);
    let other = None;
    Scope { ast, this, other }
}

/// A definition with the values of `self` and of the other parameter.
fn scope_of_two<'a>(ast: &'a DeriveInput, this: &'a Value, other: &'a Value) -> Scope<'a> {
    let this = Some(this);
    let other = Some(other);
    Scope { ast, this, other }
}

/// What a body evaluates to over this value of a definition, as a text.
fn evaluated_of_one(
    alloc: Global,
    ast: &DeriveInput,
    body: &Body,
    this: &str,
    answers: &Answers,
) -> Result<String, Fail> {
    let this = value(alloc, this)?;
    Ok(evaluated(alloc, body, &scope_of_one(ast, &this), answers)?)
}

/// What a body evaluates to over these two values of a definition, as a text.
fn evaluated_of_two(
    alloc: Global,
    ast: &DeriveInput,
    body: &Body,
    values: (&str, &str),
    answers: &Answers,
) -> Result<String, Fail> {
    let this = value(alloc, values.0)?;
    let other = value(alloc, values.1)?;
    Ok(evaluated(alloc, body, &scope_of_two(ast, &this, &other), answers)?)
}

/// What a call evaluates to in the items that a definition is expanded to, as a text, by a table of what other calls
/// answer.
fn called(
    alloc: Global,
    ast: &DeriveInput,
    items: &Items,
    call: &str,
    answers: &Answers,
) -> Result<String, Fail> {
    let Some((name, values)) = call.split_once(' ') else {
        let body = body(items, call).ok_or(call)?;
        let (this, other) = (None, None);
        return Ok(evaluated(alloc, body, &Scope { ast, this, other }, answers)?);
    };
    let body = body(items, name).ok_or(call)?;
    let values = values.strip_suffix(')').ok_or(call)?;
    match values.split_once(") ") {
        Some(values) => evaluated_of_two(alloc, ast, body, values, answers),
        None => evaluated_of_one(alloc, ast, body, values, answers),
    }
}

/// Each line of a row that states no answer is a call, and what this evaluates to in the items that the
/// source is expanded to.
pub fn check_calls(
    alloc: Global,
    ast: &DeriveInput,
    items: &Items,
    example: &Example,
) -> Result<(), Fail> {
    let answers = answers(alloc, example.lines)?;
    for line in example.lines.split(LINE) {
        if !is_told(line) {
            let (call, expected) = line.split_once(" = ").ok_or(line)?;
            let found = called(alloc, ast, items, call, &answers)?;
            check_at((example.name, call), found.as_str(), expected)?;
        }
    }
    Ok(())
}
