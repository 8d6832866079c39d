//! Usage lines: the forms that a row allows, as messages list them.
ghost use Rattle.std.specs.Prelude.{◌≡◌, IfOk};
ghost use Rattle.educe_attrs_rows.specs.Usage as spec;

use crate::row::{Equals, NameKind, Row};
use educe_tokens::{Spelling, Texts};
use std::alloc::{AllocError, Global};

/// A usage line: an attribute in full.
fn line(alloc: Global, name: &str, rest: &str) -> Result<Spelling, AllocError>
    ensures { IfOk result (λ text. text ≡ spec.line name.now rest.now) }
{
    let text = format!(in alloc; "#[educe({name}{rest})]")?;
    Spelling::from_str(alloc, text.as_str())
}

/// The lines with this one behind them, if the row allows the form.
fn with_line(
    alloc: Global,
    lines: Texts,
    allowed: bool,
    name: &str,
    rest: &str,
) -> Result<Texts, AllocError>
    ensures { IfOk result (λ all. all ≡ spec.with_line lines allowed name.now rest.now) }
{
    let mut all = lines;
    if allowed {
        all.push(line(alloc, name, rest)?)?;
    }
    Ok(all)
}

/// The lines with the trait alone, a name and an expression behind `=`.
fn with_heads(alloc: Global, lines: Texts, name: &str, row: &Row) -> Result<Texts, AllocError>
    ensures { IfOk result (λ all. all ≡ spec.with_heads lines name.now row.now) }
{
    let shown = matches!(row.equals, Equals::Ident | Equals::Name);
    let value = matches!(row.equals, Equals::Expr);
    let lines = with_line(alloc, lines, row.flag, name, "")?;
    let lines = with_line(alloc, lines, shown, name, " = NewName")?;
    with_line(alloc, lines, value, name, " = expr")
}

/// The truth value that the line on `name` shows, if there is one.
fn shown(kind: Option<NameKind>) -> Option<bool>
    ensures { result ≡ spec.shown kind }
{
    match kind {
        Some(NameKind::Name(truth)) => Some(truth),
        Some(NameKind::Ident) => None,
        None => None,
    }
}

/// Whether a line shows `false`.
fn shows_false(truth: Option<bool>) -> bool
    ensures { result ≡ spec.shows_false truth }
{
    matches!(truth, Some(false))
}

/// Whether a line shows `true`.
fn shows_true(truth: Option<bool>) -> bool
    ensures { result ≡ spec.shows_true truth }
{
    matches!(truth, Some(true))
}

/// The lines with `name` and `named_field`.
fn with_names(alloc: Global, lines: Texts, name: &str, row: &Row) -> Result<Texts, AllocError>
    ensures { IfOk result (λ all. all ≡ spec.with_names lines name.now row.now) }
{
    let truth = shown(row.name);
    let named = row.named_field;
    let lines = with_line(alloc, lines, row.name.is_some(), name, "(name(NewName))")?;
    let lines = with_line(alloc, lines, shows_false(truth), name, "(name = false)")?;
    let lines = with_line(alloc, lines, shows_true(truth), name, "(name = true)")?;
    let lines = with_line(
        alloc,
        lines,
        shows_false(named),
        name,
        "(named_field = false)",
    )?;
    with_line(
        alloc,
        lines,
        shows_true(named),
        name,
        "(named_field = true)",
    )
}

/// Whether a truth value may stand behind `=`.
fn takes_truth(equals: Equals) -> bool
    ensures { result ≡ spec.takes_truth equals }
{
    matches!(equals, Equals::Truth | Equals::Name)
}

/// The lines with a truth value behind `=`, and with the other parameters.
fn with_params(alloc: Global, lines: Texts, name: &str, row: &Row) -> Result<Texts, AllocError>
    ensures { IfOk result (λ all. all ≡ spec.with_params lines name.now row.now) }
{
    let truth = takes_truth(row.equals);
    let lines = with_line(alloc, lines, row.new, name, "(new)")?;
    let lines = with_line(alloc, lines, row.expression, name, "(expression = expr)")?;
    let lines = with_line(alloc, lines, truth, name, " = false")?;
    let lines = with_line(alloc, lines, row.ignore, name, "(ignore)")?;
    let lines = with_line(alloc, lines, row.method, name, "(method(path_to_method))")?;
    let lines = with_line(alloc, lines, row.rank, name, "(rank = integer)")?;
    let lines = with_line(alloc, lines, row.reverse, name, "(reverse)")?;
    with_line(alloc, lines, row.bound, name, "(bound(where_predicates))")
}

/// The words, followed by a line for each form of the row.
pub fn with_usage(alloc: Global, words: Texts, name: &str, row: &Row) -> Result<Texts, AllocError>
    ensures { IfOk result (λ all. all ≡ spec.with_usage words name.now row.now) }
{
    let lines = with_heads(alloc, words, name, row)?;
    let lines = with_names(alloc, lines, name, row)?;
    let lines = with_params(alloc, lines, name, row)?;
    with_line(alloc, lines, row.bound, name, "(bound = false)")
}
