//! How deep what stands inside may nest, and how long a chain may be: at each limit, and one past it.
//!
//! `127 times (_) around A in struct S(_);` is `struct S(A);` with `A` in 127 pairs of brackets.

use super::{Call, Part, Refusal, answer, kind_name, refusal_of};
use crate::answers::{Asked, check};
use educe_tests::{check_at, lexed};
use educe_tokens::{Seq, Token, TokenSlice};
use std::alloc::{AllocError, Global};
use std::test::Fail;

/// A part that stands so often in itself around an innermost text, in the place of the `_` of an outer text.
#[derive(Clone, Copy)]
struct Nesting<'a> {
    times: usize,
    start: &'a str,
    stop: &'a str,
    inside: &'a str,
    outer: &'a str,
}

/// The nesting that a text says.
fn read_nesting(text: &str) -> Option<Nesting<'_>> {
    let (times, rest) = text.split_once(" times ")?;
    let (part, outer) = rest.split_once(" in ")?;
    let (around, inside) = part.split_once(" around ").unwrap_or((part, ""));
    let (start, stop) = around.split_once('_')?;
    let times = times.parse::<usize>().ok()?;
    Some(Nesting {
        times,
        start,
        stop,
        inside,
        outer,
    })
}

/// Appends a part so often.
fn push_times(text: &mut String, part: &str, times: usize) -> Result<(), AllocError> {
    for _ in 0..times {
        text.push_str(part)?;
    }
    Ok(())
}

/// Appends the part so often around the innermost text.
fn push_nested(text: &mut String, nesting: &Nesting, times: usize) -> Result<(), AllocError> {
    push_times(text, nesting.start, times)?;
    text.push_str(nesting.inside)?;
    push_times(text, nesting.stop, times)
}

/// The text with the part so often.
fn text(alloc: Global, nesting: &Nesting, times: usize) -> Result<String, Fail> {
    let (before, behind) = nesting.outer.split_once('_').ok_or(nesting.outer)?;
    let mut text = String::from_str(alloc, before)?;
    push_nested(&mut text, nesting, times)?;
    text.push_str(behind)?;
    Ok(text)
}

/// What is answered for the text with the part so often.
fn answer_with(alloc: Global, nesting: &Nesting, times: usize) -> Result<&'static str, Fail> {
    answer(alloc, text(alloc, nesting, times)?.as_str())
}

/// What is answered at a limit, and past it.
pub(crate) fn answers(alloc: Global, text: &str) -> Result<String, Fail> {
    let nesting = read_nesting(text).ok_or(text)?;
    let at = answer_with(alloc, &nesting, nesting.times)?;
    let past = answer_with(alloc, &nesting, nesting.times.saturating_add(1))?;
    Ok(format!(in alloc; "{at}, and once more {past}")?)
}

/// The call of this name.
fn call(name: &str) -> Option<Call> {
    match name {
        "Derive" => Some(Call::Derive),
        "Metas" => Some(Call::Metas),
        "Path" => Some(Call::Path),
        "Expr" => Some(Call::Expr),
        "Predicates" => Some(Call::Predicates),
        _ => None,
    }
}

/// The part of this name.
fn part(name: &str) -> Option<Part> {
    match name {
        "Type" => Some(Part::Type),
        "Params" => Some(Part::Params),
        "Path" => Some(Part::Path),
        "Predicates" => Some(Part::Predicates),
        "Expr" => Some(Part::Expr),
        _ => None,
    }
}

/// The call with a budget and the nesting that a text says.
fn read_within(text: &str) -> Option<(Call, Nesting<'_>)> {
    let (name, rest) = text.split_once(" within ")?;
    let (budget, rest) = rest.split_once(", ")?;
    let budget = budget.parse::<u32>().ok()?;
    Some((Call::Within(part(name)?, budget), read_nesting(rest)?))
}

/// The call and the nesting that a text says.
fn read_call(text: &str) -> Option<(Call, Nesting<'_>)> {
    let (name, rest) = text.split_once(' ')?;
    Some((call(name)?, read_nesting(rest)?))
}

/// The tokens of the part so often around the innermost text.
fn inner(alloc: Global, nesting: &Nesting, times: usize) -> Result<Seq<Token>, Fail> {
    let mut inner = String::new(alloc);
    push_nested(&mut inner, nesting, times)?;
    lexed(alloc, inner.as_str())
}

/// Appends a token, or others in the place of `_`.
fn place(
    alloc: Global,
    tokens: &mut Seq<Token>,
    token: Token,
    inner: &Seq<Token>,
) -> Result<(), AllocError> {
    if token.spelling.is("_") {
        tokens.append(inner.duplicate(alloc)?)
    } else {
        tokens.push(token)
    }
}

/// The tokens of a text with others in the place of `_`.
fn placed(alloc: Global, outer: &str, inner: &Seq<Token>) -> Result<TokenSlice, Fail> {
    let mut tokens = Seq::new(alloc);
    for token in lexed(alloc, outer)?.into_items() {
        place(alloc, &mut tokens, token, inner)?;
    }
    Ok(TokenSlice::new(alloc, tokens)?)
}

/// How a call rejects the text with the part so often, if it does. The lexer, which rejects as many
/// brackets as the parser, reads the text and the parts apart.
fn refusal_with(
    alloc: Global,
    call: Call,
    nesting: &Nesting,
    times: usize,
) -> Result<Refusal, Fail> {
    let inner = inner(alloc, nesting, times)?;
    Ok(refusal_of(alloc, call, &placed(alloc, nesting.outer, &inner)?))
}

/// How far a rejection is behind a place.
fn behind(refusal: Refusal, place: usize) -> Option<(&'static str, usize)> {
    let (kind, (start, _)) = refusal?;
    Some((kind_name(kind), (start as usize).checked_sub(place)?))
}

/// How a call rejects the text with the part once too often: so far behind the start of the last part.
fn refused_past(alloc: Global, call: Call, nesting: &Nesting) -> Result<String, Fail> {
    let times = nesting.times.saturating_add(1);
    let last = nesting.times.saturating_mul(nesting.start.len());
    let refusal = refusal_with(alloc, call, nesting, times)?;
    let (name, behind) = behind(refusal, last).ok_or(nesting.outer)?;
    Ok(format!(in alloc; "{name} at {behind}")?)
}

/// A call reads the text with the part so often, and rejects it with the part once more.
pub(crate) fn refused_at(alloc: Global, row: &str) -> Result<String, Fail> {
    let (call, nesting) = read_within(row).or(read_call(row)).ok_or(row)?;
    check_at(
        row,
        refusal_with(alloc, call, &nesting, nesting.times)?,
        None,
    )?;
    refused_past(alloc, call, &nesting)
}

static DEFINITIONS: &str = r#"
127 times (_) around A in struct S { a: _ }
127 times [_] around A in struct S { a: _ }
127 times [_; 1] around A in struct S { a: _ }
127 times &_ around A in struct S { a: _ }
127 times &'a mut _ around A in struct S { a: _ }
127 times *const _ around A in struct S { a: _ }
127 times A<_> around B in struct S { a: _ }
127 times A::<_> around B in struct S { a: _ }
127 times <_>::B around A in struct S { a: _ }
127 times fn() -> _ around A in struct S { a: _ }
127 times fn(_) around A in struct S { a: _ }
127 times F() -> _ around A in struct S { a: _ }
127 times F(_) around A in struct S { a: _ }
: Ok, and once more TooDeep

63 times dyn F() -> _ around A in struct S { a: _ }
63 times A<{ 1 as _ }> around B in struct S { a: _ }
63 times (&_) around A in struct S { a: _ }
: Ok, and once more TooDeep

128 times &_ around A in struct S where _: B;
128 times (_) around A in struct S where _: B;
128 times A<_> around B in struct S where _: B;
: Ok, and once more TooDeep

128 times A<_> around B in struct S where A: _;
128 times F(_) around B in struct S where A: _;
: Ok, and once more TooDeep

127 times (_) around 1 in enum E { A = _ }
127 times f(_) around 1 in enum E { A = _ }
127 times a[_] around 1 in enum E { A = _ }
127 times A { b: _ } around 1 in enum E { A = _ }
127 times A { .._ } around 1 in enum E { A = _ }
127 times (-_) around 1 in enum E { A = _ }
: Ok, and once more TooDeep

127 times (_) in enum E { A = m!_ }
127 times [_] in enum E { A = m!_ }
127 times {_} in enum E { A = m!_ }
: Ok, and once more TooDeep

127 times (_) in #[a_ ] struct S;
127 times [_] in #[a_ ] struct S;
127 times {_} in #[a_ ] struct S;
: Ok, and once more TooDeep

128 times -_ around 1 in enum E { A = _ }
128 times &mut _ around 1 in enum E { A = _ }
128 times _ + 1 around 1 in enum E { A = _ }
128 times _.b around a in enum E { A = _ }
128 times _ as u8 around a in enum E { A = _ }
128 times _() around f in enum E { A = _ }
128 times _[1] around a in enum E { A = _ }
: Ok, and once more TooDeep

1000 times _, A around A in struct S(_);
1000 times _::A around A in struct S(_);
1000 times _<B>::C around A in struct S(_);
: Ok, and once more Ok
"#;

static PARTS: &str = r#"
Derive 127 times (_) around A in struct S(_);
Derive 127 times (_) around A in struct S { a: _ }
Derive 127 times &_ around A in struct S<T = _>;
Derive 127 times (_) around A in struct S<const N: _>;
Derive 126 times (_) around 1 in struct S<const N: A={_}>;
Derive 126 times (_) around A in enum E { A(_) }
Derive 126 times &_ around A in enum E { A(_) }
Derive 126 times (_) around A in enum E { A { a: _ } }
Derive 126 times &_ around A in enum E { A { a: _ } }
Derive 127 times (_) around 1 in enum E { A = _ }
Derive 126 times (_) in enum E { A = m!(_) }
Derive 126 times (_) in #[a(_)] struct S;
Derive 127 times (_) in #[a = _] struct S;
: TooDeep at 0

Derive 126 times (_) around dyn A in struct S(_);
Derive 127 times A<_> around B in struct S<T: _>;
Derive 126 times A<_> around B in enum E { A = a::<_> }
: TooDeep at 1

Derive 63 times dyn A<_> around B in struct S(_);
Derive 125 times (_) around dyn (A) in struct S(_);
: TooDeep at 5

Derive 125 times (_) around dyn for<'a> A in struct S(_);
: TooDeep at 8

Derive 126 times (_) around for<'a> fn() in struct S(_);
Derive 63 times a::<{ _ }> around 1 in enum E { A = _ }
Derive 126 times (_) around a::<B> in enum E { A = _ }
: TooDeep at 4

Derive 126 times (_) around fn() in struct S(_);
: TooDeep at 3

Derive 63 times a.b::<{_}>() around 1 in enum E { A = _ }
Derive 126 times (_) around a.b::<B>() in enum E { A = _ }
: TooDeep at 6

Metas 127 times (_) in a(_)
Metas 127 times [_] in a[_]
Metas 127 times {_} in a{_}
Metas 127 times [_] in a, b(_)
Metas 127 times (_) around 1 in a = (_)
Metas 127 times (_) in a = m!(_)
Metas 128 times -_ around 1 in a = _
Expr 127 times (_) around 1 in (_)
Expr 127 times [_] in m![_]
Expr 128 times &_ around A in 1 as _
Expr 128 times &mut _ around 1 in _
Path 127 times &_ around A in <_>::a
Path 126 times (_) around 1 in a::<{ _ }>
Predicates 128 times &_ around A in _: A
: TooDeep at 0

Metas 127 times g(_) around 1 in a = f(_)
Metas 127 times A<_> around B in a = <_>::b
Expr 127 times g(_) around 1 in f(_)
Expr 127 times b[_] around 1 in a[_]
Expr 127 times A<_> around B in a::<_>
Path 127 times A<_> around B in <_>::a
Path 127 times A<_> around B in a::<_>
Predicates 128 times B<_> around C in A: _
Predicates 127 times B<_> around C in A: (_)
Predicates 128 times B<_> around C in for<'a> A: _
: TooDeep at 1

Expr 127 times A { b: _ } around 1 in A { b: _ }
: TooDeep at 2

Expr 64 times a::<{ _ }> around 1 in _
: TooDeep at 3

Predicates 126 times B<_> around dyn for<'a> C in A: _
: TooDeep at 9
"#;

static BUDGETS: &str = r#"
Type within 0, 0 times &_ around A in _
Type within 1, 1 times &_ around A in _
Type within 3, 2 times (_) around A in (_)
Type within 127, 126 times (_) around A in (_)
Type within 128, 127 times (_) around A in (_)
Type within 129, 127 times (_) around A in ((_))
Type within 129, 129 times &_ around A in _
Params within 1, 1 times &_ around A in T = _
Params within 3, 2 times (_) around A in 'a, const N: (_), T
Params within 127, 127 times &_ around A in const N: _
Params within 128, 128 times &_ around A in T = _
Params within 129, 129 times &_ around A in T = _,
Path within 1, 0 times &_ around A in <_>::a
Path within 3, 2 times &_ around A in <_>::a
Path within 128, 127 times &_ around A in <_>::a
Path within 129, 128 times &_ around A in <_>::a
Predicates within 0, 0 times &_ around A in _: B
Predicates within 3, 3 times &_ around A in 'a: 'b, _: B
Predicates within 128, 128 times &_ around A in _: B,
Predicates within 129, 129 times &_ around A in _: B
Expr within 1, 0 times (_) around 1 in (_)
Expr within 3, 2 times (_) around 1 in (_)
Expr within 128, 127 times (_) around 1 in (_)
Expr within 129, 127 times (_) around 1 in ((_))
Expr within 129, 128 times -_ around 1 in _
: TooDeep at 0

Params within 1, 1 times A<_> around B in T: _
Params within 128, 128 times A<_> around B in T: _
Params within 129, 129 times A<_> around B in T: _
Path within 3, 2 times A<_> around B in a::<_>
Path within 128, 127 times A<_> around B in a::<_>
Path within 129, 128 times A<_> around B in a::<_>
Predicates within 3, 3 times A<_> around B in T: _
Predicates within 129, 129 times A<_> around B in T: _
: TooDeep at 1
"#;

#[test]
fn budgets_are_just_enough_or_one_too_small(rt: HostRuntime) -> Result<(), Fail> {
    check(rt.alloc(), Asked::LimitOfCall, BUDGETS)
}

#[test]
fn what_nests_has_a_limit_and_lists_have_none(rt: HostRuntime) -> Result<(), Fail> {
    check(rt.alloc(), Asked::Limit, DEFINITIONS)?;
    check(rt.alloc(), Asked::LimitOfCall, PARTS)
}
