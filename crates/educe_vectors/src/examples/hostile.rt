//! Worked examples of hostile texts: names that clash with those that impls choose, nesting and chains at
//! their limits and one past them, wrong forms of attributes, and texts that end too early.

use crate::program::{Case, shown};
use crate::tables::check_table;
use educe_tests::{check_at, check_rows};
use std::alloc::{AllocError, Global};
use std::test::Fail;

static CLASHES: &str = r#"
a method that has the name of the function of discriminants
#[educe(Ord)] enum E { A(#[educe(Ord(method(discriminant)))] u8) }
: holds let _discriminant = | this : & Self |
: holds match :: core :: cmp :: Ord :: cmp ( & _discriminant ( self ) , & _discriminant ( other ) ) {
: holds match discriminant ( _s_0 , _o_0 ) {

a constant that has the name of a base
#[educe(PartialOrd)] enum E { A = base, B }
: holds Self :: A => const { base } , Self :: B => const { let _base : :: core :: primitive :: isize = base ; _base . wrapping_add ( 1usize as :: core :: primitive :: isize ) } ,

a lifetime that has the name of the hasher
#[educe(Hash)] struct S<'state, 'H> { a: &'state &'H u8 }
: holds fn hash < _H : :: core :: hash :: Hasher > ( & self , _state : & mut _H ) {

documentation that has the names of a formatter and a builder
/// f, and then the builder.
#[educe(Debug)] struct S { a: u8 }
: holds fn fmt ( & self , _f : & mut :: core :: fmt :: Formatter < '_ > )
: holds let mut _builder = _f . debug_struct ( "S" ) ;

a struct, a field, a type and a method that have the names of a helper type's parts
#[educe(Debug)] struct Educe__DebugField { #[educe(Debug(method = educe__value))] V: F }
: holds struct _Educe__DebugField < 'a , _V : ? Sized , _F > ( & 'a _V , _F ) ;
: holds _Educe__DebugField ( & self . V , | _educe__value : & F , educe__formatter :
: holds | educe__value ( _educe__value , educe__formatter ) ) } ;

a field that has the name of what is cloned from
#[educe(Clone)] struct S { source: u8 }
: holds fn clone_from ( & mut self , _source : & Self ) {

a struct and a field that have the names of a check's functions
#[educe(Eq)] struct __educe_eq_fields { __educe_assert_eq: u8 }
: holds fn ___educe_eq_fields ( ) {
: holds ___educe_assert_eq :: < u8 > ( ) ;

a parameter that has the name of a check's parameter
#[educe(Eq)] struct S<T, _T>(T, _T);
: holds fn __educe_assert_eq < __T : ? Sized + :: core :: cmp :: Eq > ( ) { }
"#;

#[test]
fn chosen_names_are_no_words_of_the_text(rt: HostRuntime) -> Result<(), Fail> {
    check_table(rt.alloc(), CLASHES)
}

/// A part that stands so often in itself around an innermost text, in the place of the `_` of an outer text.
#[derive(Clone, Copy)]
struct Nesting<'a> {
    times: usize,
    start: &'a str,
    stop: &'a str,
    inside: &'a str,
    outer: &'a str,
}

/// The nesting that a text says, as `127 times (_) around u8 in struct S(_);`.
fn read_nesting(text: &str) -> Option<Nesting<'_>> {
    let (times, rest) = text.split_once(" times ")?;
    let (part, outer) = rest.split_once(" in ")?;
    let (around, inside) = part.split_once(" around ")?;
    let (start, stop) = around.split_once('_')?;
    let times = times.parse::<usize>().ok()?;
    Some(Nesting {
        times,
        start,
        stop,
        inside,
        outer,
    })
}

/// Appends a part so often.
fn push_times(text: &mut String, part: &str, times: usize) -> Result<(), AllocError> {
    for _ in 0..times {
        text.push_str(part)?;
    }
    Ok(())
}

/// The text with the part so often.
fn nested(alloc: Global, nesting: &Nesting, times: usize) -> Result<String, Fail> {
    let (before, behind) = nesting.outer.split_once('_').ok_or(nesting.outer)?;
    let mut text = String::from_str(alloc, before)?;
    push_times(&mut text, nesting.start, times)?;
    text.push_str(nesting.inside)?;
    push_times(&mut text, nesting.stop, times)?;
    text.push_str(behind)?;
    Ok(text)
}

/// How the program ends over a source: `expands`, or its notes without the end of their last line.
fn ended(alloc: Global, source: &str) -> Result<String, Fail> {
    let found = Case::of(source.as_bytes(), 0, "", "").outcome(alloc)?;
    if found.code == 0 {
        return Ok(String::from_str(alloc, "expands")?);
    }
    let notes = shown(found.notes.bytes());
    check_at(notes, found.code, 1)?;
    check_at(notes, shown(found.text.bytes()), "")?;
    let line = notes.strip_suffix('\n').ok_or("no end of line")?;
    Ok(String::from_str(alloc, line)?)
}

/// How the program ends at a limit, and past it.
fn ends(alloc: Global, text: &str) -> Result<String, Fail> {
    let nesting = read_nesting(text).ok_or(text)?;
    let last = nested(alloc, &nesting, nesting.times)?;
    let past = nested(alloc, &nesting, nesting.times.saturating_add(1))?;
    let last = ended(alloc, last.as_str())?;
    let past = ended(alloc, past.as_str())?;
    Ok(format!(in alloc; "{last}, and once more {past}")?)
}

static DEEP: &str = r#"
127 times Box<_> around u8 in #[educe(Clone)] struct S { a: _ }
: expands, and once more 1:542: nested too deeply

127 times (_) around u8 in #[educe(Clone)] struct S { a: _ }
: expands, and once more 1:158: nested too deeply

127 times [_; 1] around u8 in #[educe(PartialEq, Eq)] struct S { a: _ }
: expands, and once more 1:166: nested too deeply

127 times &_ around T in #[educe(PartialEq, Eq)] struct S<T> { a: _ }
: expands, and once more 1:169: nested too deeply

127 times Vec<_> around T in #[educe(PartialEq, Eq)] struct S<T> { a: _ }
: expands, and once more 1:553: nested too deeply

127 times *const _ around u8 in #[educe(Debug)] struct S { a: _ }
: expands, and once more 1:920: nested too deeply

127 times fn(_) around u8 in #[educe(Hash)] struct S { a: _ }
: expands, and once more 1:413: nested too deeply

127 times fn() -> _ around u8 in #[educe(Hash)] struct S { a: _ }
: expands, and once more 1:1048: nested too deeply

63 times dyn F() -> _ around u8 in #[educe(Hash)] struct S { a: _ }
: expands, and once more 1:728: nested too deeply

128 times &_ around u8 in #[educe(PartialEq)] struct S where _: B { a: u8 }
: expands, and once more 1:164: nested too deeply

128 times &_ around u8 in #[educe(PartialEq(bound = "_: C"))] struct S { a: u8 }
: expands, and once more 1:27: nested too deeply

128 times &_ around u8 in #[educe(PartialEq(bound(_: C)))] struct S { a: u8 }
: expands, and once more 1:153: nested too deeply

127 times X<_> around u8 in #[educe(PartialEq)] struct S { #[educe(PartialEq(method(f::<_>)))] a: u8 }
: expands, and once more 1:316: nested too deeply

128 times !_ around true in #[educe(Default)] struct S { #[educe(Default = _)] a: bool }
: expands, and once more 1:176: nested too deeply

128 times &mut _ around a in #[educe(Default)] struct S { #[educe(Default = _)] a: bool }
: expands, and once more 1:688: nested too deeply

128 times _.b around a in #[educe(Default)] struct S { #[educe(Default = _)] a: bool }
: expands, and once more 1:305: nested too deeply

128 times _() around f in #[educe(Default)] struct S { #[educe(Default = _)] a: bool }
: expands, and once more 1:305: nested too deeply

128 times _[0] around a in #[educe(Default)] struct S { #[educe(Default = _)] a: bool }
: expands, and once more 1:433: nested too deeply

128 times _ + 1 around 1 in #[educe(Default)] struct S { #[educe(Default = _)] a: bool }
: expands, and once more 1:562: nested too deeply

128 times _ as u8 around 1 in #[educe(Default)] struct S { #[educe(Default = _)] a: bool }
: expands, and once more 1:818: nested too deeply

125 times (_) around 1 in #[educe(Default)] struct S { #[educe(Default = _)] a: bool }
: expands, and once more 1:173: nested too deeply

125 times f(_) around 1 in #[educe(Default)] struct S { #[educe(Default = _)] a: bool }
: expands, and once more 1:299: nested too deeply

128 times -_ around 1 in #[educe(Ord)] enum E { A = _ }
: expands, and once more 1:156: nested too deeply

127 times A { b: _ } around 1 in #[educe(Ord)] enum E { A = _ }
: expands, and once more 1:919: nested too deeply
"#;

#[test]
fn nesting_and_chains_have_limits(rt: HostRuntime) -> Result<(), Fail> {
    check_rows(rt.alloc(), ends, DEEP)
}

static FORMS: &str = r#"
a bound without a value
#[educe(PartialEq(bound))] struct S { a: u8 }
: rejected 1:19: expected `bound = "where_predicates"`, `bound(where_predicates)`, `bound(*)`, `bound = false`, or `bound(false)`

a number in place of a name
#[educe(Debug(name = 1))] struct S { a: u8 }
: rejected 1:22: expected `name = Ident` or `name = false`

a trait twice
#[educe(Debug, Debug)] struct S { a: u8 }
: rejected 1:16: the trait `Debug` is used repeatedly

a trait at a field that the type does not list
#[educe(PartialEq)] struct S { #[educe(Eq)] a: u8 }
: rejected 1:40: the trait `Eq` is not used

a trait behind the name of a crate
#[educe(std::Debug)] struct S { a: u8 }
: rejected 1:9: unsupported trait `std::Debug`, available traits:
    Debug
    Clone
    Copy
    PartialEq
    Eq
    PartialOrd
    Ord
    Hash
    Default

a rank of 64 bits, of which none is the sign
#[educe(Ord)] struct S { #[educe(Ord(rank = 9223372036854775808))] a: u8 }
: rejected 1:45: expected `rank = integer`

a C string
#[educe(Default)] struct S { #[educe(Default = c"a")] a: u8 }
: rejected 1:48: `c"a"` is not supported

the largest integer
#[educe(Default)] struct S { #[educe(Default = 340282366920938463463374607431768211455)] a: u128 }
: expands

the first integer past 128 bits
#[educe(Default)] struct S { #[educe(Default = 340282366920938463463374607431768211456)] a: u128 }
: rejected 1:48: `340282366920938463463374607431768211456` is not supported
"#;

#[test]
fn wrong_forms_are_rejected(rt: HostRuntime) -> Result<(), Fail> {
    check_table(rt.alloc(), FORMS)
}

/// The source is rejected as no text of a definition, whatever the place.
fn check_syntax(alloc: Global, source: &[u8]) -> Result<(), Fail> {
    let found = Case::of(source, 1, "", "").outcome(alloc)?;
    let notes = shown(found.notes.bytes());
    check_at(shown(source), found.code, 1)?;
    check_at(shown(source), shown(found.text.bytes()), "")?;
    check_at(shown(source), notes.ends_with(": syntax error\n"), true)
}

/// Each front of a source is rejected, the empty one included, but the whole source.
fn check_fronts(alloc: Global, source: &[u8]) -> Result<(), Fail> {
    for end in 0..source.len() {
        let front = source.get(..end).ok_or(shown(source))?;
        check_syntax(alloc, front)?;
    }
    Ok(())
}

#[test]
fn a_text_that_ends_too_early_is_rejected(rt: HostRuntime) -> Result<(), Fail> {
    check_fronts(rt.alloc(), b"#[educe(PartialEq)] struct S { a: u8 }")
}
