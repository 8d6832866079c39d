//! Names that are no words of an input.
ghost use Rattle.std.specs.Prelude.{IsTrue};
ghost use Rattle.educe_tokens.specs.Quote.{is_ascii_name};

use educe_body::UsedIdents;
use educe_tests::{check_at, check_rows, check_text, lexed};
use educe_tokens::Span;
use std::alloc::Global;
use std::test::Fail;

/// The words of a text.
fn words(alloc: Global, source: &str) -> Result<UsedIdents, Fail> {
    let tokens = lexed(alloc, source)?;
    Ok(UsedIdents::new(alloc, tokens.as_slice())?)
}

/// The identifier that is chosen for a name stands nowhere.
#[tactic(auto, using(educe_body::specs::NameLaws::ascii_is_word))]
fn selected(alloc: Global, used: &mut UsedIdents, name: &str) -> Result<String, Fail>
    requires { IsTrue (is_ascii_name name.now) }
{
    let ident = used.select(alloc, name)?;
    check_at(name, ident.span, Span::NONE)?;
    Ok(String::from_str(alloc, ident.text.as_str())?)
}

/// The identifier that is chosen for a name is this.
fn check_select(
    alloc: Global,
    used: &mut UsedIdents,
    name: &str,
    expected: &str,
) -> Result<(), Fail>
    requires { IsTrue (is_ascii_name name.now) }
{
    check_text(selected(alloc, used, name)?, expected)
}

/// The prefix that is chosen for a name is this.
fn check_prefix(alloc: Global, used: &UsedIdents, name: &str, expected: &str) -> Result<(), Fail> {
    check_text(used.select_prefix(alloc, name)?, expected)
}

/// The name that is chosen for `other` beside the words of a text.
fn other(alloc: Global, source: &str) -> Result<String, Fail> {
    selected(alloc, &mut words(alloc, source)?, "other")
}

static OTHERS: &str = r##"
∅
struct S { a: u8 }
_other
others another r#others
"another" "other_"
b"other"
// other␊a
: other

struct S { a: u8, other: u8 }
r#other
&'other x
#[a = "x::other(1)"]
r#"[other]"#
"x \x6fther"
/// the other one␊a
__other other
other others _others
: _other

other _other
: __other

"other" '_other r#__other
: ___other
"##;

#[test]
fn chooses_names_that_are_no_words(rt: HostRuntime) -> Result<(), Fail> {
    check_rows(rt.alloc(), other, OTHERS)
}

/// The prefix that is chosen for `_s_` beside the words of a text.
fn prefix(alloc: Global, source: &str) -> Result<String, Fail> {
    Ok(words(alloc, source)?.select_prefix(alloc, "_s_")?)
}

static PREFIXES: &str = r#"
∅
_s s_ _o_a a_s_
__s_x
: _s_

_s_
_s_a
r#_s_1
'_s_a
"a _s_x"
/// _s_x␊a
: __s_

__s_x _s_y
: ___s_
"#;

#[test]
fn chooses_prefixes_of_no_words(rt: HostRuntime) -> Result<(), Fail> {
    check_rows(rt.alloc(), prefix, PREFIXES)
}

/// So many `_`.
fn underscores(alloc: Global, count: usize) -> Result<String, Fail> {
    let mut text = String::new(alloc);
    for _turn in 0..count {
        text.push('_')?;
    }
    Ok(text)
}

/// No name is chosen twice.
fn check_twice(alloc: Global, used: &mut UsedIdents) -> Result<(), Fail> {
    check_select(alloc, used, "other", "other")?;
    check_select(alloc, used, "other", "_other")?;
    check_select(alloc, used, "_other", "___other")?;
    check_select(alloc, used, "this", "this")
}

#[test]
fn chooses_no_name_twice(rt: HostRuntime) -> Result<(), Fail> {
    let alloc = rt.alloc();
    check_twice(alloc, &mut words(alloc, "__other")?)
}

/// Prefixes are no beginnings of names that were chosen.
fn check_seen(alloc: Global, used: &mut UsedIdents) -> Result<(), Fail> {
    check_prefix(alloc, used, "_s_", "_s_")?;
    check_select(alloc, used, "_s_a", "_s_a")?;
    check_prefix(alloc, used, "_s_", "__s_")?;
    check_prefix(alloc, used, "_o_", "_o_")
}

#[test]
fn prefixes_see_names(rt: HostRuntime) -> Result<(), Fail> {
    let alloc = rt.alloc();
    check_seen(alloc, &mut words(alloc, "a")?)
}

/// Behind a word of `_`, one `_` more is a prefix of none; names of fewer are free.
fn check_underscores(alloc: Global, used: &mut UsedIdents, more: &str) -> Result<(), Fail> {
    check_prefix(alloc, used, "_", more)?;
    check_select(alloc, used, "_", "_")?;
    check_select(alloc, used, "_", "__")
}

#[test]
fn stands_behind_many_underscores(rt: HostRuntime) -> Result<(), Fail> {
    let alloc = rt.alloc();
    let many = underscores(alloc, 2000)?;
    let more = underscores(alloc, 2001)?;
    check_underscores(alloc, &mut words(alloc, &many)?, &more)
}
