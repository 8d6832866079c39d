//! Words of tokens.

use educe_body::has_word;
use educe_tests::{check_equal, check_rows, lexed};
use std::alloc::Global;
use std::test::Fail;

/// Whether the tokens of a text have a word.
fn has(alloc: Global, source: &str, word: &str) -> Result<bool, Fail> {
    let tokens = lexed(alloc, source)?;
    Ok(has_word(alloc, tokens.as_slice(), word)?)
}

/// Whether the tokens of a text have the word `other`.
fn has_other(alloc: Global, source: &str) -> Result<String, Fail> {
    Ok(has(alloc, source, "other")?.to_string(alloc)?)
}

static WORDS: &str = r##"
struct S { a: u8, other: u8 }
r#other
&'other x
#[a = "x::other(1)"]
"other"
r#"[other]"#
"x \x6fther"
/// the other one␊a
/** other */
: true

∅
others another r#others
'others
"another"
"other_"
"\u{e9}other other1"
b"other"
/// another
// other␊a
: false
"##;

#[test]
fn finds_words_but_no_parts_of_words(rt: HostRuntime) -> Result<(), Fail> {
    check_rows(rt.alloc(), has_other, WORDS)
}

#[test]
fn no_word_is_empty(rt: HostRuntime) -> Result<(), Fail> {
    check_equal(has(rt.alloc(), "a \"\" \"b c\"", "")?, false)
}
