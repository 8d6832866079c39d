//! Token lists by numbers.

use educe_tests::{check_rows, lexed};
use educe_tokens::{Seq, Token};
use educe_tokens_interner::{Interner, are_same};
use std::alloc::{AllocError, Global};
use std::test::Fail;

/// The number of a list that was interned, and how often an equal list stands there.
fn number_words(
    alloc: Global,
    interner: &Interner,
    number: usize,
    list: &Seq<Token>,
) -> Result<String, AllocError> {
    let found = interner.find(list.as_slice())?;
    let same = match interner.get(number) {
        Some(held) => are_same(alloc, held.as_slice(), list.as_slice())?,
        None => false,
    };
    format!(in alloc; "{number} {} {same}", found == Some(number))
}

/// The numbers of the lists of a text, which are interned one after the other: each with whether the list is found
/// under it, and whether an equal list stands there; and in the last line how many lists there are.
fn interned(alloc: Global, text: &str) -> Result<String, Fail> {
    let mut interner = Interner::new(alloc);
    let mut words = String::new(alloc);
    for source in text.split("; ") {
        let list = lexed(alloc, source)?;
        let number = interner.intern(&list)?;
        let line = number_words(alloc, &interner, number, &list)?;
        drop(list);
        writeln!(words, "{line}")?;
    }
    write!(words, "{}", interner.len())?;
    drop(interner);
    Ok(words)
}

/// Lists, and their numbers.
static INTERNED: &str = r#"
T : Clone; U : Clone; T:Clone
: 0 true true
1 true true
0 true true
2

a b; ab; "ab"; a b; 'a' b
: 0 true true
1 true true
2 true true
0 true true
3 true true
4
"#;

#[test]
fn equal_lists_have_one_number(rt: HostRuntime) -> Result<(), Fail> {
    check_rows(rt.alloc(), interned, INTERNED)
}
