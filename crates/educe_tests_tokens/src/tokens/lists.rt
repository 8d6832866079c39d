//! Lists that grow and shrink at their end.

use educe_tests::check_text;
use educe_tokens::{Numbers, Seq};
use std::alloc::{AllocError, Global};
use std::test::Fail;

/// The number that is taken from the end of a list, and how many are left.
fn taken(alloc: Global, numbers: &mut Numbers) -> Result<String, AllocError> {
    match numbers.pop() {
        Some(number) => format!(in alloc; "{number}, {} left", numbers.len()),
        None => format!(in alloc; "none, {} left", numbers.len()),
    }
}

#[test]
fn takes_the_last(rt: HostRuntime) -> Result<(), Fail> {
    let alloc = rt.alloc();
    let mut numbers: Numbers = Seq::new(alloc);
    numbers.push(7)?;
    numbers.push(8)?;
    check_text(taken(alloc, &mut numbers)?, "8, 1 left")?;
    check_text(taken(alloc, &mut numbers)?, "7, 0 left")?;
    check_text(taken(alloc, &mut numbers)?, "none, 0 left")
}
