//! The printed text of tokens.

use crate::answers::{Call, check};
use educe_tests::check_text;
use educe_tokens::{TokenStream, quote, text};
use std::alloc::{AllocError, Global};
use std::test::Fail;

/// The printed text of a template.
fn quoted(alloc: Global) -> Result<String, AllocError> {
    let mut tokens = TokenStream::new(alloc);
    quote(alloc, &mut tokens, "# [ a :: b ]")?;
    text(alloc, &tokens)
}

static PRINTED: &str = r#"
a/* x /* y */ */b
: a b

1..2
: 1 .. 2

<<'a>::é(r#fn,"\u{41}")-1u8 // x
: << 'a >:: é ( r#fn , "\u{41}" ) - 1u8
"#;

#[test]
fn one_space_between_tokens(rt: HostRuntime) -> Result<(), Fail> {
    check_text(quoted(rt.alloc())?, "# [ a :: b ]")?;
    check(rt.alloc(), Call::Printed, PRINTED)
}
