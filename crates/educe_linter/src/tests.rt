//! What the linter finds in texts.
ghost use Rattle.std.specs.Prelude.{◌≤◌, length};

use super::linted;
use educe_tokens::{Kind, SOURCE_LIMIT, TokenSlice, lex};
use std::alloc::Global;

/// Whether the definition of the text is documented, or why the text is rejected.
fn is_text_documented(alloc: Global, text: &str) -> Result<bool, Kind>
    requires { length text.now ≤ SOURCE_LIMIT }
{
    let tokens = lex(alloc, text).map_err(|error| error.kind)?;
    let tokens = TokenSlice::new(alloc, tokens).map_err(|_| Kind::Alloc)?;
    let (_, documented) = linted(alloc, &tokens).map_err(|error| error.kind)?;
    Ok(documented)
}

#[test]
fn finds_documentation(rt: HostRuntime) {
    let alloc = rt.alloc();
    assert_eq!(rt;
        is_text_documented(alloc, "/// A point.\nstruct Point;"),
        Ok(true)
    );
    assert_eq!(rt;
        is_text_documented(alloc, "#[repr(C)] struct Point;"),
        Ok(false)
    );
}

#[test]
fn rejects_what_is_no_definition(rt: HostRuntime) {
    assert_eq!(rt;
        is_text_documented(rt.alloc(), "struct Point"),
        Err(Kind::Syntax)
    );
}
