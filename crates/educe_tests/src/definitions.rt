//! The definition that a text is.
ghost use Rattle.std.specs.Prelude.{IfOk, chars};
ghost use Rattle.educe_tokens.specs.Lexes.{Lexes};
ghost use Rattle.educe_syntax.specs.Definitions as definitions;
ghost use Rattle.educe_syntax.specs.Naming.{AreNamesApart};
ghost use Rattle.educe_syntax.specs.Parsed.{IsWhole};

use crate::answers::found;
use crate::lexing::lexed_slice;
use educe_syntax::{DeriveInput, parse_derive_input};
use std::alloc::Global;
use std::test::Fail;

/// The definition that a text is.
pub fn definition(alloc: Global, text: &str) -> Result<DeriveInput, Fail>
    ensures reads { IfOk result (λ ast. (tokens : _) × Lexes (chars text.now) tokens
        × IsWhole definitions.definition tokens ast) }
    ensures apart { IfOk result AreNamesApart }
{
    found(parse_derive_input(alloc, &lexed_slice(alloc, text)?))
}
