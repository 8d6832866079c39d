//! Token lists that may be printed anywhere.
ghost use Rattle.std.specs.Prelude.{◌≡◌, IsTrue, IfOk};
ghost use Rattle.educe_tokens.specs.Appends.{LieNowhere};
ghost use Rattle.educe_tokens.specs.Copied.{copied, may_be_copied};
ghost use Rattle.educe_tokens.specs.Text.{is_written};
ghost use Rattle.educe_tokens.specs.Lexes.{lexemes};
ghost use Rattle.educe_tokens.specs.Quote.{quoted, is_template};

use crate::slice::TokenSlice;
use crate::stream::TokenStream;
use crate::template::quote;
use std::alloc::{AllocError, Global};

/// Tokens as they were written: their brackets close in order, and none is documentation. The list
/// may be empty, and the last token may be joint; it is printed as not joint.
#[derive(Drop)]
pub struct Written {
    pub tokens: TokenSlice,
    pub ghost written: { IsTrue (may_be_copied (lexemes tokens)) },
}

impl Written {
    /// The tokens as they are.
    pub fn new(tokens: TokenSlice) -> Written
        requires { IsTrue (may_be_copied (lexemes tokens)) }
        ensures { result.tokens ≡ tokens }
    {
        Written { tokens }
    }

    /// The tokens of a template that stands for itself, whose spans are `Span::NONE`.
    pub fn from_template(alloc: Global, template: &'static str) -> Result<Written, AllocError>
        requires is_template { IsTrue (is_template template.now) }
        requires written { IsTrue (is_written (quoted template.now)) }
        ensures quoted { IfOk result (λ written. lexemes written.tokens ≡ quoted template.now) }
        ensures printed { IfOk result (λ written. copied (lexemes written.tokens) ≡ quoted template.now) }
        ensures nowhere { IfOk result (λ written. LieNowhere written.tokens) }
    {
        let mut tokens = TokenStream::new(alloc);
        quote(alloc, &mut tokens, template)?;
        let tokens = tokens.into_slice(alloc)?;
        Ok(Written { tokens })
    }

    /// The tokens as a slice.
    pub fn tokens(&self) -> &TokenSlice
        ensures { result.now ≡ self.now.tokens }
    {
        &self.tokens
    }

    /// Equal tokens, their spans included, which share the list. No token is copied.
    pub fn duplicate(&self) -> Result<Written, AllocError>
        ensures { IfOk result (λ written. written ≡ self.now) }
    {
        let tokens = self.tokens.duplicate()?;
        Ok(Written { tokens })
    }
}
