//! Parts of token lists that several owners share.
ghost use Rattle.std.specs.Prelude.{◌≡◌, ◌-◌, ◌==◌, ◌≤◌, IfOk, length, take, drop};

use crate::seq::Seq;
use crate::token::Token;
use std::alloc::{AllocError, Global};
use std::marker::Model;
use std::rc::Rc;

/// A part of a token list that several owners share. A contract sees the tokens of the part, and
/// neither the list around it nor who shares it.
#[derive(Drop)]
pub struct TokenSlice {
    list: Rc<Seq<Token>>,
    start: usize,
    end: usize,
}

impl Model for TokenSlice {
    ghost use Rattle.std.specs.Prelude.{List, ◌^◌, ◌<◌, ◌≤◌, length, slice_range};
    ghost use Rattle.educe_tokens.specs.declared.token.Token.{Token};

    ghost Value = { List Token };

    ghost view = { λ slice. slice_range slice.list.value slice.start slice.end };

    ghost invariant = { λ slice. (slice.start ≤ slice.end) × (slice.end ≤ length slice.list.value)
        × (slice.end < 2 ^ 64) };
}

impl TokenSlice {
    /// A slice of all tokens of a list, which is moved.
    pub fn new(alloc: Global, tokens: Seq<Token>) -> Result<TokenSlice, AllocError>
        ensures { IfOk result (λ slice. slice ≡ tokens) }
    {
        let end = tokens.len();
        let list = Rc::new(alloc, tokens)?;
        Ok(TokenSlice {
            list,
            start: 0,
            end,
        })
    }

    /// The number of tokens.
    pub fn len(&self) -> usize
        ensures { result ≡ length self.now }
    {
        self.end - self.start
    }

    /// Whether there is no token.
    pub fn is_empty(&self) -> bool
        ensures { result ≡ (length self.now == 0) }
    {
        self.len() == 0
    }

    /// The tokens as a slice of the list.
    pub fn as_slice(&self) -> &[Token]
        ensures { result.now ≡ self.now }
    {
        let tokens: &Seq<Token> = &self.list;
        &tokens.as_slice()[self.start..self.end]
    }

    /// The tokens of a range of indices. The list is shared, and no token is copied.
    pub fn part(&self, start: usize, end: usize) -> Result<TokenSlice, AllocError>
        requires start_le_end { start ≤ end }
        requires in_bounds { end ≤ length self.now }
        ensures { IfOk result (λ part. part ≡ take (end - start) (drop start self.now)) }
    {
        let list = self.list.clone()?;
        Ok(TokenSlice {
            list,
            start: self.start + start,
            end: self.start + end,
        })
    }

    /// A second slice of these tokens. The list is shared, and no token is copied.
    pub fn duplicate(&self) -> Result<TokenSlice, AllocError>
        ensures { IfOk result (λ slice. slice ≡ self.now) }
    {
        self.part(0, self.len())
    }
}
