//! The input of a parser: the tokens that are left, and what was noted of those already read.

ghost use Rattle.std.specs.Prelude.{◌≡◌, []};

use crate::cursor::Cursor;
use educe_tokens::{Seq, TokenSlice};
use std::alloc::Global;

/// A path that begins with `Self`: how many tokens are left at its beginning, after its first
/// segment, and after it (Rust Reference, Paths).
#[derive(Clone, Copy)]
pub struct SelfPath {
    pub start: usize,
    pub first: usize,
    pub behind: usize,
}

/// A cursor, with the paths that begin with `Self` among the tokens already read, in the order of
/// their ends.
#[derive(Drop)]
pub struct ParseStream<'a> {
    pub cursor: Cursor<'a>,
    pub selves: Seq<SelfPath>,
}

impl<'a> ParseStream<'a> {
    /// A stream at the first token, with no path noted.
    pub fn new(alloc: Global, tokens: &'a TokenSlice) -> ParseStream<'a>
        ensures cursor { result.cursor ≡ tokens.now }
        ensures selves { result.selves ≡ [] }
    {
        ParseStream {
            cursor: Cursor::new(tokens),
            selves: Seq::new(alloc),
        }
    }
}
