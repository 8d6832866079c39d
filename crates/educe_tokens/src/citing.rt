//! Rejections that cite a spelling.
ghost use Rattle.educe_tokens.specs.Refusals.{Cites};

use crate::error::{EduceError, Kind};
use crate::span::Span;
use crate::spelling::Spelling;
use std::alloc::Global;

impl EduceError {
    /// A rejection whose one word is a spelling; out of memory, where the word can't be copied.
    pub fn citing(alloc: Global, kind: Kind, span: Span, spelling: &Spelling) -> EduceError
        ensures { Cites kind span spelling.now result }
    {
        let Ok(word) = spelling.duplicate(alloc) else {
            return EduceError::alloc(alloc);
        };
        match EduceError::with_word(alloc, kind, span, word) {
            Ok(error) => error,
            Err(_) => EduceError::alloc(alloc),
        }
    }
}
