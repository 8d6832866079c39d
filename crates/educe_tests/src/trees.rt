//! The text of trees. They are dropped in a generic function: that keeps the proof of a test cheap.
ghost use Rattle.std.specs.Prelude.{◌≡◌, chars, string_bytes, IfOk};
ghost use Rattle.educe_tokens.specs.Text.{text_of};

use educe_syntax::{ToTokens, text_of_tree};
use std::alloc::{AllocError, Global};

/// The text of a tree.
pub fn printed<T: ToTokens + Drop>(alloc: Global, tree: T) -> Result<String, AllocError>
    ensures { IfOk result (λ text. chars (string_bytes text) ≡ text_of (T.lexemes_of tree)) }
{
    text_of_tree(alloc, &tree)
}
