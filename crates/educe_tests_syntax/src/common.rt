//! Trees in generic functions, which copy and drop them: that keeps the proofs of tests cheap.
ghost use Rattle.std.specs.Prelude.{◌≡◌, IfOk};

use educe_syntax::{Duplicate, ToTokens, text_of_tree};
use std::alloc::{AllocError, Global};

/// The copy of a tree, in place of the tree.
pub(crate) fn copied<T: Duplicate>(alloc: Global, tree: T) -> Result<T, AllocError>
    ensures { IfOk result (λ copy. copy ≡ tree) }
{
    tree.duplicate(alloc)
}

/// What is found of a tree, which is dropped.
pub(crate) fn told<T: Drop, U>(_tree: T, found: U) -> U
    ensures { result ≡ found }
{
    found
}

/// The texts of trees, a line each.
pub(crate) fn lines<T: ToTokens>(alloc: Global, trees: &[T]) -> Result<String, AllocError> {
    let mut lines = String::new(alloc);
    let mut between = "";
    for tree in trees {
        write!(lines, "{between}{}", text_of_tree(alloc, tree)?)?;
        between = "\n";
    }
    Ok(lines)
}
