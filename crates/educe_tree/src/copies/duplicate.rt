//! The trait of trees that can be copied; lists, optional trees and tokens have it.
ghost use Rattle.std.specs.Prelude.{◌≡◌, IfOk};

use educe_tokens::{Seq, Written, pair};
use std::alloc::{AllocError, Global};

/// A tree that can be copied.
pub trait Duplicate: Drop {
    /// An equal tree in memory of its own, its spans included.
    fn duplicate(&self, alloc: Global) -> Result<Self, AllocError>
        ensures { IfOk result (λ copy. copy ≡ self.now) };
}

impl<T: Duplicate> Duplicate for Seq<T> {
    fn duplicate(&self, alloc: Global) -> Result<Seq<T>, AllocError> {
        let mut copies = Seq::new(alloc);
        for item in self.as_slice() {
            copies.push(item.duplicate(alloc)?)?;
        }
        Ok(copies)
    }
}

impl Duplicate for Written {
    fn duplicate(&self, _alloc: Global) -> Result<Written, AllocError> {
        Written::duplicate(self)
    }
}

impl<T: Duplicate> Duplicate for Option<T> {
    fn duplicate(&self, alloc: Global) -> Result<Option<T>, AllocError> {
        match self {
            Some(value) => Ok(Some(value.duplicate(alloc)?)),
            None => Ok(None),
        }
    }
}

/// Copies of both trees, in memory of their own.
pub fn duplicate_both<T: Duplicate, U: Duplicate>(
    alloc: Global,
    first: &T,
    second: &U,
) -> Result<(T, U), AllocError>
    ensures { IfOk result (λ copies. copies ≡ (first.now, second.now)) }
{
    let first = first.duplicate(alloc)?;
    pair(first, second.duplicate(alloc))
}
