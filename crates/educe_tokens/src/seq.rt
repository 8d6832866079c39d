//! Lists that contracts see as lists.
ghost use Rattle.std.specs.Prelude.{◌≡◌, ◌<◌, ◌≤◌, [], ◌∷◌, ◌++◌, length, slice_index_or, OnOk, OnErr, IfOk, IfSome, IfNone};
ghost use Rattle.educe_tokens.specs.Prefix.{HasPrefix};

use std::alloc::{AllocError, Global};
use std::marker::Model;

/// A list that grows at its end. A contract sees the items and neither capacity nor address, so
/// that two lists of equal items are equal values.
#[derive(Drop)]
pub struct Seq<T> {
    items: Vec<T>,
}

/// A list of numbers, such as indices.
pub type Numbers = Seq<usize>;

impl<T> Model for Seq<T> {
    ghost use Rattle.std.specs.Prelude.{List};
    ghost use Rattle.std.specs.Coded.{coded_list};

    ghost Value = { List T };

    ghost coded = { coded_list T.code };

    ghost view = { λ seq. seq.items.items };
}

impl<T> Seq<T> {
    /// The empty list. It takes no memory.
    pub fn new(alloc: Global) -> Self
        ensures { result ≡ [] }
    {
        Seq {
            items: Vec::new(alloc),
        }
    }

    /// The empty list, with memory for `capacity` items.
    pub fn with_capacity(alloc: Global, capacity: usize) -> Result<Seq<T>, AllocError>
        ensures { IfOk result (λ seq. seq ≡ []) }
    {
        let items = Vec::with_capacity(alloc, capacity)?;
        Ok(Seq { items })
    }

    /// The number of items.
    pub fn len(&self) -> usize
        ensures { result ≡ length self.now }
    {
        self.items.len()
    }

    /// The items as a slice.
    pub fn as_slice(&self) -> &[T]
        ensures { result.now ≡ self.now }
    {
        self.items.as_slice()
    }

    /// The item at an index that is within the list.
    pub fn get(&self, index: usize) -> Option<&T>
        ensures some { IfSome result (λ item. item.now ≡ slice_index_or self.now index item.now) }
        ensures within { IfSome result (λ _. index < length self.now) }
        ensures none { IfNone result (length self.now ≤ index) }
    {
        if index < self.items.len() {
            Some(&self.items[index])
        } else {
            None
        }
    }

    /// Adds an item at the end, by the allocator that the list was made with.
    pub fn push(&mut self, item: T) -> Result<(), AllocError>
    where
        T: Drop,
        ensures ok { OnOk result (self.new ≡ self.old ++ item ∷ []) }
        ensures err { OnErr result (self.new ≡ self.old) }
    {
        self.items.push(item)?;
        Ok(())
    }

    /// Removes the last item and returns it; the empty list stays empty.
    pub fn pop(&mut self) -> Option<T>
        ensures some { IfSome result (λ item. self.old ≡ self.new ++ item ∷ []) }
        ensures none { IfNone result (self.old ≡ []) }
        ensures empty { IfNone result (self.new ≡ []) }
    {
        self.items.pop()
    }

    /// Drops all items, and keeps the memory for others.
    pub fn clear(&mut self)
    where
        T: Drop,
        ensures { self.new ≡ [] }
    {
        self.items.clear();
    }

    /// Returns the items as a vector.
    pub fn into_items(self) -> Vec<T>
        ensures { result.items ≡ self }
    {
        self.items
    }

    /// Adds the items of another list at the end. Where memory fails, some may be there.
    pub fn append(&mut self, other: Seq<T>) -> Result<(), AllocError>
    where
        T: Drop,
        ensures ok { OnOk result (self.new ≡ self.old ++ other) }
        ensures prefix { HasPrefix self.old self.new }
    {
        for item in other.items {
            self.items.push(item)?;
        }
        Ok(())
    }
}
