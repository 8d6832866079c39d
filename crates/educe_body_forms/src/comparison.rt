//! The traits that compare two values.

/// A trait whose function compares two values (documentation of the standard library, `std::cmp`).
#[derive(Clone, Copy, Debug, PartialEq, Eq, Hash)]
pub enum Comparison {
    PartialEq,
    PartialOrd,
    Ord,
}
