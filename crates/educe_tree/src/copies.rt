//! Copies of syntax trees: equal trees in memory of their own.

mod attr;
mod data;
mod derive;
mod duplicate;
mod expr;
mod generics;
mod names;
mod path;
mod ty;

pub use duplicate::Duplicate;
