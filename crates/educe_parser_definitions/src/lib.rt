//! The parser of generic parameters, attributes and definitions: each function that reads
//! tokens reads one production of the grammar, or a piece of one.
#![tactic(auto)]

mod attribute;
mod definitions;
mod generics;
mod lookahead;

pub use attribute::{attributes, metas};
pub use definitions::{definition, visibility};
pub use generics::{generic_param, params, predicates, where_predicate};
