//! The handler of `Hash`.
#![tactic(auto)]

mod feeding;
mod hash;
mod hash_body;
mod hash_cases;
mod hash_names;

pub use hash::{HashEnumHandler, HashHandler, HashStructHandler};
