//! Tests of `educe_body`, and the values and tables that bodies are tried over.
#![tactic(auto)]

#[cfg(test)]
mod body;
mod outcomes;
mod values;

pub use outcomes::{Seen, lent};
pub use values::{scope, table, value, variant_value};
