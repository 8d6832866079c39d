//! Tests of the syntax layer: copies and printed trees, which texts are definitions, and what the calls
//! answer.
#![tactic(auto)]

#[cfg(test)]
mod answers;
#[cfg(test)]
mod common;
#[cfg(test)]
mod parser;
#[cfg(test)]
mod tree;
