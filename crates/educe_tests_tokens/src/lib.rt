//! Tests of `educe_tokens_pieces`, `educe_tokens_scan`, `educe_tokens` and `educe_tokens_interner`: texts, and the
//! pieces, tokens and values that they are.
#![tactic(auto)]

#[cfg(test)]
mod answers;
#[cfg(test)]
mod common;
#[cfg(test)]
mod pieces;
#[cfg(test)]
mod scan;
#[cfg(test)]
mod tokens;
