//! Rules for generated text, as data: which tokens are the text of a value, the program that reads
//! them back by lookahead, and the laws that tie the two together.
#![tactic(auto)]

mod laws;
mod strip;

pub use laws::text_laws;
pub use strip::strip_token;
