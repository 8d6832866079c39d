//! The words of an input, and the choice of fresh names.
#![tactic(auto)]

mod fewest;
mod gathered;
mod input_words;
mod laws;
mod letters;
mod used_idents;
mod words;

pub use input_words::InputWords;
pub use laws::name_laws;
pub use used_idents::UsedIdents;
pub use words::has_word;
