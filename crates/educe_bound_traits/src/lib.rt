//! The traits that can be derived, their names and paths, and lists of them (documentation of the
//! crate `educe`, Traits).
#![tactic(auto)]

mod laws;
mod named;
mod paths;
mod traits;
mod word;

pub use laws::trait_laws;
pub use paths::trait_path;
pub use traits::{Trait, Traits, all_listed, each_once, is_listed, same_trait};
pub use word::{is_one_word, is_word};
