//! The handler of `Default`.
#![tactic(auto)]

mod default;
mod default_body;
mod default_handling;
mod default_texts;

pub use default::{DefaultEnumHandler, DefaultHandler, DefaultStructHandler};
