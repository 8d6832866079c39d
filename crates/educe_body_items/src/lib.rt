//! Functions and the items that hold them, and what these are printed as.
#![tactic(auto)]

mod items;
mod print_checks;
mod print_constructors;
mod print_headers;
mod print_heads;
mod print_items;
mod print_markers;
mod speller;

pub use items::{CheckItem, Function, Functions, ImplItem, Item, Items, MarkerItem};
pub use speller::spell;
