//! The handlers of `Clone` and `Copy`.
#![tactic(auto)]

mod clone;
mod clone_body;
mod clone_cases;
mod clone_fields;
mod clone_from_body;
mod clone_handling;
mod clone_names;
mod clone_paths;
mod copy;

pub use clone::{CloneEnumHandler, CloneHandler, CloneStructHandler};
pub use copy::{CopyEnumHandler, CopyHandler, CopyStructHandler};
