//! The handler of `Debug`: what the attributes say of it, what it shows, and the body of `fmt`.
#![tactic(auto)]

mod debug;
mod debug_blocks;
mod debug_body;
mod debug_cases;
mod debug_entries;
mod debug_fields;
mod debug_handling;
mod debug_names;
mod debug_needs;
mod debug_reading;
mod debug_shown;
mod debug_texts;

pub use debug::{DebugEnumHandler, DebugHandler, DebugStructHandler};
