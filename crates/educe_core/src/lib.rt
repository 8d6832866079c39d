//! The derive compiler's top: what a definition is expanded to, the commands of the program, and the
//! devices that it reads and writes.
#![tactic(auto)]

mod composition;
mod expansion;
mod handler;
mod laws;
mod program;
mod sample;
mod spoken;

pub use educe_core_devices::{Failed, MemorySink, MemorySource, Sink, Source, Status, Stopped};
pub use expansion::{Expansion, expand};
pub use handler::derive_input_handler;
pub use laws::expansion_laws;
pub use program::run;
pub use spoken::Spoken;
