//! Where an input comes from and a text goes to: sources and sinks, both over memory too, the reading
//! of a whole input, the writing of a whole text, and how a run ends.
#![tactic(auto)]

mod devices;
mod memory;
mod plan;
mod reading;
mod status;
mod writing;

pub use devices::{Failed, Sink, Source, Stopped};
pub use memory::{MemorySink, MemorySource};
pub use reading::read_input;
pub use status::Status;
pub use writing::deliver;
