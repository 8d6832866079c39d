//! Commands: what each reads, what it writes for that and why it rejects it, and how one is run. The
//! clauses of the program are stated over these definitions, so that a further command adds none.
#![tactic(auto)]

mod command;
mod laws;
mod refusing;
mod running;

pub use command::Command;
pub use laws::part_laws;
pub use running::run_command;
