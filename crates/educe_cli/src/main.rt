//! The program `educe`: it reads a definition and writes the impls that its attributes ask for, or
//! writes a line about those of a sample.
#![tactic(auto)]

mod adapters;
mod ending;

use adapters::{Reading, Writing};
use ending::{Ending, run_program};
use std::env;
use std::io::{Stderr, Stdin, Stdout};

fn main(rt: HostRuntime) -> Ending {
    let arguments = env::args(&rt);
    let mut source: Reading<Stdin> = Reading::new(rt.stdin());
    let mut sink: Writing<Stdout> = Writing::new(rt.stdout());
    let mut notes: Writing<Stderr> = Writing::new(rt.stderr());
    run_program(rt.alloc(), arguments, &mut source, &mut sink, &mut notes)
}
