//! The evaluator of bodies, over values, names in scope and tables of what calls answer.
#![tactic(auto)]

mod arguments;
mod assigning;
mod calls;
mod cases;
mod changing;
mod environments;
mod evaluator;
mod flows;
mod matching;
mod numbers;
mod reading;
mod scoping;
mod showing;
mod types;

pub use evaluator::eval;
