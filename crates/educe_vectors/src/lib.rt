//! The worked rows as tests, over whole programs: each under a name, with what is answered to it; and
//! runs over devices that fail.
#![tactic(auto)]

#[cfg(test)]
mod bound_examples;
mod calls;
mod example_values;
#[cfg(test)]
mod examples;
mod lexing;
mod outcomes;
mod program;
mod rows;
mod tables;
mod told;
#[cfg(test)]
mod value_examples;
