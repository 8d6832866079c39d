//! Tests of the attributes: for each row of the attribute table each form that is allowed, each kind
//! of rejection with its whole line, and the switches of the builders (documentation of `educe`, each
//! trait's section).
#![tactic(auto)]

#[cfg(test)]
mod answers;
#[cfg(test)]
mod builders;
#[cfg(test)]
mod calls;
#[cfg(test)]
mod classes;
#[cfg(test)]
mod defaults;
#[cfg(test)]
mod generated;
#[cfg(test)]
mod keys;
#[cfg(test)]
mod listings;
#[cfg(test)]
mod predicates;
#[cfg(test)]
mod tables;
#[cfg(test)]
mod values;
#[cfg(test)]
mod words;
