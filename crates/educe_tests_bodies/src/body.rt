//! Of `educe_body`: that words are found, names are chosen and keys are made, and what bodies that are
//! built by hand evaluate to: most have no value, and no expansion has them. What `expand` writes, and
//! what that evaluates to, is compared in `educe_vectors`, `educe_vectors` and
//! `educe_vectors`.

mod bodies;
mod evaluations;
mod keys;
mod names;
mod words;
