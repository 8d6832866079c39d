//! What the handlers of traits promise: which definitions they take, what the items of a trait are,
//! what its functions mean and evaluate to, and why a definition is rejected. The definitions stand in
//! `specs/`; the code has the laws that layers above use.
#![tactic(auto)]

mod laws;

pub use laws::{
    clone_laws, comparison_laws, debug_laws, default_laws, eq_laws, hash_laws, header_laws,
    order_laws, trait_laws,
};
