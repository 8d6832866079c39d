//! Token lists by numbers: equal lists have one number.
#![tactic(auto)]

mod interner;
mod keyed;
mod keys;
mod laws;

pub use interner::Interner;
pub use keyed::Keyed;
pub use keys::are_same;
pub use laws::interning_laws;
