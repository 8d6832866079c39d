//! Readings do not depend on places: tokens that have the same copy are read alike, so every part of
//! a definition has one counterpart whose tokens lie nowhere.
#![tactic(auto)]

mod laws;

pub use laws::places_laws;
