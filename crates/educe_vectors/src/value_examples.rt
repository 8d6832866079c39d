//! Tables of values and outcomes: a name, a text, and what is answered to it.

mod clones;
mod coherence;
mod defaults;
mod enum_orders;
mod hashes;
mod methods;
mod packed;
mod reversed;
mod shapes;
