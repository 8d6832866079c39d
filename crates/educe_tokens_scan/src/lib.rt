//! The scanner of Rust texts: it finds the one piece at the start of a text, and tests whether a
//! text is one piece.
#![tactic(auto)]

mod decimals;
mod in_place;
mod next;
mod preceding;
mod scan;
mod spelling;
mod windows;

pub use next::next_piece;
pub use scan::piece_at;
pub use spelling::is_piece;
