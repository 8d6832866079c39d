//! Integer types that discriminants have, whole numbers, and the numbers that discriminants write
//! (Rust Reference, Enumerations).
#![tactic(auto)]

mod discriminant_type;
mod laws;
mod literal;
mod number;

pub use discriminant_type::DiscriminantType;
pub use laws::{range_laws, type_list_laws};
pub use literal::literal_number;
pub use number::Number;
