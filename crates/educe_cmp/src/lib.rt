//! The handlers of the traits that compare: constants and key functions of enums, steps, bodies. The
//! trait of handlers, the context that they share and the types of discriminants are re-exported.
#![tactic(auto)]

mod arms;
mod cases;
mod comparing;
mod comparison;
mod counting;
mod discriminants;
mod enum_body;
mod eq;
mod eq_check;
mod eq_handling;
mod handling;
mod keys;
mod names;
mod ord;
mod partial_eq;
mod partial_ord;
mod struct_body;

pub use counting::Constants;
pub use discriminants::discriminants_of;
pub use educe_discriminants::DiscriminantType;
pub use educe_handlers::{TraitHandler, TraitHandlerContext};
pub use eq::EqHandler;
pub use ord::{OrdEnumHandler, OrdHandler, OrdStructHandler};
pub use partial_eq::{PartialEqEnumHandler, PartialEqHandler, PartialEqStructHandler};
pub use partial_ord::{PartialOrdEnumHandler, PartialOrdHandler, PartialOrdStructHandler};
