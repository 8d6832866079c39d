//! Replaces `Self` in types, paths and generics by the name of the definition, so that they may be
//! used where `Self` is another type.
#![tactic(auto)]

mod again;
mod begins;
mod head;
mod laws;
mod notes;
mod replace_self;
mod splice;

pub use laws::visit_laws;
pub use replace_self::ReplaceSelf;
