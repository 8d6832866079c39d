//! What the `educe` attributes of a place say of a trait: of a type, a variant or a field. Several
//! lists of one place count as one; at a field the two orders stand in for each other. The traits
//! that a type lists are read here too, as the documentation of the crate `educe` describes them.
#![tactic(auto)]

mod fields;
mod laws;
mod listing;
mod lists;
mod named;
mod place;
mod said;

pub use fields::settings_of_fields;
pub use laws::{report_laws, setting_laws};
pub use listing::type_listing;
pub use lists::is_educe;
pub use place::{FieldSettings, field_settings, place_settings};
