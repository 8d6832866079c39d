//! What the attributes of a definition say for each trait: which fields take part, in which order, how each
//! is treated, and why a trait is rejected.
#![tactic(auto)]

mod bounds;
mod cases;
mod field_types;
mod fields;
mod methods;
mod packed;
mod ranked;
mod ranks;
mod rows;
mod said;
mod said_bound;
mod seen_types;
mod settings;
mod task;

pub use bounds::{bound_of_type, checked_bound};
pub use cases::{CaseSettings, settings_of_cases};
pub use field_types::all_types;
pub use fields::{variant_fields, variant_settings};
pub use methods::has_custom_method;
pub use packed::is_copied;
pub use ranked::{How, Ranked};
pub use ranks::{fields_in_order, kept_fields};
pub use rows::{is_order, reads_fields, struct_names, variant_names};
pub use said::{field_settings, type_values, variant_values};
pub use said_bound::bound_said;
pub use seen_types::{SeenTypes, no_types, see_each};
pub use settings::is_kept;
pub use task::Task;
