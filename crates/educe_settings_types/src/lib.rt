//! The types that the bounds of each trait speak of, and what the attributes say that they depend on.
#![tactic(auto)]

mod clone_copying;
mod clone_types;
mod debug_field_settings;
mod debug_rows;
mod debug_settings;
mod debug_types;
mod default_choice;
mod default_marks;
mod default_rows;
mod default_types;
mod default_values;
mod each_trait;
mod eq_types;
mod visits;

pub use clone_copying::can_use_bitwise_copy;
pub use debug_field_settings::entry_settings;
pub use debug_rows::{struct_named, variant_named};
pub use debug_settings::{naming_values, read_type};
pub use default_choice::{Chosen, choose};
pub use each_trait::seen_types;
