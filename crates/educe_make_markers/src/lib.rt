//! The markers of fields with methods, for each trait that has such.
#![tactic(auto)]

mod markers;
mod several_cases;

pub use markers::{MarkerNames, MethodMarker, method_markers};
pub use several_cases::add_case;
