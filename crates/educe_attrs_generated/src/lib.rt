//! What generated code takes from the attributes of a definition: the levels of lints, whether the
//! type is packed, the type of its discriminants, and default values (Rust Reference, Lint check
//! attributes; The alignment modifiers; Primitive representations; documentation of `educe`,
//! Default).
#![tactic(auto)]

mod adjusted;
mod balanced;
mod lints;
mod packed;
mod primitive;
mod represented;
mod word;

pub use adjusted::auto_adjust_expr;
pub use lints::{generated_impl_attributes, generated_lint_attributes};
pub use packed::is_packed;
pub use represented::discriminant_type;
