//! The forms that bodies are made of and what they are printed as, the keys of fields, and local
//! variables for them.
#![tactic(auto)]

mod bindings;
mod body;
mod comparison;
mod filled;
mod form;
mod ident_or_index;
mod key_function;
mod keys;
mod literal_text;
mod pattern;
mod position;
mod print;
mod print_arguments;
mod print_fmt;
mod print_orders;
mod print_patterns;
mod print_places;
mod print_shown;
mod shared;
mod shown;
mod text;

pub use bindings::{binding, index_binding, name_binding};
pub use body::Body;
pub use comparison::Comparison;
pub use educe_tokens::Names;
pub use form::{Arm, Arms, Form, Forms, Init, Inits, Known};
pub use ident_or_index::IdentOrIndex;
pub use key_function::{Constant, Distance, KeyArm, KeyArms};
pub use keys::{has_key, index_of, index_word, key_word};
pub use literal_text::LiteralText;
pub use pattern::{Pattern, PatternField, PatternFields};
pub use position::Position;
pub use print::{push_block, push_comma};
pub use print_fmt::{
    PrintedName, push_fmt_head, push_fmt_result, push_formatter_param, push_formatter_type,
};
pub use shared::Shared;
pub use shown::{ArgumentNames, EntryKey, Opening};
pub use text::is_text;
