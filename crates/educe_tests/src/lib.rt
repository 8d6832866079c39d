//! What tests compare by: values, tables of them, tables as texts, the text of trees, what a call answers, the tokens of
//! texts and definitions. An assertion needs the handle of the runtime, which a library may not take. So a
//! comparison answers an `Err` where a value is not as expected; a test that lets it go does not
//! compile.
#![tactic(auto)]

mod answers;
mod definitions;
mod lexing;
mod lists;
mod rows;
mod tables;
mod trees;
mod values;

pub use answers::found;
pub use definitions::definition;
pub use lexing::{lex_answer, lexed, lexed_slice, printed_source};
pub use lists::first;
pub use rows::{LINE, check_rows, rows_of};
pub use tables::{check_answers, check_texts};
pub use trees::printed;
pub use values::{check_at, check_equal, check_text};
