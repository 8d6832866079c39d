//! The parser of types and of expressions: each function that reads tokens parses one production of
//! the grammar, or a part of one.
#![tactic(auto)]

mod expr_paths;
mod expressions;
mod links;
mod lookahead;
mod operands;
mod tails;
mod types;

pub use expr_paths::expr_path;
pub use expressions::expression;
pub use types::{any_type, plain_type};
