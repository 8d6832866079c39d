//! The grammar of a definition (Rust Reference): what its tokens may be, with one reading, and the
//! steps that a parser of it is made of.
#![tactic(auto)]

mod bracketed;
mod cursor;
mod ending;
mod inside;
mod loops;
mod operator;
mod parse_error;
mod parse_stream;
mod production;
mod slices;
mod terminal;

pub use bracketed::{
    AngleEnd, CurlyEnd, RoundEnd, angled, in_angles, in_curly, in_round, nested, optional_behind,
};
pub use cursor::Cursor;
pub use ending::{Ending, Link, Tail};
pub use inside::{ExprInside, Inside, Parts, TypeInside, Typed};
pub use loops::{chain, limits, list, many, path};
pub use operator::Operator;
pub use parse_error::ParseError;
pub use parse_stream::{ParseStream, SelfPath};
pub use production::{Context, Lookahead, Production};
pub use slices::written;
pub use terminal::{Keyword, Terminal};
