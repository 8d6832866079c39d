//! The families of pieces of Rust texts: what spells one of each, what may follow it, and the values
//! of literals.
#![tactic(auto)]

mod chars;
mod comments;
mod floats;
mod in_place;
mod integers;
mod kind;
mod numbers;
mod quote_value;
mod quotes;
mod raw_strings;
mod words;

pub use chars::{begins_slash_or_star, begins_with, is_blank, is_punct, is_word_start};
pub use comments::{comment_at, comment_kind, doc_value, ends_line_before, opens_comment};
pub use in_place::{
    behind_blanks, behind_block, behind_mark, behind_quoted, behind_word, ends_word, first_of,
    split_line, text_begins, text_touches_word,
};
pub use integers::{Base, int_value};
pub use kind::{Bracket, LiteralKind, PieceKind, TokenKind, UncarriedKind};
pub use numbers::{may_follow_float, may_follow_int, number_at};
pub use quote_value::str_value;
pub use quotes::{Next, Quote, Within, is_body, quote_end};
pub use raw_strings::{behind_raw, raw_len, raw_value};
pub use words::{
    continue_len, ends_word_before, raw_word_len, touches_lifetime, touches_word, word_len,
};
