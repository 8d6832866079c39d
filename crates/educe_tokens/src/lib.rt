//! Tokens of Rust texts: the lexer, spans, the printed text, and errors.
#![tactic(auto)]

mod boxed;
mod brackets;
mod citing;
mod copied;
mod error;
mod growing;
mod kept_template;
mod laws;
mod lexer;
mod printer;
mod seq;
mod sequence;
mod slice;
mod span;
mod spelling;
mod stream;
mod template;
mod token;
mod value;
mod word;
mod written;

pub use boxed::Boxed;
pub use brackets::NESTING;
pub use educe_tokens_pieces::{Bracket, LiteralKind, TokenKind};
pub use error::{EduceError, Kind, Texts};
pub use growing::{append_written, push_word};
pub use laws::{copying_laws, kind_laws, lexing_laws, limits, printing_laws, value_laws};
pub use lexer::{lex, lex_within};
pub use printer::{have_no_doc, push_text, text};
pub use seq::{Numbers, Seq};
pub use sequence::{pair, terminated, unit};
pub use slice::TokenSlice;
pub use span::{SOURCE_LIMIT, Span};
pub use spelling::Spelling;
pub use stream::TokenStream;
pub use template::quote;
pub use token::Token;
pub use value::{int_value, string_value};
pub use word::{Names, Word};
pub use written::Written;
