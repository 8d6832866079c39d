//! What the derived `fmt` shows.
use crate::value::FieldValue;
use educe_tokens::{Seq, Spelling};

/// How a value is shown (documentation of `std`, `fmt::Formatter`).
#[derive(Clone, Copy, Debug, PartialEq, Eq)]
pub enum ShapeForm {
    /// A text alone.
    Word,
    /// `N { a: .., b: .. }`
    Struct,
    /// `N(.., ..)`
    Tuple,
    /// `{a: .., b: ..}`
    Map,
}

/// An entry of what is shown: the text of its key, which is empty in a tuple; the text of the method
/// that writes it, if there is one; and its value.
#[derive(Drop)]
pub struct Entry {
    pub key: Spelling,
    pub method: Option<Spelling>,
    pub value: FieldValue,
}

/// What is shown of a value: how, under which name, which may be empty, and its entries in order.
#[derive(Drop)]
pub struct DebugShape {
    pub form: ShapeForm,
    pub name: Spelling,
    pub entries: Seq<Entry>,
}
