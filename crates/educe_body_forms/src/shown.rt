//! What `fmt` hands to a builder of the formatter.
use crate::literal_text::LiteralText;
use educe_tree::Ident;

/// The call that begins a builder (documentation of `std`, `fmt::Formatter`).
#[derive(Drop)]
pub enum Opening {
    /// `debug_struct("N")`
    Struct(LiteralText),
    /// `debug_tuple("N")`
    Tuple(LiteralText),
    /// `debug_map()`
    Map,
}

/// What an entry of a builder has before its value.
#[derive(Drop)]
pub enum EntryKey {
    /// Nothing: `builder.field(v);`
    Unnamed,
    /// The name of a field: `builder.field("key", v);`
    Named(LiteralText),
    /// The name of a field as a value of the helper type of this name:
    /// `builder.entry(&Helper("key"), v);`
    Mapped(Ident, LiteralText),
}

/// The names in the block that makes the argument of a method: that of the argument; of the type that
/// wraps the field and the method, and its two parameters; of the formatter of its `fmt`; and of the
/// parameters of the closure that calls the method.
#[derive(Drop)]
pub struct ArgumentNames {
    pub argument: Ident,
    pub wrapper: Ident,
    pub value_type: Ident,
    pub function_type: Ident,
    pub formatter: Ident,
    pub own_value: Ident,
    pub own_formatter: Ident,
}
