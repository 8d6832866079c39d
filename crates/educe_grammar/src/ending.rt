//! How a type ends, which decides what may follow it.

/// How a type ends (Rust Reference, Paths).
#[derive(Clone, Copy)]
pub enum Ending {
    /// Without a path: nothing continues it.
    Closed,
    /// With the arguments of a path: `::` continues it.
    Arguments,
    /// With a name: `::`, `<` and `(` continue it. The arguments of a lone `Self` count as a name,
    /// since they are dropped where another type takes its place.
    Name,
}

/// A link of an expression, after its first operand (Rust Reference, Operator expressions).
#[derive(Clone, Copy)]
pub enum Link {
    /// `as` and a type with this ending.
    Cast(Ending),
    /// An operator and its second operand.
    Binary(crate::operator::Operator),
}

/// What follows a path in an expression (Rust Reference, Path expressions).
#[derive(Clone, Copy)]
pub enum Tail {
    /// Nothing.
    Nothing,
    /// The fields of a struct (Rust Reference, Struct expressions).
    Fields,
    /// The input of a macro call (Rust Reference, Macro invocation).
    Call,
}
