//! Paths (Rust Reference, Paths).

use crate::ident::Ident;
use crate::lifetime::Lifetime;
use crate::ty::{Ty, Types};
use educe_tokens::{Boxed, Seq, Written};

/// A path, such as `a::B<C>`; `leading` says that it begins with `::` (Rust Reference, Paths in
/// types).
#[cycle(tree)]
#[derive(Drop)]
pub struct Path {
    pub leading: bool,
    pub segments: Segments,
}

/// Paths in their order.
pub type Paths = Seq<Path>;

/// One name of a path with its arguments (Rust Reference, Paths in types).
#[cycle(tree)]
#[derive(Drop)]
pub struct Segment {
    pub ident: Ident,
    pub args: Args,
}

/// The segments of a path, the first one first.
pub type Segments = Seq<Segment>;

/// The arguments of a segment (Rust Reference, Paths in types).
#[cycle(tree)]
#[derive(Drop)]
pub enum Args {
    /// No arguments.
    None,
    /// `<A, B>`
    Angle(AngleArgs),
    /// `(A, B)`, and the type behind `->` where there is one.
    Round(Types, Option<Boxed<Ty>>),
}

/// One argument in angle brackets (Rust Reference, Paths in expressions: generic arguments).
#[cycle(tree)]
#[derive(Drop)]
pub enum AngleArg {
    /// `'a`
    Lifetime(Lifetime),
    /// A type.
    Plain(Ty),
    /// `Item = T`
    Binding(Ident, Ty),
    /// A constant: a literal, one behind `-`, or a block.
    Constant(Written),
}

/// The arguments in angle brackets, in their order.
pub type AngleArgs = Seq<AngleArg>;
