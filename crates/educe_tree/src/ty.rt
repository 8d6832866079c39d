//! Types (Rust Reference, Types).

use crate::path::{Path, Paths};
use crate::to_tokens::AsWritten;
use educe_tokens::{Boxed, Seq, Written};

/// A type, with its tokens as they were written (Rust Reference, Types).
#[cycle(tree)]
#[derive(Drop)]
pub struct Ty {
    pub form: TypeForm,
    pub written: Written,
}

/// Types in their order.
pub type Types = Seq<Ty>;

/// The form of a type (Rust Reference, Type expressions).
#[cycle(tree)]
#[derive(Drop)]
pub enum TypeForm {
    /// `(T)`
    Paren(Boxed<Ty>),
    /// `(T, U)`
    Tuple(Types),
    /// `!`
    Never,
    /// `&T`, or `&mut T` where the truth value holds; a lifetime stands in the tokens alone.
    Reference(bool, Boxed<Ty>),
    /// `*const T` or `*mut T`
    Pointer(Boxed<Ty>),
    /// `[T]`
    Slice(Boxed<Ty>),
    /// `[T; n]`, with the tokens of the length.
    Array(Boxed<Ty>, Written),
    /// A path, behind the type of a qualified path where there is one.
    Path(Option<Boxed<Ty>>, Path),
    /// `fn(T, U)`, and the type behind `->` where there is one.
    FnPtr(Types, Option<Boxed<Ty>>),
    /// `dyn A + B`, with the paths of the traits.
    TraitObject(Paths),
}

impl AsWritten for Ty {
    ghost held = { λ ty. ty.written };

    fn written(&self) -> &Written {
        &self.written
    }
}
