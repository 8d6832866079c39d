//! Definitions (Rust Reference, Items).
use crate::attr::Attributes;
use crate::data::{FieldShape, Variants};
use crate::generics::Generics;
use crate::ident::Ident;
use educe_tokens::TokenSlice;

/// The definition of a type, which a derive is given (Rust Reference, Derive macros).
#[derive(Drop)]
pub struct DeriveInput {
    pub attrs: Attributes,
    pub ident: Ident,
    pub generics: Generics,
    pub shape: Shape,
    /// The whole input.
    pub tokens: TokenSlice,
}

/// What is defined (Rust Reference, Structs and Enumerations).
#[derive(Drop)]
pub enum Shape {
    /// A struct with its fields.
    Struct(FieldShape),
    /// An enum with its variants.
    Enum(Variants),
}
