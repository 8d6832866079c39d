//! Functions and the items that hold them.
use educe_body_forms::{Body, Names};
use educe_bound_traits::Trait;
use educe_tokens::{Seq, Word, Written};
use educe_tree::{ExprPath, Generics, Ident, Ty, Types};

/// A function of an item.
#[derive(Drop)]
pub struct Function {
    pub name: Word,
    pub body: Body,
}

/// Functions in their order.
pub type Functions = Seq<Function>;

/// The implementation of a trait for the type of this name, behind its attributes. The parameters
/// are those of the impl, and their names the arguments of the type (Rust Reference,
/// Implementations).
#[derive(Drop)]
pub struct ImplItem {
    pub which: Trait,
    pub attributes: Written,
    pub generics: Generics,
    pub ident: Ident,
    pub functions: Functions,
}

/// The check that the types of fields implement `Eq`, behind its attributes: a constant whose
/// function, with these parameters, calls an inner one for each of the types. The names are those of the
/// function, of the inner one, and of the parameter of that.
#[derive(Drop)]
pub struct CheckItem {
    pub attributes: Written,
    pub generics: Generics,
    pub types: Types,
    pub names: Names,
}

/// A function that is never called and calls the method of a field, behind its attributes, so that
/// the method counts as used and has to fit the field's type. The names are those of the function
/// and of its parameters: the value, and for `Debug` the formatter.
#[derive(Drop)]
pub struct MarkerItem {
    pub which: Trait,
    pub attributes: Written,
    pub generics: Generics,
    pub ty: Ty,
    pub method: ExprPath,
    pub names: Names,
}

/// An item that is printed.
#[derive(Drop)]
pub enum Item {
    Impl(ImplItem),
    /// An impl with no trait, which holds the function `new`.
    New(ImplItem),
    FieldCheck(CheckItem),
    Marker(MarkerItem),
}

/// Items in the order in which they are printed.
pub type Items = Seq<Item>;
