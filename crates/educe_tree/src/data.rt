//! The fields and variants of a definition (Rust Reference, Structs and Enumerations).
use crate::attr::Attributes;
use crate::expr::Expr;
use crate::ident::Ident;
use crate::ty::Ty;
use educe_tokens::{Seq, Span};

/// How the fields are written, and the fields (Rust Reference, Structs).
#[derive(Drop)]
pub struct FieldShape {
    pub form: FieldForm,
    pub fields: Fields,
}

/// How fields are written (Rust Reference, Structs).
#[derive(Clone, Copy, Debug, PartialEq, Eq)]
pub enum FieldForm {
    /// In curly brackets, each with a name.
    Named,
    /// In round brackets, without names.
    Unnamed,
    /// Without fields, as `struct A;`.
    Unit,
}

/// A field (Rust Reference, Structs). Its span runs from its first attribute to its last token.
#[derive(Drop)]
pub struct Field {
    pub attrs: Attributes,
    pub ident: Option<Ident>,
    pub ty: Ty,
    pub span: Span,
}

/// Fields in written order.
pub type Fields = Seq<Field>;

/// A variant (Rust Reference, Enumerations). Its span runs from its first attribute to its last
/// token.
#[derive(Drop)]
pub struct Variant {
    pub attrs: Attributes,
    pub ident: Ident,
    pub fields: FieldShape,
    /// The expression of an explicit discriminant.
    pub discriminant: Option<Expr>,
    pub span: Span,
}

/// Variants in written order.
pub type Variants = Seq<Variant>;

impl Field {
    ghost use Rattle.std.specs.Prelude.{◌≡◌, chars, encode_utf8_all};
    ghost use Rattle.educe_tree.specs.Fields.{name_of};

    /// The name as it was written; empty where the field has none.
    #[tactic(auto, using(crate::proofs::Words::chars_empty))]
    pub fn name(&self) -> &str
        ensures chars { chars result.now ≡ name_of self.now }
        ensures bytes { result.now ≡ encode_utf8_all (name_of self.now) }
    {
        match &self.ident {
            Some(ident) => ident.text.as_str(),
            None => "",
        }
    }
}
