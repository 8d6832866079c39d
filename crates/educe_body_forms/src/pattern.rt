//! The patterns of variants.
use educe_tokens::{Seq, Word};
use educe_tree::{FieldForm, Ident};

/// A field in a pattern (Rust Reference, Struct patterns; Tuple struct patterns).
#[derive(Drop)]
pub struct PatternField {
    /// The name of the field; a field of a tuple has none.
    pub key: Option<Word>,
    /// The name that the field is bound to; without one it is `_`.
    pub name: Option<Ident>,
}

/// Fields of a pattern in written order.
pub type PatternFields = Seq<PatternField>;

/// The pattern of a variant of the defined type: `Self::V`, `Self::V { key: name, }` or
/// `Self::V(name, )`.
#[derive(Drop)]
pub struct Pattern {
    pub variant: Ident,
    pub form: FieldForm,
    /// Whether `..` stands in the place of the fields.
    pub rest: bool,
    pub fields: PatternFields,
}
