//! How the values of a definition are shown.
ghost use Rattle.std.specs.Prelude.{◌≡◌, length};

use educe_attrs::FieldSettings;
use educe_body::LiteralText;
use educe_syntax::{DeriveInput, Field};
use educe_tokens::{Kind, Seq, Span};

/// How the values of a case are shown: those of a struct, or of a variant.
#[derive(Drop)]
pub struct Case<'d> {
    /// Whether the case is a unit variant.
    pub unit: bool,
    /// The name that is shown; its text is empty where none is.
    pub name: LiteralText,
    /// Whether the names of the fields are shown.
    pub named: bool,
    pub fields: &'d [Field],
    /// What the attributes of each field say.
    pub settings: Seq<FieldSettings>,
    /// Why the case is rejected, where neither a name nor a field is shown.
    pub need: Kind,
    /// The place at which the case is rejected.
    pub place: Span,
    pub ghost each: { length settings ≡ length fields.now },
}

/// How the values of a definition are shown.
#[derive(Drop)]
pub struct Shown<'d> {
    pub ast: &'d DeriveInput,
    /// The name of the type; its text is empty where none is shown.
    pub name: LiteralText,
    /// The case of a struct, or that of each variant of an enum.
    pub cases: Seq<Case<'d>>,
}
