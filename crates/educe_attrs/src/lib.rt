//! The attributes of a definition: for each trait a module with its builders and what they build
//! for a type, a variant or a field (documentation of `educe`, each trait's section). Also
//! re-exports what users of attributes need of the layers below. `IdentOrIndex`, a field's name or
//! index, is in the crate `educe_body_forms`, with the bindings that are made of it.
#![tactic(auto)]

mod bound_only;
mod builder;
pub mod clone;
mod compared;
pub mod copy;
pub mod debug;
pub mod default;
pub mod eq;
pub mod hash;
mod no_field;
mod one_trait;
pub mod ord;
pub mod partial_eq;
pub mod partial_ord;

pub use bound_only::{BoundBuilder, bound_row};
pub use builder::{AttributeBuilder, FieldBuilder, TypeBuilder};
pub use compared::{ComparedBuilder, RankedBuilder, compared_row};
pub use educe_attrs_generated::{
    auto_adjust_expr, discriminant_type, generated_impl_attributes, generated_lint_attributes,
    is_packed,
};
pub use educe_attrs_places::{
    FieldSettings, field_settings, is_educe, place_settings, report_laws, setting_laws,
    settings_of_fields, type_listing,
};
pub use educe_attrs_rows::{Equals, NameKind, Param, Rank, Row, Values, read_meta};
pub use educe_attrs_values::{
    IdentOrBool, Stop, ValueKind, WherePredicatesOrBool, error_of, is_word, meta_2_bool,
    meta_2_bool_allow_path, meta_2_expr, meta_2_ident, meta_2_ident_and_bool, meta_2_isize,
    meta_2_path, value_laws,
};
pub use educe_bound::{Bound, Trait, Traits, is_listed};
pub use no_field::NoFieldBuilder;
pub use one_trait::{CLONE, COPY, EQ, HASH, ORD, PARTIAL_EQ, PARTIAL_ORD, trait_at};
