//! The syntax of definitions: the trees, their copies, and the calls that parse, each also within a
//! given depth. `ReplaceSelf`, which puts a definition's name in place of `Self`, is in the crate
//! `educe_syntax_self`, which stands on this one.
#![tactic(auto)]

mod calls;
mod duplicate_names;
mod knot;
mod laws;
mod readers;
mod unions;
mod whole;
mod within;

pub use calls::{
    parse_derive_input, parse_expr, parse_ident, parse_metas, parse_path, parse_predicates,
};
pub use educe_grammar::Terminal;
pub use educe_tree::{
    AngleArg, AngleArgs, Args, AsWritten, Attribute, Attributes, ConstParam, DeriveInput,
    Duplicate, Expr, ExprForm, ExprPath, Field, FieldForm, FieldShape, Fields, GenericParam,
    Generics, Ident, Lifetime, LifetimeParam, Meta, MetaPath, Metas, Params, Path, Paths,
    Predicates, Segment, Segments, Shape, ToTokens, Ty, TypeForm, TypeParam, Types, Variant,
    Variants, WherePredicate, is_name, is_spelled, path_to_string, text_of_tree, unraw,
};
pub use knot::{DEPTH_LIMIT, any_type, expr_path, generic_param, where_predicate};
pub use laws::{definition_laws, part_laws, place_laws, rule_laws, type_laws};
pub use within::{
    parse_expr_within, parse_params_within, parse_path_within, parse_predicates_within,
    parse_type_within,
};
