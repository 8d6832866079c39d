//! The syntax trees of a definition, and their copies. The names are those of syn.
#![tactic(auto)]

mod attr;
mod copies;
mod data;
mod derive;
mod expr;
mod generics;
mod ident;
mod lifetime;
mod names;
mod path;
mod to_tokens;
mod ty;

pub use attr::{Attribute, Attributes, Meta, MetaPath, Metas, path_to_string};
pub use copies::Duplicate;
pub use data::{Field, FieldForm, FieldShape, Fields, Variant, Variants};
pub use derive::{DeriveInput, Shape};
pub use expr::{Expr, ExprForm, ExprPath};
pub use generics::{
    ConstParam, GenericParam, Generics, LifetimeParam, Params, Predicates, TypeParam,
    WherePredicate,
};
pub use ident::Ident;
pub use lifetime::Lifetime;
pub use names::{is_name, is_spelled, unraw};
pub use path::{AngleArg, AngleArgs, Args, Path, Paths, Segment, Segments};
pub use to_tokens::{AsWritten, ToTokens, text_of_tree};
pub use ty::{Ty, TypeForm, Types};
