//! Values that are a truth value or something else.
use educe_syntax::{Ident, Predicates};

/// A name, or a truth value.
#[derive(Drop)]
pub enum IdentOrBool {
    /// A name.
    Ident(Ident),
    /// `true` or `false`; a string without text is `false`.
    Bool(bool),
}

/// Predicates, a truth value or `*`.
#[derive(Drop)]
pub enum WherePredicatesOrBool {
    /// The predicates of a where clause (Rust Reference, Where clauses).
    WherePredicates(Predicates),
    /// `true` or `false`
    Bool(bool),
    /// `*`: a bound on every type parameter.
    All,
}
