//! The bounds that attributes set, and the predicates of each (documentation of the crate `educe`,
//! Bounds). The traits, the value of `bound` and the table of types that each trait treats apart are
//! re-exported.
#![tactic(auto)]

mod asked;
mod bound;
mod laws;
mod predicates;
mod sets;

pub use asked::exceptions_of;
pub use bound::Bound;
pub use educe_attrs_values::WherePredicatesOrBool;
pub use educe_bound_classes::{
    BOUND_EXCEPTIONS_CLONE, BOUND_EXCEPTIONS_COPY, BOUND_EXCEPTIONS_DEBUG,
    BOUND_EXCEPTIONS_DEFAULT, BOUND_EXCEPTIONS_EQUALITY, BOUND_EXCEPTIONS_HASH,
    BOUND_EXCEPTIONS_ORDER, BoundExceptions,
};
pub use educe_bound_traits::{Trait, Traits, all_listed, each_once, is_listed, same_trait};
pub use laws::predicate_laws;
pub use predicates::{lifetimes_first, with_predicates};
pub use sets::{PredicateSet, extend_where_predicates};
