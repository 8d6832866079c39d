//! What a derived trait asks for the types of fields: the bounds of the automatic mode
//! (documentation of the crate `educe`, Bounds).
#![tactic(auto)]

mod arguments;
mod collect;
mod exceptions;
mod idents;
mod laws;
mod needs;
mod params;
mod paths;
mod places;
mod sought;
mod tables;
mod walk;

pub use collect::find_idents_in_type;
pub use exceptions::BoundExceptions;
pub use idents::IdentSet;
pub use laws::automatic_laws;
pub use needs::{Asked, Asker, append_needs, needs_of};
pub use tables::{
    BOUND_EXCEPTIONS_CLONE, BOUND_EXCEPTIONS_COPY, BOUND_EXCEPTIONS_DEBUG,
    BOUND_EXCEPTIONS_DEFAULT, BOUND_EXCEPTIONS_EQUALITY, BOUND_EXCEPTIONS_HASH,
    BOUND_EXCEPTIONS_ORDER, clone_exceptions, copy_exceptions, debug_exceptions,
    default_exceptions, equality_exceptions, hash_exceptions, order_exceptions,
};
pub use walk::{type_mentions_ident, type_uses_generic_params};
