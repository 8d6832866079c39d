//! What the handlers of all traits share: the trait that they implement, what they note for each other,
//! bodies of one form, and the headers of their impls.
#![tactic(auto)]

mod bodies;
mod calling;
mod context;
mod handler;
mod header;
mod impls;
mod items;
mod naming;
mod parts;
mod patterns;
mod prerequisites;
mod reading;

pub use bodies::{block_of, body_of, name_of, same_name};
pub use calling::called;
pub use context::TraitHandlerContext;
pub use handler::TraitHandler;
pub use impls::{impl_alone, impl_block, impl_of};
pub use items::{function, lint_attributes};
pub use naming::{parameter, select, select_prefix, used_idents};
pub use parts::{EnumPart, StructPart};
pub use patterns::{bare_pattern, has_brackets, is_unit, key, pattern};
pub use reading::{Reading, read};
