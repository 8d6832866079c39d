//! The values of the parameters of `educe` attributes: their kinds, and the causes for which a
//! value is rejected (documentation of `educe`, Traits).
#![tactic(auto)]

mod choices;
mod fault;
mod integer;
mod kind;
mod laws;
mod message;
mod opening;
mod readers;
mod reading;
mod refusing;
mod source;
mod stop;
mod text;
mod value;
mod word;

pub use choices::{IdentOrBool, WherePredicatesOrBool};
pub use educe_bound_traits::{is_one_word, is_word};
pub use kind::ValueKind;
pub use laws::value_laws;
pub use readers::{
    meta_2_bool, meta_2_bool_allow_path, meta_2_expr, meta_2_ident, meta_2_ident_and_bool,
    meta_2_isize, meta_2_path,
};
pub use refusing::at_name;
pub use source::inside;
pub use stop::{Stop, error_of};
pub use value::{
    read_bound, read_expr, read_flag, read_ident, read_integer, read_name, read_path, read_truth,
};
pub use word::{meta_place, name_of, path_of, place_of};
