//! Rows, the forms of a trait's attribute that each place allows, and the one reader of an
//! attribute by its row.
#![tactic(auto)]

mod behind;
mod giving;
mod laws;
mod param;
mod reader;
mod refusing;
mod row;
mod usage;
mod values;

pub use laws::row_laws;
pub use param::Param;
pub use reader::{metas_in_pair, read_form, read_meta};
pub use row::{Equals, NameKind, Row};
pub use values::{Rank, Values};
