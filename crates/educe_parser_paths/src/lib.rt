//! The parser of the constituents of types: names, token trees, paths and bounds. Each function
//! that reads tokens parses one production of the grammar, or a part of one.
#![tactic(auto)]

mod lookahead;
mod names;
mod paths;
mod trait_bounds;
mod trees;

pub use names::{lifetime, name, segment_name, skip_lifetime};
pub use paths::{
    Constant, angle_args, is_scope, output, qualified, qualified_path, qualified_self, skip_colons,
    type_path,
};
pub use trait_bounds::{
    Bound, BoundRead, bound_paths, bounds, for_all, lifetime_bounds, optional_for_all,
};
pub use trees::{group, some_trees, tree};
