//! The handlers of the traits that do not compare: `Debug`, `Clone`, `Copy`, `Hash` and `Default`. This
//! crate has no code of its own: it passes on what users of handlers name.
#![tactic(auto)]

pub use educe_make_clone::{
    CloneEnumHandler, CloneHandler, CloneStructHandler, CopyEnumHandler, CopyHandler,
    CopyStructHandler,
};
pub use educe_make_debug::{DebugEnumHandler, DebugHandler, DebugStructHandler};
pub use educe_make_default::{DefaultEnumHandler, DefaultHandler, DefaultStructHandler};
pub use educe_make_hash::{HashEnumHandler, HashHandler, HashStructHandler};
pub use educe_make_markers::{MarkerNames, MethodMarker, method_markers};
pub use educe_settings_types::can_use_bitwise_copy;
