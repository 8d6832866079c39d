//! The functions of the core library that the functions of `Clone` call.
ghost use Rattle.std.specs.Prelude.{IfOk};
ghost use Rattle.educe_body_values.specs.BuiltIn.{IsBuiltIn};
ghost use Rattle.educe_meaning.specs.CloneBodies as spec;
ghost use Rattle.educe_make_clone.specs.ClonePaths.{AreClonePaths};

use educe_body::{BuiltIn, Shared, built_in_path};
use educe_syntax::ExprPath;
use std::alloc::{AllocError, Global};

/// The paths of `Clone::clone` and of `Clone::clone_from`.
#[derive(Drop)]
pub struct ClonePaths {
    pub clone: Shared<ExprPath>,
    pub clone_from: Shared<ExprPath>,
}

/// The paths, which every step without a method calls.
pub fn clone_paths(alloc: Global) -> Result<ClonePaths, AllocError>
    ensures { IfOk result AreClonePaths }
{
    let clone = built_in_path(alloc, BuiltIn::Clone)?;
    let clone_from = built_in_path(alloc, BuiltIn::CloneFrom)?;
    Ok(ClonePaths {
        clone: Shared::new(alloc, clone)?,
        clone_from: Shared::new(alloc, clone_from)?,
    })
}

/// The one that `clone_from` calls: where fields are read by copies, that of `Clone::clone`.
pub fn assigning(paths: &ClonePaths, copied: bool) -> &Shared<ExprPath>
    requires { AreClonePaths paths.now }
    ensures { IsBuiltIn (spec.assigning copied) result.now }
{
    if copied {
        &paths.clone
    } else {
        &paths.clone_from
    }
}
