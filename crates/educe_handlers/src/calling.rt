//! What is called on a field.
ghost use Rattle.std.specs.Prelude.{◌≡◌, IfOk};
ghost use Rattle.educe_settings.specs.Ranked.{how_of, called_by};

use educe_body::Shared;
use educe_settings::How;
use educe_syntax::{Duplicate, ExprPath};
use std::alloc::{AllocError, Global};

/// The path that is called on a field that is treated in this way, where the trait's own function has
/// this path.
pub fn called(
    alloc: Global,
    how: How<'_>,
    plain: &Shared<ExprPath>,
) -> Result<Shared<ExprPath>, AllocError>
    ensures { IfOk result (λ path. path ≡ called_by plain.now (how_of how.entry)) }
{
    match how {
        How::Plainly => plain.duplicate(),
        How::ByMethod(path) => Shared::new(alloc, path.duplicate(alloc)?),
        How::ByOrder(path) => Shared::new(alloc, path.duplicate(alloc)?),
    }
}
