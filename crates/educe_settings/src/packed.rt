//! Whether fields are read by copies.
ghost use Rattle.std.specs.Prelude.{IfOk};
ghost use Rattle.educe_settings.specs.Packed.{AreCopied};

use educe_attrs::is_packed;
use educe_syntax::{DeriveInput, Shape};
use std::alloc::{AllocError, Global};

/// Whether fields are read by copies: in a packed struct, of whose fields no references can be taken
/// (Rust Reference, The alignment modifiers).
pub fn is_copied(alloc: Global, ast: &DeriveInput) -> Result<bool, AllocError>
    ensures { IfOk result (AreCopied ast.now) }
{
    match &ast.shape {
        Shape::Struct(_) => is_packed(alloc, &ast.attrs),
        Shape::Enum(_) => Ok(false),
    }
}
