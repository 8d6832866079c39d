//! Whether a type is packed (Rust Reference, The alignment modifiers).
ghost use Rattle.std.specs.Prelude.{◌≡◌, ◌↔◌, IsTrue, IfOk};
ghost use Rattle.std.specs.List.{list_any};
ghost use Rattle.educe_attrs_generated.specs.Packed as spec;

use crate::represented::representation;
use crate::word::is_one_word;
use educe_syntax::{Attributes, Meta, MetaPath};
use std::alloc::{AllocError, Global};

/// Whether the path is `packed`.
#[tactic(auto, using(crate::proofs::Words::chars_packed))]
fn is_packed_path(path: &MetaPath) -> bool
    ensures { result ≡ spec.is_packed_path path.now }
{
    is_one_word(path, "packed")
}

/// Whether the meta has the path `packed`.
fn says_packed(meta: &Meta) -> bool
    ensures { result ≡ spec.says_packed meta.now }
{
    match meta {
        Meta::Word(path) => is_packed_path(path),
        Meta::List(path, _, _) => is_packed_path(path),
        Meta::NameValue(path, _, _) => is_packed_path(path),
        Meta::Doc(_) => false,
        Meta::Unread(path, _, _) => is_packed_path(path),
    }
}

/// Whether one of the metas does.
fn one_says_packed(metas: &[Meta]) -> bool
    ensures { result ≡ list_any spec.says_packed metas.now }
{
    metas.iter().any(|meta| says_packed(meta))
}

/// Whether the attributes of a type pack it: a `repr` list holds `packed` or `packed(..)` (Rust
/// Reference, The alignment modifiers). A list that is no list of metas does not. Fails only when
/// out of memory.
pub fn is_packed(alloc: Global, attributes: &Attributes) -> Result<bool, AllocError>
    ensures { IfOk result (λ packed. IsTrue packed ↔ spec.IsPacked attributes.now) }
{
    let held = representation(alloc, attributes)?;
    Ok(one_says_packed(held.as_slice()))
}
