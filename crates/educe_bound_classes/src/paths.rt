//! Tests on the segments of paths.
ghost use Rattle.std.specs.Prelude.{◌≡◌, chars};
ghost use Rattle.std.specs.List.{list_any};
ghost use Rattle.std.specs.Str.{bytes_eq};
ghost use Rattle.educe_tree.specs.declared.path.Path.{out-Path};
ghost use Rattle.educe_bound_classes.specs.Names.{params_of};
ghost use Rattle.educe_bound_classes.specs.Params.{is_param as is_param_of, is_type_param as is_type_param_of};
ghost use Rattle.educe_bound_classes.specs.Paths as spec;

use crate::params::{Names, is_param, is_type_param};
use educe_tokens::Spelling;
use educe_tree::{Path, is_spelled};

/// Whether the path begins with the name of a type or const parameter.
pub fn begins_with_param(names: Names<'_, '_>, path: &Path) -> bool
    ensures { result ≡ spec.begins_with (is_param_of (params_of names.entry)) path.now }
{
    match path.segments.as_slice().first() {
        Some(first) => !path.leading && is_param(names, &first.ident.text),
        None => false,
    }
}

/// Whether the path begins with the name of a type parameter.
pub fn begins_with_type_param(names: Names<'_, '_>, path: &Path) -> bool
    ensures { result ≡ spec.begins_with (is_type_param_of (params_of names.entry)) path.now }
{
    match path.segments.as_slice().first() {
        Some(first) => !path.leading && is_type_param(names, &first.ident.text),
        None => false,
    }
}

/// Whether the path begins with this word.
pub fn begins_with_word(path: &Path, word: &str) -> bool
    ensures { result ≡ spec.begins_with (λ text. bytes_eq (chars word.now) text) path.now }
{
    match path.segments.as_slice().first() {
        Some(first) => !path.leading && is_spelled(&first.ident.text, word),
        None => false,
    }
}

/// Whether a segment of the path has this name.
pub fn has_segment(path: &Path, name: &Spelling) -> bool
    ensures { result ≡ list_any (λ s. bytes_eq name.now s.ident.text) (out-Path path.now).segments }
{
    for segment in path.segments.as_slice() {
        if is_spelled(&segment.ident.text, name.as_str()) {
            return true;
        }
    }
    false
}
