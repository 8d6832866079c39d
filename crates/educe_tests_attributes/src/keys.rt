//! The keys of fields, as names of bindings and in initializers.
ghost use Rattle.std.specs.Prelude.{IsTrue};
ghost use Rattle.educe_tokens.specs.Quote.{is_ascii_name};

use crate::builders::ident;
use crate::generated::spelled;
use educe_body_forms::IdentOrIndex;
use educe_syntax::text_of_tree;
use educe_tests::{check_at, lexed, printed};
use std::alloc::Global;
use std::test::Fail;

/// The key of a field of this name, which is empty where it has none, at the place.
fn key(alloc: Global, name: &str, index: u32) -> Result<IdentOrIndex, Fail> {
    if name.is_empty() {
        return Ok(IdentOrIndex::from_ident_with_index(alloc, None, index)?);
    }
    let name = ident(alloc, name)?;
    Ok(IdentOrIndex::from_ident_with_index(alloc, Some(&name), index)?)
}

/// The key of a name or an index by itself.
fn plain(alloc: Global, name: &str, index: u32) -> Result<IdentOrIndex, Fail> {
    if name.is_empty() {
        Ok(IdentOrIndex::from(index))
    } else {
        Ok(IdentOrIndex::from(ident(alloc, name)?))
    }
}

/// The name of the binding of a key, behind a prefix.
#[tactic(auto, using(educe_body::specs::NameLaws::ascii_is_word))]
fn binding(alloc: Global, key: &IdentOrIndex, prefix: &str) -> Result<String, Fail>
    requires { IsTrue (is_ascii_name prefix.now) }
{
    Ok(printed(alloc, key.to_binding(alloc, prefix)?)?)
}

/// The initializer of a field with this value.
fn initializer(alloc: Global, key: &IdentOrIndex, value: &str) -> Result<String, Fail> {
    let tokens = key.to_field(alloc, &lexed(alloc, value)?)?;
    Ok(spelled(alloc, tokens.as_slice())?)
}

/// A key as it is printed, its binding, and its initializer with a value.
fn shown(alloc: Global, key: &IdentOrIndex, value: &str) -> Result<String, Fail> {
    let text = text_of_tree(alloc, key)?;
    let binding = binding(alloc, key, "_s_")?;
    let initializer = initializer(alloc, key, value)?;
    Ok(format!(in alloc; "{text} {binding} {initializer}")?)
}

/// The key of a field of this name at the place, with a value. That of the name or the place by itself is
/// shown alike.
fn shown_alike(alloc: Global, name: &str, index: u32, value: &str) -> Result<String, Fail> {
    let found = shown(alloc, &key(alloc, name, index)?, value)?;
    let alike = shown(alloc, &plain(alloc, name, index)?, value)?;
    check_at((name, index), alike.as_str(), found.as_str())?;
    Ok(found)
}

/// The key for the name of a field, if it has one, its place and a value, as in `a 3 = x` and `0 = x`.
pub(crate) fn shown_key(alloc: Global, text: &str) -> Result<String, Fail> {
    let (field, value) = text.split_once(" = ").ok_or(text)?;
    let (name, index) = field.split_once(' ').unwrap_or(("", field));
    let index = index.parse::<u32>().ok().ok_or(text)?;
    shown_alike(alloc, name, index, value)
}
