//! The keys of fields: what stands behind the `.` where a field is read (Rust Reference, Field
//! access expressions; Tuple indexing expressions).
ghost use Rattle.std.specs.Prelude.{◌≡◌, IfOk};
ghost use Rattle.std.specs.Fmt.{decimal};
ghost use Rattle.std.specs.Str.{bytes_eq};
ghost use Rattle.educe_body_forms.specs.Keys.{key_of, IsIndexOf, begins_plain};

use crate::text::is_text;
use educe_tokens::{Spelling, Word};
use educe_tree::Field;
use std::alloc::{AllocError, Global};

/// The word by which the field at a place is read: its name as it was written, or where it has none
/// the decimal digits of the place. Fails only where memory runs out (Rust Reference, Field access
/// expressions; Tuple indexing expressions).
pub fn key_word(alloc: Global, place: usize, field: &Field) -> Result<Word, AllocError>
    ensures { IfOk result (λ word. word.text ≡ key_of place field.now) }
{
    match &field.ident {
        Some(ident) => Ok(Word::new(ident.text.duplicate(alloc)?)),
        None => index_word(alloc, place),
    }
}

/// The decimal digits of a place, as a word.
pub fn index_word(alloc: Global, place: usize) -> Result<Word, AllocError>
    ensures { IfOk result (λ word. word.text ≡ decimal place) }
{
    let digits = place.to_string(alloc)?;
    let text = Spelling::from_str(alloc, &digits)?;
    Ok(Word::new(text))
}

/// Whether a text may be the decimal digits of a number: it begins neither with `+` nor with a `0`
/// that others follow.
fn begins_plain(text: &str) -> bool
    ensures { result ≡ begins_plain text.now }
{
    match text.as_bytes() {
        [] => false,
        [b'0'] => true,
        [first, ..] => *first != b'0' && *first != b'+',
    }
}

/// The number whose decimal digits a text is, if it is one of these.
pub fn index_of(text: &Spelling) -> Option<usize>
    ensures { IsIndexOf text.now result }
{
    let text = text.as_str();
    if begins_plain(text) {
        text.parse().ok()
    } else {
        None
    }
}

/// Whether the field at a place has this key, which is the decimal digits of this number.
pub fn has_key(place: usize, field: &Field, key: &Spelling, index: Option<usize>) -> bool
    requires { IsIndexOf key.now index }
    ensures { result ≡ bytes_eq (key_of place field.now) key.now }
{
    match &field.ident {
        Some(ident) => is_text(&ident.text, key.as_str()),
        None => match index {
            Some(index) => index == place,
            None => false,
        },
    }
}
