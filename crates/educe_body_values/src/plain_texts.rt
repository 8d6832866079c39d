//! The plain text of what `fmt` shows, as `{:?}` prints it.
ghost use Rattle.std.specs.Prelude.{◌≡◌, ◌++◌, [], IsTrue, IfOk, OnOk, chars, true};
ghost use Rattle.std.specs.Char.{is_ascii};
ghost use Rattle.std.specs.List.{list_all};
ghost use Rattle.std.specs.String.{string_bytes};
ghost use Rattle.educe_body_values.specs.PlainTexts as spec;
ghost use Rattle.educe_body_values.specs.declared.shape.ShapeForm.TheVariants as shape;

use crate::shape::{DebugShape, Entry, ShapeForm};
use educe_tokens::Spelling;
use std::alloc::{AllocError, Global};

/// Adds a text of ASCII characters.
fn push_word(out: &mut String, word: &str) -> Result<(), AllocError>
    requires { IsTrue (list_all is_ascii word.now) }
    ensures { OnOk result (chars (string_bytes out.new) ≡ chars (string_bytes out.old) ++ word.now) }
{
    out.push_str(word)?;
    Ok(())
}

/// Adds a text.
fn push_text(out: &mut String, text: &Spelling) -> Result<(), AllocError>
    ensures { OnOk result (chars (string_bytes out.new) ≡ chars (string_bytes out.old) ++ text.now) }
{
    out.push_str(text.as_str())?;
    Ok(())
}

/// Adds what stands before the text of a value: its key, but none in a tuple.
fn push_key(out: &mut String, form: ShapeForm, entry: &Entry) -> Result<(), AllocError>
    ensures { OnOk result (chars (string_bytes out.new) ≡
        chars (string_bytes out.old) ++ spec.before_value form entry.now) }
{
    match form {
        ShapeForm::Struct | ShapeForm::Map => {
            push_text(out, &entry.key)?;
            push_word(out, ": ")
        }
        ShapeForm::Word | ShapeForm::Tuple => Ok(()),
    }
}

/// Adds an entry, behind a comma unless it is the first.
fn push_entry(
    out: &mut String,
    form: ShapeForm,
    first: bool,
    entry: &Entry,
    text: &Spelling,
) -> Result<(), AllocError>
    ensures { OnOk result (chars (string_bytes out.new) ≡ chars (string_bytes out.old) ++
        (spec.separator first ++ spec.before_value form entry.now ++ text.now)) }
{
    if !first {
        push_word(out, ", ")?;
    }
    push_key(out, form, entry)?;
    push_text(out, text)
}

/// Adds the entries, each with its text.
fn push_entries(
    out: &mut String,
    form: ShapeForm,
    entries: &[Entry],
    texts: &[Spelling],
) -> Result<(), AllocError>
    ensures { OnOk result (chars (string_bytes out.new) ≡
        chars (string_bytes out.old) ++ spec.joined form true entries.now texts.now) }
{
    let mut first = true;
    for (i, entry) in entries.iter().enumerate() {
        if i >= texts.len() {
            return Ok(());
        }
        push_entry(out, form, first, entry, &texts[i])?;
        first = false;
    }
    Ok(())
}

/// Adds a name, and entries in braces behind it, if there are any.
fn push_struct(
    out: &mut String,
    name: &Spelling,
    entries: &[Entry],
    texts: &[Spelling],
) -> Result<(), AllocError>
    ensures { OnOk result (chars (string_bytes out.new) ≡ chars (string_bytes out.old) ++
        spec.text_in_form shape.Struct name.now entries.now texts.now) }
{
    push_text(out, name)?;
    if entries.is_empty() {
        return Ok(());
    }
    push_word(out, " { ")?;
    push_entries(out, ShapeForm::Struct, entries, texts)?;
    push_word(out, " }")
}

/// Adds the comma of a tuple that has no name and one entry.
fn push_single_comma(out: &mut String, name: &Spelling, entries: &[Entry]) -> Result<(), AllocError>
    ensures { OnOk result (chars (string_bytes out.new) ≡
        chars (string_bytes out.old) ++ spec.single_comma name.now entries.now) }
{
    match entries {
        [_] if name.spells("") => push_word(out, ","),
        _ => Ok(()),
    }
}

/// Adds a name, and entries in parentheses behind it, if there are any.
fn push_tuple(
    out: &mut String,
    name: &Spelling,
    entries: &[Entry],
    texts: &[Spelling],
) -> Result<(), AllocError>
    ensures { OnOk result (chars (string_bytes out.new) ≡ chars (string_bytes out.old) ++
        spec.text_in_form shape.Tuple name.now entries.now texts.now) }
{
    push_text(out, name)?;
    if entries.is_empty() {
        return Ok(());
    }
    push_word(out, "(")?;
    push_entries(out, ShapeForm::Tuple, entries, texts)?;
    push_single_comma(out, name, entries)?;
    push_word(out, ")")
}

/// Adds entries in braces.
fn push_map(out: &mut String, entries: &[Entry], texts: &[Spelling]) -> Result<(), AllocError>
    ensures { OnOk result (chars (string_bytes out.new) ≡ chars (string_bytes out.old) ++
        spec.text_in_form shape.Map [] entries.now texts.now) }
{
    push_word(out, "{")?;
    push_entries(out, ShapeForm::Map, entries, texts)?;
    push_word(out, "}")
}

/// Adds the text of what is shown.
fn push_shape(out: &mut String, shown: &DebugShape, texts: &[Spelling]) -> Result<(), AllocError>
    ensures { OnOk result (chars (string_bytes out.new) ≡
        chars (string_bytes out.old) ++ spec.plain_text shown.now texts.now) }
{
    let entries = shown.entries.as_slice();
    match shown.form {
        ShapeForm::Word => push_text(out, &shown.name),
        ShapeForm::Struct => push_struct(out, &shown.name, entries, texts),
        ShapeForm::Tuple => push_tuple(out, &shown.name, entries, texts),
        ShapeForm::Map => push_map(out, entries, texts),
    }
}

impl DebugShape {
    ghost use Rattle.std.specs.Prelude.{◌≡◌, IfOk, chars};
    ghost use Rattle.std.specs.String.{string_bytes};
    ghost use Rattle.educe_body_values.specs.PlainTexts.{plain_text};

    /// The text that `{:?}` prints, where the values of the entries have these texts.
    pub fn plain_text(&self, alloc: Global, texts: &[Spelling]) -> Result<String, AllocError>
        ensures { IfOk result (λ text. chars (string_bytes text) ≡ plain_text self.now texts.now) }
    {
        let mut out = String::new(alloc);
        push_shape(&mut out, self, texts)?;
        Ok(out)
    }
}
