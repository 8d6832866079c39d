//! The entries of the fields that are shown.
ghost use Rattle.std.specs.Prelude.{◌≡◌, ℕ, List, map, false, IfOk};
ghost use Rattle.educe_syntax.specs.DeriveInput.{DeriveInput};
ghost use Rattle.educe_body_values.specs.declared.shape.ShapeForm.{ShapeForm};
ghost use Rattle.educe_settings.specs.Ranked.{how_of, kept_of};
ghost use Rattle.educe_handlers.specs.Readings.{reading_of, CanRead};
ghost use Rattle.educe_settings.specs.Shown.{shown_fields};
ghost use Rattle.educe_meaning.specs.Showing.{form_of};
ghost use Rattle.educe_meaning.specs.ShownBodies as spec;
ghost use Rattle.educe_make_debug.specs.Cases.{shown_of, kept_in, AreSettled};
ghost use Rattle.educe_make_debug.specs.Texts.{key_with};
ghost use Rattle.educe_make_debug.specs.DebugNames.{names_of};
ghost use Rattle.educe_make_debug.specs.Entries.{AreArgued};

use crate::debug_fields::shown_fields;
use crate::debug_names::DebugNames;
use crate::debug_shown::Case;
use crate::debug_texts::{is_shown, key_text};
use educe_attrs::FieldSettings;
use educe_body::{EntryKey, Form, Forms, Shared};
use educe_handlers::{Reading, block_of, read, same_name};
use educe_settings::{How, Ranked};
use educe_syntax::{Duplicate, ExprPath, Field};
use educe_tokens::{Boxed, Seq};
use std::alloc::{AllocError, Global};

/// The key of the entry of a field of a case that is no unit variant.
fn entry_key(
    alloc: Global,
    names: &DebugNames,
    case: &Case<'_>,
    ranked: &Ranked<'_, '_>,
    settings: &FieldSettings,
) -> Result<EntryKey, AllocError>
    requires { case.now.unit ≡ false }
    ensures { IfOk result (spec.IsEntryKey (names_of names.now) (form_of (shown_of case.now))
        (key_with case.now.named settings.now (kept_of ranked.now))) }
{
    if !case.named {
        return Ok(EntryKey::Unnamed);
    }
    let text = key_text(alloc, &settings.values.name, ranked.place, ranked.field)?;
    if is_shown(&case.name) {
        Ok(EntryKey::Named(text))
    } else {
        let helper = same_name(alloc, &names.helper)?;
        Ok(EntryKey::Mapped(helper, text))
    }
}

/// The entry of what a form gives, before which `&` stands or not.
fn entry(
    alloc: Global,
    names: &DebugNames,
    key: EntryKey,
    held: Form,
    by_reference: bool,
) -> Result<Form, AllocError>
    ensures { (form : ShapeForm) (text : List ℕ) → spec.IsEntryKey (names_of names.now) form text key →
        IfOk result (spec.IsEntry (names_of names.now) form text by_reference held) }
{
    let builder = same_name(alloc, &names.builder)?;
    let held = Boxed::new(alloc, held)?;
    Ok(Form::BuilderEntry(builder, key, held, by_reference))
}

/// The argument of the method of a field on what a form gives.
fn argument(
    alloc: Global,
    names: &DebugNames,
    field: &Field,
    method: &ExprPath,
    held: Form,
) -> Result<Form, AllocError>
    ensures { IfOk result (spec.IsArgument (names_of names.now) field.now method.now held) }
{
    let own = names.argument.duplicate()?;
    let held = Boxed::new(alloc, held)?;
    let ty = field.ty.written.duplicate()?;
    let method = Shared::new(alloc, method.duplicate(alloc)?)?;
    Ok(Form::MethodArgument(own, held, ty, method))
}

/// The argument of the method of a field on what is read, and its entry.
fn by_method(
    alloc: Global,
    names: &DebugNames,
    key: EntryKey,
    field: &Field,
    method: &ExprPath,
    held: Form,
) -> Result<Forms, AllocError>
    ensures { (form : ShapeForm) (text : List ℕ) → spec.IsEntryKey (names_of names.now) form text key →
        IfOk result (AreArgued (names_of names.now) form text field.now method.now held) }
{
    let mut forms = block_of(alloc, argument(alloc, names, field, method, held)?)?;
    let local = same_name(alloc, &names.argument.get().argument)?;
    forms.push(entry(alloc, names, key, Form::Local(local), true)?)?;
    Ok(forms)
}

/// Whether `&` stands before a field that is read so: before one of a struct, but not before a variable.
fn is_lent(reading: Reading<'_>) -> bool
    ensures { result ≡ spec.is_lent (reading_of reading.entry) }
{
    match reading {
        Reading::OfBase(_, _) => true,
        Reading::Bound(_) => false,
    }
}

/// The forms on a field of a case that is no unit variant, which is read so.
fn field_forms(
    alloc: Global,
    names: &DebugNames,
    case: &Case<'_>,
    reading: Reading<'_>,
    ranked: &Ranked<'_, '_>,
    settings: &FieldSettings,
) -> Result<Forms, AllocError>
    requires brackets { case.now.unit ≡ false }
    requires reading { CanRead reading }
    ensures { let text = key_with case.now.named settings.now (kept_of ranked.now) in
        IfOk result (spec.AreFormsBy (names_of names.now) (form_of (shown_of case.now)) text (reading_of reading.entry)
        (kept_of ranked.now) (how_of ranked.now.how)) }
{
    let key = entry_key(alloc, names, case, ranked, settings)?;
    let held = read(alloc, reading, ranked)?;
    match ranked.how {
        How::Plainly => block_of(alloc, entry(alloc, names, key, held, is_lent(reading))?),
        How::ByMethod(path) => by_method(alloc, names, key, ranked.field, path, held),
        How::ByOrder(path) => by_method(alloc, names, key, ranked.field, path, held),
    }
}

/// The forms on each of these fields, which are those of a case that are shown, and are read so. The case
/// is no unit variant.
fn forms_on(
    alloc: Global,
    names: &DebugNames,
    case: &Case<'_>,
    reading: Reading<'_>,
    fields: &[Ranked<'_, '_>],
) -> Result<Forms, AllocError>
    requires brackets { case.now.unit ≡ false }
    requires reading { CanRead reading }
    requires fields { map kept_of fields.now ≡ kept_in case.now }
    ensures { (definition : DeriveInput) → AreSettled definition case.now →
        IfOk result (spec.AreEntries definition (names_of names.now) (shown_of case.now) (reading_of reading.entry)
        (map kept_of fields.now)) }
{
    let settings = case.settings.as_slice();
    let mut forms = Seq::new(alloc);
    for ranked in fields {
        let place = ranked.place;
        let own = &settings[place];
        forms.append(field_forms(alloc, names, case, reading, ranked, own)?)?;
    }
    Ok(forms)
}

/// The forms on each field of a case that is shown, which is read so. The case is no unit variant.
pub fn entries(
    alloc: Global,
    names: &DebugNames,
    case: &Case<'_>,
    reading: Reading<'_>,
) -> Result<Forms, AllocError>
    requires brackets { case.now.unit ≡ false }
    requires reading { CanRead reading }
    ensures { (definition : DeriveInput) → AreSettled definition case.now →
        IfOk result (spec.AreEntries definition (names_of names.now) (shown_of case.now) (reading_of reading.entry)
        (shown_fields definition (shown_of case.now))) }
{
    let kept = shown_fields(alloc, case)?;
    forms_on(alloc, names, case, reading, &kept)
}
