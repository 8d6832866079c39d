//! Functions that call the methods of fields, so that these count as used and have to fit.
ghost use Rattle.std.specs.Prelude.{◌≡◌, ◌∷◌, [], ◌++◌, map, IfOk, OnOk};
ghost use Rattle.std.specs.List.{AllByRecursion};
ghost use Rattle.educe_syntax.specs.Readings.{AreNamed, AreReadGenerics, IsReadType, IsReadPath};
ghost use Rattle.educe_settings.specs.Ranked.{kept_of};
ghost use Rattle.educe_meaning.specs.Checks.{texts_of};
ghost use Rattle.educe_make_markers.specs.Marking as spec;

use educe_body::{Item, Items, MarkerItem, Names};
use educe_bound::Trait;
use educe_handlers::lint_attributes;
use educe_settings::{How, Ranked};
use educe_syntax::{DeriveInput, Duplicate, ExprPath, Field, Generics, Ident};
use educe_syntax_self::ReplaceSelf;
use educe_tokens::{Seq, Word};
use std::alloc::{AllocError, Global};

/// The names that a marker declares.
#[derive(Drop)]
pub struct MarkerNames {
    /// The function of the marker.
    pub function: Ident,
    /// The parameter of the marker's function.
    pub value: Ident,
    /// The formatter that the function of a marker of `Debug` has besides.
    pub formatter: Option<Ident>,
}

/// What the markers of a definition have in common.
#[derive(Clone, Copy)]
pub struct MethodMarker<'a> {
    /// The trait whose methods the markers call.
    pub which: Trait,
    pub ast: &'a DeriveInput,
    pub replace: &'a ReplaceSelf,
    /// The generics of the impl.
    pub generics: &'a Generics,
    pub names: &'a MarkerNames,
}

/// Adds a name, if there is one, as a word.
fn push_name(alloc: Global, name: &Option<Ident>, found: &mut Names) -> Result<(), AllocError>
    ensures { OnOk result (texts_of found.new ≡ texts_of found.old ++ spec.own_texts name.now) }
{
    match name {
        Some(name) => found.push(Word::new(name.text.duplicate(alloc)?)),
        None => Ok(()),
    }
}

/// The names of a marker, as words.
fn marker_names(alloc: Global, names: &MarkerNames) -> Result<Names, AllocError>
    ensures { IfOk result (λ found. texts_of found ≡ spec.names_of names.now) }
{
    let mut found = Seq::new(alloc);
    found.push(Word::new(names.function.text.duplicate(alloc)?))?;
    found.push(Word::new(names.value.text.duplicate(alloc)?))?;
    push_name(alloc, &names.formatter, &mut found)?;
    Ok(found)
}

/// The marker of a field with this method.
fn marker_item(
    alloc: Global,
    marking: &MethodMarker<'_>,
    field: &Field,
    method: &ExprPath,
) -> Result<MarkerItem, AllocError>
    requires can { spec.CanMark marking.now }
    requires ty { IsReadType field.now.ty }
    requires method { IsReadPath method.now }
    ensures { IfOk result (spec.IsMarkerOf marking.now field.now.ty method.now) }
{
    let replace = marking.replace;
    Ok(MarkerItem {
        which: marking.which,
        attributes: lint_attributes(alloc, marking.ast)?,
        generics: replace.visit_generics(alloc, marking.generics)?,
        ty: replace.visit_type(alloc, &field.ty)?,
        method: replace.visit_path(alloc, method)?,
        names: marker_names(alloc, marking.names)?,
    })
}

/// Adds the marker of a field with this method behind these items.
fn push_item(
    alloc: Global,
    marking: &MethodMarker<'_>,
    field: &Field,
    method: &ExprPath,
    items: &mut Items,
) -> Result<(), AllocError>
    requires can { spec.CanMark marking.now }
    requires ty { IsReadType field.now.ty }
    requires method { IsReadPath method.now }
    ensures { OnOk result (spec.AddsMarker marking.now field.now.ty method.now items.old items.new) }
{
    let item = marker_item(alloc, marking, field, method)?;
    items.push(Item::Marker(item))
}

/// Adds the marker of a field behind these items, where the field has a method.
fn push_marker(
    alloc: Global,
    marking: &MethodMarker<'_>,
    ranked: &Ranked<'_, '_>,
    items: &mut Items,
) -> Result<(), AllocError>
    requires can { spec.CanMark marking.now }
    requires marks { spec.MayMark (kept_of ranked.now) }
    ensures { OnOk result (spec.AddsMarkers marking.now (kept_of ranked.now ∷ []) items.old items.new) }
{
    match ranked.how {
        How::Plainly => Ok(()),
        How::ByMethod(path) => push_item(alloc, marking, ranked.field, path, items),
        How::ByOrder(path) => push_item(alloc, marking, ranked.field, path, items),
    }
}

/// Adds the markers of fields, in their order, behind these items.
fn push_each(
    alloc: Global,
    marking: &MethodMarker<'_>,
    fields: &[Ranked<'_, '_>],
    items: &mut Items,
) -> Result<(), AllocError>
    requires can { spec.CanMark marking.now }
    requires marks { AllByRecursion spec.MayMark (map kept_of fields.now) }
    ensures { OnOk result (spec.AddsMarkers marking.now (map kept_of fields.now) items.old items.new) }
{
    for ranked in fields {
        push_marker(alloc, marking, ranked, items)?;
    }
    Ok(())
}

/// The markers of these fields of a definition for a trait, where the impl has these generics.
pub fn method_markers(
    alloc: Global,
    which: Trait,
    ast: &DeriveInput,
    names: &MarkerNames,
    generics: &Generics,
    fields: &[Ranked<'_, '_>],
) -> Result<Items, AllocError>
    requires named { AreNamed ast.now }
    requires generics { AreReadGenerics generics.now }
    requires marks { AllByRecursion spec.MayMark (map kept_of fields.now) }
    ensures { IfOk result (spec.AreAll which ast.now generics.now (spec.names_of names.now) (map kept_of fields.now)) }
{
    let replace = ReplaceSelf::new(alloc, ast)?;
    let marking = MethodMarker {
        which,
        ast,
        replace: &replace,
        generics,
        names,
    };
    let mut items = Seq::new(alloc);
    push_each(alloc, &marking, fields, &mut items)?;
    Ok(items)
}
