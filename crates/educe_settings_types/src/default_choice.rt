//! What `default` makes, by what the attributes say.
ghost use Rattle.std.specs.Prelude.{◌≡◌, true, length, map, is_none, IfOk, IfErr};
ghost use Rattle.educe_attrs.specs.Causes.{NoCause, OfStop};
ghost use Rattle.educe_attrs.specs.Phases.{OfHandler};
ghost use Rattle.educe_bound_traits.specs.Traits.{is_listed};
ghost use Rattle.educe_bound_traits.specs.declared.traits.Trait.TheVariants as derived;
ghost use Rattle.educe_settings.specs.Cases.{fields_in};
ghost use Rattle.educe_settings.specs.Defaults as defaults;
ghost use Rattle.educe_settings.specs.Handled.{handling};
ghost use Rattle.educe_syntax.specs.Shape.TheVariants.{Struct, Enum};
ghost use Rattle.educe_settings_types.specs.Chosen.{IsChosen};
ghost use Rattle.educe_settings_types.specs.Defaults.{settings_by, AreMarksRead, IsTyped};

use crate::default_marks::{chosen_place, marks_of};
use crate::default_values::{values_of, values_of_variants};
use educe_attrs::{FieldSettings, Stop, Values};
use educe_settings::Task;
use educe_syntax::{Expr, FieldShape, Shape, Variant};
use educe_tokens::{Seq, Span};
use std::alloc::Global;

/// What `default` makes, and what the attributes of each field say that it writes.
#[derive(Drop)]
pub enum Chosen<'d> {
    /// The value that the type says for itself.
    ByValue(Expr),
    /// The struct.
    OfStruct(&'d FieldShape, Seq<FieldSettings>),
    /// This variant.
    OfVariant(&'d Variant, Seq<FieldSettings>),
}

/// What is made of a struct. Rejected exactly where the attributes of a field have a cause, or memory fails.
fn struct_choice<'d>(
    alloc: Global,
    task: Task<'d, '_>,
    value: Option<Expr>,
    shape: &'d FieldShape,
) -> Result<Chosen<'d>, Stop>
    requires typed { IsTyped task.ast.now task.listed.now (is_none value) }
    requires lists { is_listed task.listed.now derived.Default ≡ true }
    requires value { value ≡ (defaults.type_values task.ast.now).expression }
    requires shape { task.ast.now.shape ≡ Struct shape.now }
    ensures are { IfOk result (IsChosen task.entry.ast.now) }
    ensures uncaused { IfOk result (λ _. NoCause (OfHandler (handling task.entry.ast.now) derived.Default)) }
    ensures err { IfErr result (λ s. OfStop (OfHandler (handling task.entry.ast.now) derived.Default) s) }
{
    let settings = values_of(alloc, task, value.is_none(), shape.fields.as_slice())?;
    match value {
        Some(value) => Ok(Chosen::ByValue(value)),
        None => Ok(Chosen::OfStruct(shape, settings)),
    }
}

/// The variant that is chosen by what the attributes of all say. Rejected exactly where none is.
fn variant_choice<'d>(
    alloc: Global,
    task: Task<'d, '_>,
    marks: &[Values],
    values: Seq<Seq<FieldSettings>>,
    own: Span,
    variants: &'d [Variant],
) -> Result<Chosen<'d>, Stop>
    requires typed { IsTyped task.ast.now task.listed.now true }
    requires own { own ≡ (defaults.type_values task.ast.now).span }
    requires shape { task.ast.now.shape ≡ Enum variants.now }
    requires marks { marks.now ≡ map (defaults.mark_values task.ast.now) variants.now }
    requires marks_read { AreMarksRead task.ast.now variants.now }
    requires values { values ≡
        map (λ v. map (settings_by (defaults.is_written task.ast.now variants.now v) task.ast.now) (fields_in v)) variants.now }
    requires marks_each { length marks.now ≡ length variants.now }
    requires values_each { length values ≡ length variants.now }
    ensures are { IfOk result (IsChosen task.entry.ast.now) }
    ensures err { IfErr result (λ s. OfStop (OfHandler (handling task.entry.ast.now) derived.Default) s) }
{
    let place = chosen_place(alloc, marks, own)?;
    let variant = &variants[place];
    let mut values = values.into_items();
    let settings = values.swap_remove(place);
    Ok(Chosen::OfVariant(variant, settings))
}

/// What is made of an enum of these variants, whose type has its attribute there. Rejected exactly where the
/// attributes of a variant or a field have a cause, two variants are marked, or none is and there is not
/// only one, or memory fails.
fn enum_choice<'d>(
    alloc: Global,
    task: Task<'d, '_>,
    value: Option<Expr>,
    own: Span,
    variants: &'d [Variant],
) -> Result<Chosen<'d>, Stop>
    requires typed { IsTyped task.ast.now task.listed.now (is_none value) }
    requires lists { is_listed task.listed.now derived.Default ≡ true }
    requires value { value ≡ (defaults.type_values task.ast.now).expression }
    requires own { own ≡ (defaults.type_values task.ast.now).span }
    requires shape { task.ast.now.shape ≡ Enum variants.now }
    ensures are { IfOk result (IsChosen task.entry.ast.now) }
    ensures uncaused { IfOk result (λ _. NoCause (OfHandler (handling task.entry.ast.now) derived.Default)) }
    ensures err { IfErr result (λ s. OfStop (OfHandler (handling task.entry.ast.now) derived.Default) s) }
{
    let bare = value.is_none();
    let marks = marks_of(alloc, task, bare, variants)?;
    let values = values_of_variants(alloc, task, bare, marks.as_slice(), variants)?;
    match value {
        Some(value) => Ok(Chosen::ByValue(value)),
        None => variant_choice(alloc, task, marks.as_slice(), values, own, variants),
    }
}

/// What `default` makes, where the type says this value, at that place. Rejected exactly where the
/// attributes of a variant or a field have a cause, or which variant is made is not determined, or memory
/// fails.
pub fn choose<'d>(
    alloc: Global,
    task: Task<'d, '_>,
    value: Option<Expr>,
    own: Span,
) -> Result<Chosen<'d>, Stop>
    requires typed { IsTyped task.ast.now task.listed.now (is_none value) }
    requires lists { is_listed task.listed.now derived.Default ≡ true }
    requires value { value ≡ (defaults.type_values task.ast.now).expression }
    requires own { own ≡ (defaults.type_values task.ast.now).span }
    ensures are { IfOk result (IsChosen task.entry.ast.now) }
    ensures uncaused { IfOk result (λ _. NoCause (OfHandler (handling task.entry.ast.now) derived.Default)) }
    ensures err { IfErr result (λ s. OfStop (OfHandler (handling task.entry.ast.now) derived.Default) s) }
{
    match &task.ast.shape {
        Shape::Struct(shape) => struct_choice(alloc, task, value, shape),
        Shape::Enum(variants) => enum_choice(alloc, task, value, own, variants.as_slice()),
    }
}
