//! How the values of each case are shown, by what the attributes say.
ghost use Rattle.std.specs.Prelude.{◌≡◌, IfOk, IfErr};
ghost use Rattle.std.specs.Option.{option_copied};
ghost use Rattle.educe_syntax.specs.Shape.TheVariants.{Struct, Enum};
ghost use Rattle.educe_attrs.specs.Causes.{OfStop};
ghost use Rattle.educe_attrs.specs.Phases.{OfHandler};
ghost use Rattle.educe_body_forms.specs.LiteralTexts.{optional_text};
ghost use Rattle.educe_bound_traits.specs.declared.traits.Trait.TheVariants.{Debug};
ghost use Rattle.educe_settings.specs.Handled.{handling};
ghost use Rattle.educe_settings.specs.Settings.{type_settings};
ghost use Rattle.educe_settings.specs.Shown as spec;
ghost use Rattle.educe_make_debug.specs.Cases.{IsCaseOf, AreCases, AreVariantCases, IsShown};
ghost use Rattle.educe_make_debug.specs.Origins.{variant_kind, variant_place};
ghost use Rattle.educe_settings_types.specs.Read.{IsTyped, IsOneOf, IsVariantRead, AreVariantsRead, AreRead};

use crate::debug_shown::{Case, Shown};
use crate::debug_texts::{path_text, type_name, type_text, variant_name};
use educe_attrs::{Stop, Values};
use educe_handlers::is_unit;
use educe_settings::Task;
use educe_settings_types::{entry_settings, naming_values, struct_named, variant_named};
use educe_syntax::{FieldShape, Ident, Shape, Variant};
use educe_tokens::{Kind, Seq, Span};
use std::alloc::Global;

/// The case of a struct whose attributes say this, of which this name is shown. It is rejected exactly where
/// an attribute of a field is wrong, or memory fails.
fn struct_case<'d>(
    alloc: Global,
    task: Task<'d, '_>,
    own: &Values,
    name: Option<&Ident>,
    shape: &'d FieldShape,
) -> Result<Case<'d>, Stop>
    requires typed { IsTyped task.ast.now task.listed.now }
    requires own { own.now ≡ type_settings Debug task.ast.now }
    requires name { optional_text (option_copied name) ≡ spec.type_text task.ast.now own.now }
    requires shape { task.ast.now.shape ≡ Struct shape.now }
    ensures are { IfOk result (IsCaseOf task.entry.ast.now (spec.struct_shown task.entry.ast.now shape.now)) }
    ensures read { IfOk result (λ _. spec.IsCaseRead task.entry.ast.now (spec.struct_shown task.entry.ast.now shape.now)) }
    ensures err { IfErr result (λ s. OfStop (OfHandler (handling task.entry.ast.now) Debug) s) }
{
    let named = struct_named(own, shape);
    let fields = shape.fields.as_slice();
    let settings = entry_settings(alloc, task, named, fields)?;
    Ok(Case {
        unit: false,
        name: type_text(alloc, name)?,
        named,
        fields,
        settings,
        need: Kind::UnitStructNeedName,
        place: task.ast.ident.span,
    })
}

/// Why a variant is rejected of which nothing is shown.
fn variant_need(unit: bool) -> Kind
    ensures { result ≡ variant_kind unit }
{
    if unit {
        Kind::UnitVariantNeedName
    } else {
        Kind::UnitStructNeedName
    }
}

/// The place at which a variant of which nothing is shown is rejected: the whole of a unit variant, and the
/// name of another.
fn need_place(variant: &Variant, unit: bool) -> Span
    ensures { result ≡ variant_place unit variant.now }
{
    if unit {
        variant.span
    } else {
        variant.ident.span
    }
}

/// The case of a variant of a type of which this name is shown. It is rejected exactly where an attribute of
/// the variant or of a field is wrong, or memory fails.
fn variant_case<'d>(
    alloc: Global,
    task: Task<'d, '_>,
    own: Option<&Ident>,
    variant: &'d Variant,
) -> Result<Case<'d>, Stop>
    requires typed { IsTyped task.ast.now task.listed.now }
    requires own { optional_text (option_copied own) ≡ spec.type_text task.ast.now (type_settings Debug task.ast.now) }
    requires variant { IsOneOf task.ast.now variant.now }
    ensures are { IfOk result (IsCaseOf task.entry.ast.now (spec.variant_shown task.entry.ast.now variant.now)) }
    ensures read { IfOk result (λ _. IsVariantRead task.entry.ast.now variant.now) }
    ensures err { IfErr result (λ s. OfStop (OfHandler (handling task.entry.ast.now) Debug) s) }
{
    let values = naming_values(alloc, task, variant)?;
    let unit = is_unit(variant);
    let named = variant_named(&values, variant);
    let fields = variant.fields.fields.as_slice();
    let settings = entry_settings(alloc, task, named, fields)?;
    Ok(Case {
        unit,
        name: path_text(alloc, own, variant_name(variant, &values))?,
        named,
        fields,
        settings,
        need: variant_need(unit),
        place: need_place(variant, unit),
    })
}

/// The case of each variant of a type of which this name is shown. It is rejected exactly where an attribute
/// of a variant or of a field is wrong, or memory fails.
fn variant_cases<'d>(
    alloc: Global,
    task: Task<'d, '_>,
    own: Option<&Ident>,
    variants: &'d [Variant],
) -> Result<Seq<Case<'d>>, Stop>
    requires typed { IsTyped task.ast.now task.listed.now }
    requires own { optional_text (option_copied own) ≡ spec.type_text task.ast.now (type_settings Debug task.ast.now) }
    requires shape { task.ast.now.shape ≡ Enum variants.now }
    ensures are { IfOk result (λ cases. AreVariantCases task.entry.ast.now variants.now cases) }
    ensures read { IfOk result (λ _. AreVariantsRead task.entry.ast.now variants.now) }
    ensures err { IfErr result (λ s. OfStop (OfHandler (handling task.entry.ast.now) Debug) s) }
{
    let mut cases = Seq::new(alloc);
    for variant in variants {
        match variant_case(alloc, task, own, variant) {
            Ok(case) => cases.push(case)?,
            // (`?` would convert the rejection, which its clause takes as it is.)
            Err(stop) => return Err(stop),
        }
    }
    Ok(cases)
}

/// The case of a struct, or that of each variant of an enum, where the attributes of the type say this, and
/// this name of it is shown.
fn all_cases<'d>(
    alloc: Global,
    task: Task<'d, '_>,
    own: &Values,
    name: Option<&Ident>,
) -> Result<Seq<Case<'d>>, Stop>
    requires typed { IsTyped task.ast.now task.listed.now }
    requires own { own.now ≡ type_settings Debug task.ast.now }
    requires name { optional_text (option_copied name) ≡ spec.type_text task.ast.now own.now }
    ensures are { IfOk result (λ cases. AreCases task.entry.ast.now cases) }
    ensures read { IfOk result (λ _. AreRead task.entry.ast.now) }
    ensures err { IfErr result (λ s. OfStop (OfHandler (handling task.entry.ast.now) Debug) s) }
{
    match &task.ast.shape {
        Shape::Struct(shape) => {
            let case = struct_case(alloc, task, own, name, shape)?;
            let mut cases = Seq::new(alloc);
            cases.push(case)?;
            Ok(cases)
        }
        Shape::Enum(variants) => variant_cases(alloc, task, name, variants.as_slice()),
    }
}

/// How the values of a definition are shown, where the attributes of its type say this. It is rejected
/// exactly where an attribute of a variant or of a field is wrong, or memory fails.
pub fn read_shown<'d>(alloc: Global, task: Task<'d, '_>, own: &Values) -> Result<Shown<'d>, Stop>
    requires typed { IsTyped task.ast.now task.listed.now }
    requires own { own.now ≡ type_settings Debug task.ast.now }
    ensures ast { IfOk result (λ shown. shown.ast.now ≡ task.entry.ast.now) }
    ensures are { IfOk result IsShown }
    ensures read { IfOk result (λ _. AreRead task.entry.ast.now) }
    ensures err { IfErr result (λ s. OfStop (OfHandler (handling task.entry.ast.now) Debug) s) }
{
    let name = type_name(task.ast, own);
    let cases = all_cases(alloc, task, own, name)?;
    Ok(Shown {
        ast: task.ast,
        name: type_text(alloc, name)?,
        cases,
    })
}
