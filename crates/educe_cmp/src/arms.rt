//! The arms of the functions of enums.
ghost use Rattle.std.specs.Prelude.{◌≡◌, List, length, map, IfOk, [], ◌∷◌};
ghost use Rattle.std.specs.List.{AllZip};
ghost use Rattle.educe_body_values.specs.BuiltIn.{IsBuiltIn};
ghost use Rattle.educe_syntax.specs.DeriveInput.{DeriveInput};
ghost use Rattle.educe_syntax.specs.Variant.{Variant};
ghost use Rattle.educe_cmp.specs.Names.{names_of};
ghost use Rattle.educe_settings.specs.Ranked.{kept_of};
ghost use Rattle.educe_meaning.specs.Arms as spec;
ghost use Rattle.educe_settings.specs.Cases.{fields_in};
ghost use Rattle.educe_meaning.specs.Comparing as meaning;
ghost use Rattle.educe_meaning.specs.Comparisons.{trait_of};
ghost use Rattle.educe_settings.specs.Settings.{settings_of, kept_fields};
ghost use Rattle.educe_settings.specs.Order.{IsInOrder};
ghost use Rattle.educe_body_forms.specs.declared.form.Form.{Return};
ghost use Rattle.educe_body_forms.specs.declared.form.Form as Form;

use crate::comparing::{neutral, steps};
use crate::names::Names;
use educe_attrs::FieldSettings;
use educe_body::{Arm, Arms, Comparison, Form, Forms, Known, Shared};
use educe_handlers::{Reading, block_of, is_unit, pattern};
use educe_settings::Ranked;
use educe_syntax::{Duplicate, ExprPath, Ident, Variant};
use educe_tokens::{Boxed, Seq};
use std::alloc::{AllocError, Global};

/// What is done where the second value is of another variant.
fn otherwise(alloc: Global, which: Comparison) -> Result<Option<Forms>, AllocError>
    ensures { IfOk result (spec.IsOtherwise which) }
{
    match which {
        Comparison::PartialEq => {
            let differ = Form::Known(Known::Truth(false));
            let forms = block_of(alloc, Form::Return(Boxed::new(alloc, differ)?))?;
            Ok(Some(forms))
        }
        Comparison::PartialOrd => Ok(None),
        Comparison::Ord => Ok(None),
    }
}

/// Whether the arm of a variant returns at once, as that of a unit variant does in an order.
fn returns_at_once(which: Comparison, variant: &Variant) -> bool
    ensures { result ≡ spec.returns_at_once which variant.now }
{
    match which {
        Comparison::PartialEq => false,
        Comparison::PartialOrd => is_unit(variant),
        Comparison::Ord => is_unit(variant),
    }
}

/// The block that returns that nothing differs.
fn neutral_block(alloc: Global, which: Comparison) -> Result<Forms, AllocError>
    ensures { IfOk result (λ block. block ≡ Return (Form.Known (meaning.neutral which)) ∷ []) }
{
    block_of(
        alloc,
        Form::Return(Boxed::new(alloc, Form::Known(neutral(which)))?),
    )
}

/// The block that compares the fields of a variant, which are in the order of the trait.
fn fields_block(
    alloc: Global,
    which: Comparison,
    plain: &Shared<ExprPath>,
    names: &Names,
    variant: &Variant,
    settings: &[FieldSettings],
    fields: &[Ranked<'_, '_>],
) -> Result<Forms, AllocError>
    requires plain { IsBuiltIn (meaning.comparison which) plain.now }
    requires each { length settings.now ≡ length (fields_in variant.now) }
    ensures { (definition : DeriveInput) →
        settings.now ≡ map (settings_of (trait_of which) definition) (fields_in variant.now) →
        IsInOrder (trait_of which) (kept_fields (trait_of which) definition (fields_in variant.now)) (map kept_of fields.now) →
        IfOk result (spec.ComparesFields which definition (names_of names.now) variant.now) }
{
    let inner = pattern(alloc, &names.others, variant, settings)?;
    let value = names.other.duplicate(alloc)?;
    let (first, second) = (Reading::Bound(&names.own), Reading::Bound(&names.others));
    let steps = steps(alloc, which, plain, first, second, fields)?;
    let others = otherwise(alloc, which)?;
    block_of(alloc, Form::IfLet(inner, value, steps, others))
}

/// The block of the arm of a variant: it returns at once, or compares the fields.
fn variant_block(
    alloc: Global,
    which: Comparison,
    plain: &Shared<ExprPath>,
    names: &Names,
    variant: &Variant,
    settings: &[FieldSettings],
    fields: &[Ranked<'_, '_>],
) -> Result<Forms, AllocError>
    requires plain { IsBuiltIn (meaning.comparison which) plain.now }
    requires each { length settings.now ≡ length (fields_in variant.now) }
    ensures { (definition : DeriveInput) →
        settings.now ≡ map (settings_of (trait_of which) definition) (fields_in variant.now) →
        IsInOrder (trait_of which) (kept_fields (trait_of which) definition (fields_in variant.now)) (map kept_of fields.now) →
        IfOk result (spec.IsVariantBlock (spec.returns_at_once which variant.now) which definition (names_of names.now) variant.now) }
{
    if returns_at_once(which, variant) {
        neutral_block(alloc, which)
    } else {
        fields_block(alloc, which, plain, names, variant, settings, fields)
    }
}

/// The arm of a variant, over its fields in the order of the trait.
pub fn arm(
    alloc: Global,
    which: Comparison,
    plain: &Shared<ExprPath>,
    names: &Names,
    variant: &Variant,
    settings: &[FieldSettings],
    fields: &[Ranked<'_, '_>],
) -> Result<Arm, AllocError>
    requires plain { IsBuiltIn (meaning.comparison which) plain.now }
    requires each { length settings.now ≡ length (fields_in variant.now) }
    ensures { (definition : DeriveInput) →
        settings.now ≡ map (settings_of (trait_of which) definition) (fields_in variant.now) →
        IsInOrder (trait_of which) (kept_fields (trait_of which) definition (fields_in variant.now)) (map kept_of fields.now) →
        IfOk result (spec.IsArm which definition (names_of names.now) variant.now) }
{
    let own = pattern(alloc, &names.own, variant, settings)?;
    let block = variant_block(alloc, which, plain, names, variant, settings, fields)?;
    Ok(Arm {
        pattern: own,
        braced: true,
        comma: false,
        block,
    })
}

/// A match on the value of `self` with these arms, and what is answered where no step returned.
pub fn match_block(alloc: Global, which: Comparison, arms: Arms) -> Result<Forms, AllocError>
    ensures { (definition : DeriveInput) (names : spec.Names) (variants : List Variant) →
        AllZip (spec.IsArm which definition names) variants arms →
        IfOk result (spec.IsMatch which definition names variants) }
{
    let value = Ident::from_name(alloc, "self")?;
    let mut block = Seq::new(alloc);
    block.push(Form::MatchValue(value, arms))?;
    block.push(Form::Known(neutral(which)))?;
    Ok(block)
}
