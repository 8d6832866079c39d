//! The bodies of a struct and of an enum, from the settings of their fields.
ghost use Rattle.std.specs.Prelude.{◌≡◌, IfOk, IfErr, IfSome};
ghost use Rattle.std.specs.List.{AllZip};
ghost use Rattle.std.specs.Option.{option_copied};
ghost use Rattle.educe_body.specs.Held.{AreWordsOf};
ghost use Rattle.educe_syntax.specs.Few as few;
ghost use Rattle.educe_syntax.specs.Shape.TheVariants.{Enum};
ghost use Rattle.educe_attrs.specs.Causes.{NoCause, OfStop};
ghost use Rattle.educe_body_values.specs.BuiltIn.{IsBuiltIn};
ghost use Rattle.educe_cmp.specs.Names.{names_of};
ghost use Rattle.educe_meaning.specs.Arms.{IsArm};
ghost use Rattle.educe_meaning.specs.Blocks.{IsStructBody, IsEnumBody};
ghost use Rattle.educe_meaning.specs.Comparing as meaning;
ghost use Rattle.educe_meaning.specs.Comparisons.{trait_of};
ghost use Rattle.educe_settings.specs.Handled.{OfCase, OfVariant, OfShape};
ghost use Rattle.educe_settings.specs.Packed.{AreCopied};
ghost use Rattle.educe_settings.specs.Listed as listing;

use crate::arms::arm;
use crate::comparing::comparison_path;
use crate::enum_body::enum_body;
use crate::names::Names;
use crate::struct_body::struct_body;
use educe_attrs::Stop;
use educe_body::{Arm, Arms, Body, Comparison, InputWords, Shared};
use educe_settings::{Task, field_settings, fields_in_order, variant_fields, variant_settings};
use educe_syntax::{ExprPath, Field, Variant};
use educe_tokens::Seq;
use std::alloc::Global;

/// The body of a comparison of a struct of these fields, which are read by copies where they have to be.
/// It is rejected exactly where an attribute of a field or a rank is wrong, or memory fails.
pub fn struct_case(
    alloc: Global,
    which: Comparison,
    task: Task<'_, '_>,
    fields: &[Field],
    copied: bool,
    words: Option<&InputWords>,
) -> Result<Body, Stop>
    requires same { task.trait_ ≡ trait_of which }
    requires listed { task.listed.now ≡ listing.listed task.ast.now }
    requires copied { AreCopied task.ast.now copied }
    requires words { IfSome (option_copied words) (AreWordsOf task.ast.now.tokens) }
    ensures ok { IfOk result (IsStructBody which task.entry.ast.now fields.now) }
    ensures uncaused { IfOk result (λ _. NoCause (OfCase task.entry.trait_ task.entry.ast.now fields.now)) }
    ensures err { IfErr result (λ s. OfStop (OfCase task.entry.trait_ task.entry.ast.now fields.now) s) }
{
    let settings = field_settings(alloc, task, fields)?;
    let ordered = fields_in_order(alloc, task, fields, settings.as_slice())?;
    Ok(struct_body(alloc, which, task.ast, copied, &ordered, words)?)
}

/// The arm of a variant. It is rejected exactly where an attribute of the variant or of a field or a rank
/// is wrong, or memory fails.
fn variant_arm(
    alloc: Global,
    which: Comparison,
    task: Task<'_, '_>,
    plain: &Shared<ExprPath>,
    names: &Names,
    variant: &Variant,
) -> Result<Arm, Stop>
    requires same { task.trait_ ≡ trait_of which }
    requires plain { IsBuiltIn (meaning.comparison which) plain.now }
    requires listed { task.listed.now ≡ listing.listed task.ast.now }
    ensures ok { IfOk result (IsArm which task.entry.ast.now (names_of names.now) variant.now) }
    ensures uncaused { IfOk result (λ _. NoCause (OfVariant task.entry.trait_ task.entry.ast.now variant.now)) }
    ensures err { IfErr result (λ s. OfStop (OfVariant task.entry.trait_ task.entry.ast.now variant.now) s) }
{
    let settings = variant_settings(alloc, task, variant)?;
    let settings = settings.as_slice();
    let ordered = variant_fields(alloc, task, variant, settings)?;
    Ok(arm(alloc, which, plain, names, variant, settings, &ordered)?)
}

/// An arm for each variant, in their order.
fn variant_arms(
    alloc: Global,
    which: Comparison,
    task: Task<'_, '_>,
    names: &Names,
    variants: &[Variant],
) -> Result<Arms, Stop>
    requires same { task.trait_ ≡ trait_of which }
    requires listed { task.listed.now ≡ listing.listed task.ast.now }
    ensures ok { IfOk result (AllZip (IsArm which task.entry.ast.now (names_of names.now)) variants.now) }
    ensures uncaused { IfOk result (λ _. NoCause (OfShape task.entry.trait_ task.entry.ast.now (Enum variants.now))) }
    ensures err { IfErr result (λ s. OfStop (OfShape task.entry.trait_ task.entry.ast.now (Enum variants.now)) s) }
{
    let plain = comparison_path(alloc, which)?;
    let mut arms = Seq::new(alloc);
    for variant in variants {
        match variant_arm(alloc, which, task, &plain, names, variant) {
            Ok(arm) => arms.push(arm)?,
            // (`?` would convert the rejection, which its clause takes as it is.)
            Err(stop) => return Err(stop),
        }
    }
    Ok(arms)
}

/// The body of a comparison of an enum of these variants. It is rejected exactly where an attribute of a
/// variant or of a field or a rank is wrong, or memory fails.
pub fn enum_case(
    alloc: Global,
    which: Comparison,
    task: Task<'_, '_>,
    variants: &[Variant],
    words: Option<&InputWords>,
) -> Result<Body, Stop>
    requires same { task.trait_ ≡ trait_of which }
    requires variants { variants.now ≡ few.variants_of task.ast.now }
    requires listed { task.listed.now ≡ listing.listed task.ast.now }
    requires words { IfSome (option_copied words) (AreWordsOf task.ast.now.tokens) }
    ensures ok { IfOk result (IsEnumBody which task.entry.ast.now variants.now) }
    ensures uncaused { IfOk result (λ _. NoCause (OfShape task.entry.trait_ task.entry.ast.now (Enum variants.now))) }
    ensures err { IfErr result (λ s. OfStop (OfShape task.entry.trait_ task.entry.ast.now (Enum variants.now)) s) }
{
    let names = Names::choose(alloc, task.ast, words)?;
    let arms = variant_arms(alloc, which, task, &names, variants)?;
    Ok(enum_body(alloc, which, task.ast, &names, variants, arms)?)
}
