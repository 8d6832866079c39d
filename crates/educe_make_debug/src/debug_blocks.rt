//! The blocks of cases.
ghost use Rattle.std.specs.Prelude.{◌≡◌, false, IfOk};
ghost use Rattle.std.specs.List.{AllZip};
ghost use Rattle.educe_syntax.specs.DeriveInput.{DeriveInput};
ghost use Rattle.educe_syntax.specs.Shape.TheVariants.{Enum};
ghost use Rattle.educe_handlers.specs.Readings.{reading_of, CanRead};
ghost use Rattle.educe_settings.specs.Cases.{fields_in};
ghost use Rattle.educe_settings.specs.Shown.{variant_shown};
ghost use Rattle.educe_meaning.specs.Showing.{form_of};
ghost use Rattle.educe_meaning.specs.ShownBodies as spec;
ghost use Rattle.educe_make_debug.specs.Cases.{shown_of, AreSettled, IsCaseOf, IsShown};
ghost use Rattle.educe_make_debug.specs.DebugNames.{names_of};

use crate::debug_entries::entries;
use crate::debug_names::DebugNames;
use crate::debug_shown::{Case, Shown};
use crate::debug_texts::is_shown;
use educe_body::{Arm, Arms, Form, Forms, LiteralText, Opening};
use educe_handlers::{Reading, block_of, pattern, same_name};
use educe_syntax::Variant;
use educe_tokens::Seq;
use std::alloc::{AllocError, Global};

/// The call that begins the builder of a case that is no unit variant.
fn opening(alloc: Global, case: &Case<'_>) -> Result<Opening, AllocError>
    requires { case.now.unit ≡ false }
    ensures { IfOk result (spec.IsOpening (form_of (shown_of case.now)) case.now.name.text) }
{
    if !case.named {
        return Ok(Opening::Tuple(case.name.duplicate(alloc)?));
    }
    if is_shown(&case.name) {
        Ok(Opening::Struct(case.name.duplicate(alloc)?))
    } else {
        Ok(Opening::Map)
    }
}

/// The block of a case that is no unit variant: a builder, which reads the fields so.
pub fn built(
    alloc: Global,
    names: &DebugNames,
    case: &Case<'_>,
    reading: Reading<'_>,
) -> Result<Forms, AllocError>
    requires brackets { case.now.unit ≡ false }
    requires reading { CanRead reading }
    ensures { (definition : DeriveInput) → AreSettled definition case.now →
        IfOk result (spec.IsBuilt definition (names_of names.now) (reading_of reading.entry) (shown_of case.now)) }
{
    let builder = same_name(alloc, &names.builder)?;
    let formatter = same_name(alloc, &names.formatter)?;
    let mut block = block_of(
        alloc,
        Form::Builder(builder, formatter, opening(alloc, case)?),
    )?;
    block.append(entries(alloc, names, case, reading)?)?;
    block.push(Form::Finish(same_name(alloc, &names.builder)?))?;
    Ok(block)
}

/// The block that writes a name.
pub fn written(alloc: Global, names: &DebugNames, name: &LiteralText) -> Result<Forms, AllocError>
    ensures { IfOk result (spec.IsWritten (names_of names.now) name.now.text) }
{
    let formatter = same_name(alloc, &names.formatter)?;
    block_of(alloc, Form::WriteText(formatter, name.duplicate(alloc)?))
}

/// The block in the arm of a variant.
fn arm_block(alloc: Global, names: &DebugNames, case: &Case<'_>) -> Result<Forms, AllocError>
    ensures { (definition : DeriveInput) → AreSettled definition case.now →
        IfOk result (spec.IsArmBlock case.now.unit definition (names_of names.now) (shown_of case.now)) }
{
    if case.unit {
        written(alloc, names, &case.name)
    } else {
        built(alloc, names, case, Reading::Bound(&names.prefix))
    }
}

/// The arm of a variant of this case.
fn arm(
    alloc: Global,
    names: &DebugNames,
    variant: &Variant,
    case: &Case<'_>,
) -> Result<Arm, AllocError>
    requires { fields_in variant.now ≡ case.now.fields.now }
    ensures { (definition : DeriveInput) → IsCaseOf definition (variant_shown definition variant.now) case.now →
        IfOk result (spec.IsDebugArm definition (names_of names.now) variant.now) }
{
    let pattern = pattern(alloc, &names.prefix, variant, case.settings.as_slice())?;
    let block = arm_block(alloc, names, case)?;
    Ok(Arm {
        pattern,
        braced: !case.unit,
        comma: true,
        block,
    })
}

/// An arm for each variant, in their order.
pub fn arms(
    alloc: Global,
    names: &DebugNames,
    shown: &Shown<'_>,
    variants: &[Variant],
) -> Result<Arms, AllocError>
    requires shown { IsShown shown.now }
    requires shape { shown.now.ast.now.shape ≡ Enum variants.now }
    ensures { IfOk result (AllZip (spec.IsDebugArm shown.now.ast.now (names_of names.now)) variants.now) }
{
    let cases = shown.cases.as_slice();
    let mut arms = Seq::new(alloc);
    for (place, variant) in variants.iter().enumerate() {
        arms.push(arm(alloc, names, variant, &cases[place])?)?;
    }
    Ok(arms)
}
