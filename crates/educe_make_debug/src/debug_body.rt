//! The body of `fmt`.
ghost use Rattle.std.specs.Prelude.{◌≡◌, false, IfOk};
ghost use Rattle.std.specs.List.{list_any};
ghost use Rattle.educe_syntax.specs.DeriveInput.{DeriveInput};
ghost use Rattle.educe_syntax.specs.FieldShape.{FieldShape};
ghost use Rattle.educe_syntax.specs.Shape.TheVariants.{Struct, Enum};
ghost use Rattle.educe_settings.specs.Packed.{AreCopied};
ghost use Rattle.educe_settings.specs.Shown.{struct_shown};
ghost use Rattle.educe_meaning.specs.Showing.{form_of};
ghost use Rattle.educe_meaning.specs.ShownBodies as spec;
ghost use Rattle.educe_make_debug.specs.Cases.{shown_of, IsCaseOf, IsShown};
ghost use Rattle.educe_make_debug.specs.DebugNames.{names_of};

use crate::debug_blocks::{arms, built, written};
use crate::debug_names::DebugNames;
use crate::debug_shown::{Case, Shown};
use crate::debug_texts::is_shown;
use educe_body::{Body, Form, Forms};
use educe_handlers::{Reading, block_of, same_name};
use educe_syntax::{Duplicate, Ident, Shape, Variant};
use educe_tokens::{Seq, Word};
use std::alloc::{AllocError, Global};

/// The block for a struct, whose fields are read by copies where they have to be.
fn struct_block(
    alloc: Global,
    names: &DebugNames,
    case: &Case<'_>,
    copied: bool,
) -> Result<Forms, AllocError>
    requires { case.now.unit ≡ false }
    ensures { (definition : DeriveInput) (shape : FieldShape) → AreCopied definition copied → IsCaseOf definition (struct_shown definition shape) case.now →
        IfOk result (spec.IsDebugStruct definition (names_of names.now) shape) }
{
    let own = Ident::from_name(alloc, "self")?;
    built(alloc, names, case, Reading::OfBase(&own, copied))
}

/// The block for an enum of these variants; without any its name is written.
fn enum_block(
    alloc: Global,
    names: &DebugNames,
    shown: &Shown<'_>,
    variants: &[Variant],
) -> Result<Forms, AllocError>
    requires shown { IsShown shown.now }
    requires shape { shown.now.ast.now.shape ≡ Enum variants.now }
    ensures { IfOk result (spec.IsDebugEnum shown.now.ast.now (names_of names.now) variants.now) }
{
    if variants.len() == 0 {
        return written(alloc, names, &shown.name);
    }
    let arms = arms(alloc, names, shown, variants)?;
    let value = Ident::from_name(alloc, "self")?;
    block_of(alloc, Form::MatchValue(value, arms))
}

/// The block for what stands behind the name of a definition. Fields are read by copies where they have to
/// be.
fn forms(
    alloc: Global,
    names: &DebugNames,
    shown: &Shown<'_>,
    copied: bool,
) -> Result<Forms, AllocError>
    requires shown { IsShown shown.now }
    requires copied { AreCopied shown.now.ast.now copied }
    ensures { IfOk result (spec.IsDebugBlockFor shown.now.ast.now (names_of names.now) shown.now.ast.now.shape) }
{
    let cases = shown.cases.as_slice();
    match &shown.ast.shape {
        Shape::Struct(_) => struct_block(alloc, names, &cases[0], copied),
        Shape::Enum(variants) => enum_block(alloc, names, shown, variants.as_slice()),
    }
}

/// Whether the values of a case are shown as a map.
fn is_map(case: &Case<'_>) -> bool
    ensures { result ≡ spec.is_map (form_of (shown_of case.now)) }
{
    !case.unit && case.named && !is_shown(&case.name)
}

/// Whether those of one of them are.
fn uses_map(cases: &[Case<'_>]) -> bool
    ensures { result ≡ list_any (λ case. spec.is_map (form_of (shown_of case))) cases.now }
{
    cases.iter().any(|case| is_map(case))
}

/// These forms, and with true the type of the keys of a map in front.
fn with_helper(
    alloc: Global,
    names: &DebugNames,
    helper: bool,
    forms: Forms,
) -> Result<Forms, AllocError>
    ensures { IfOk result (spec.HasHelper helper (names_of names.now) forms) }
{
    if !helper {
        return Ok(forms);
    }
    let own = same_name(alloc, &names.helper)?;
    let formatter = same_name(alloc, &names.formatter)?;
    let mut block = block_of(alloc, Form::HelperType(own, formatter))?;
    block.append(forms)?;
    Ok(block)
}

/// The body of `fmt`. Fields are read by copies where they have to be.
pub fn body(
    alloc: Global,
    names: &DebugNames,
    shown: &Shown<'_>,
    copied: bool,
) -> Result<Body, AllocError>
    requires shown { IsShown shown.now }
    requires copied { AreCopied shown.now.ast.now copied }
    ensures { IfOk result (spec.IsDebugBody shown.now.ast.now (names_of names.now)) }
{
    let forms = forms(alloc, names, shown, copied)?;
    let block = with_helper(alloc, names, uses_map(shown.cases.as_slice()), forms)?;
    let mut params = Seq::new(alloc);
    params.push(Word::new(names.formatter.text.duplicate(alloc)?))?;
    Ok(Body { params, block })
}
