//! The functions of enums.
ghost use Rattle.std.specs.Prelude.{◌≡◌, List, IfOk};
ghost use Rattle.std.specs.List.{AllZip};
ghost use Rattle.educe_syntax.specs.DeriveInput.{DeriveInput};
ghost use Rattle.educe_syntax.specs.Few as few;
ghost use Rattle.educe_body_forms.specs.declared.form.Form as keyed;
ghost use Rattle.educe_cmp.specs.Names.{names_of};
ghost use Rattle.educe_meaning.specs.Arms as spec;
ghost use Rattle.educe_meaning.specs.Blocks.{IsEnumBody};

use crate::arms::match_block;
use crate::comparing::neutral;
use crate::comparison::trait_of;
use crate::keys::{key_comparison, key_function};
use crate::names::Names;
use educe_body::{Arms, Body, Comparison, Form, Forms};
use educe_handlers::{block_of, is_unit};
use educe_settings::is_order;
use educe_syntax::{DeriveInput, Variant};
use educe_tokens::{Boxed, Seq, Word};
use std::alloc::{AllocError, Global};
use std::cmp::Ordering;

/// Whether each variant has neither brackets nor fields.
fn are_units(variants: &[Variant]) -> bool
    ensures { result ≡ spec.are_units variants.now }
{
    variants.iter().all(|variant| is_unit(variant))
}

/// Whether the trait's function answers an order in `Some`.
fn is_partial(which: Comparison) -> bool
    ensures { result ≡ spec.is_partial which }
{
    match which {
        Comparison::PartialEq => false,
        Comparison::PartialOrd => true,
        Comparison::Ord => false,
    }
}

/// An order as the trait's function answers it.
fn in_answer(alloc: Global, which: Comparison, order: Form) -> Result<Form, AllocError>
    ensures { IfOk result (λ form. form ≡ spec.in_answer which order) }
{
    match which {
        Comparison::PartialEq => Ok(order),
        Comparison::PartialOrd => Ok(Form::SomeOf(Boxed::new(alloc, order)?)),
        Comparison::Ord => Ok(order),
    }
}

/// What follows the key function: the comparison of the keys alone, or where it is Equal the match with
/// these arms.
fn decision(
    alloc: Global,
    which: Comparison,
    variants: &[Variant],
    compares: Form,
    arms: Arms,
) -> Result<Form, AllocError>
    ensures { (definition : DeriveInput) (names : spec.Names) →
        AllZip (spec.IsArm which definition names) variants.now arms →
        IfOk result (spec.IsDecision which definition names variants.now compares (spec.are_units variants.now)) }
{
    if are_units(variants) {
        return in_answer(alloc, which, compares);
    }
    let block = match_block(alloc, which, arms)?;
    let compares = Boxed::new(alloc, compares)?;
    let partial = is_partial(which);
    Ok(Form::MatchOrdering(
        compares,
        partial,
        Some(block),
        Ordering::Greater,
        Ordering::Less,
    ))
}

/// What follows the key function of an enum, with these arms.
fn keyed_decision(
    alloc: Global,
    which: Comparison,
    ast: &DeriveInput,
    names: &Names,
    variants: &[Variant],
    arms: Arms,
) -> Result<Form, AllocError>
    requires { AllZip (spec.IsArm which ast.now (names_of names.now)) variants.now arms }
    ensures { let own = names_of names.now in
        IfOk result (λ decision. (compares : keyed.Form) × spec.IsKeyComparison own compares × spec.IsDecision which
        ast.now own variants.now compares (spec.are_units variants.now) decision) }
{
    let compares = key_comparison(alloc, names)?;
    decision(alloc, which, variants, compares, arms)
}

/// The block of an order of an enum.
fn keyed_block(
    alloc: Global,
    which: Comparison,
    ast: &DeriveInput,
    names: &Names,
    variants: &[Variant],
    arms: Arms,
) -> Result<Forms, AllocError>
    requires variants { variants.now ≡ few.variants_of ast.now }
    requires arms { AllZip (spec.IsArm which ast.now (names_of names.now)) variants.now arms }
    ensures { IfOk result (spec.IsKeyed which ast.now (names_of names.now) variants.now) }
{
    let mut block = block_of(alloc, key_function(alloc, ast, names, variants)?)?;
    block.push(keyed_decision(alloc, which, ast, names, variants, arms)?)?;
    Ok(block)
}

/// The block of a comparison of an enum, with these arms.
fn enum_block(
    alloc: Global,
    which: Comparison,
    ast: &DeriveInput,
    names: &Names,
    variants: &[Variant],
    arms: Arms,
) -> Result<Forms, AllocError>
    requires variants { variants.now ≡ few.variants_of ast.now }
    requires arms { AllZip (spec.IsArm which ast.now (names_of names.now)) variants.now arms }
    ensures { IfOk result (spec.IsEnumBlock which ast.now (names_of names.now) variants.now) }
{
    if variants.is_empty() {
        return block_of(alloc, Form::Known(neutral(which)));
    }
    if is_order(trait_of(which)) {
        keyed_block(alloc, which, ast, names, variants, arms)
    } else {
        match_block(alloc, which, arms)
    }
}

/// The body of a comparison of an enum, with these arms.
pub fn enum_body(
    alloc: Global,
    which: Comparison,
    ast: &DeriveInput,
    names: &Names,
    variants: &[Variant],
    arms: Arms,
) -> Result<Body, AllocError>
    requires variants { variants.now ≡ few.variants_of ast.now }
    requires names { spec.AreNames ast.now (names_of names.now) }
    requires arms { AllZip (spec.IsArm which ast.now (names_of names.now)) variants.now arms }
    ensures { IfOk result (IsEnumBody which ast.now variants.now) }
{
    let block = enum_block(alloc, which, ast, names, variants, arms)?;
    let mut params = Seq::new(alloc);
    params.push(Word::new(names.other.text.duplicate(alloc)?))?;
    Ok(Body { params, block })
}
