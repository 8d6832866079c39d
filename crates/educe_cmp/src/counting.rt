//! A constant for each variant of an enum: what it counts from, and how far it stands behind that (Rust
//! Reference, Enumerations).
ghost use Rattle.std.specs.Prelude.{◌≡◌, Some, None, IfOk};
ghost use Rattle.std.specs.List.{AllZip};
ghost use Rattle.educe_tokens.specs.Appends.{no_place};
ghost use Rattle.educe_meaning.specs.Arms as spec;
ghost use Rattle.educe_meaning.specs.Discriminants.{counted_from};

use educe_body::{Constant, Distance, Shared, index_word};
use educe_discriminants::DiscriminantType;
use educe_syntax::{Duplicate, Expr, ExprForm, Ident, Variant};
use educe_tokens::{Seq, TokenStream, Written, push_word};
use std::alloc::{AllocError, Global};

/// Constants in the order of their variants.
pub type Constants = Seq<Constant>;

/// `0`, which the first variant has if nothing is written.
fn zero(alloc: Global) -> Result<Expr, AllocError>
    ensures { IfOk result (spec.IsBase None) }
{
    let mut tokens = TokenStream::new(alloc);
    push_word(alloc, &mut tokens, &index_word(alloc, 0)?)?;
    Ok(Expr {
        form: ExprForm::Literal,
        written: Written::new(tokens.into_slice(alloc)?),
    })
}

/// The distance of a variant that stands so many variants behind the expression; none where it stands
/// at it.
fn distance(
    alloc: Global,
    ty: DiscriminantType,
    base: &Ident,
    steps: usize,
) -> Result<Option<Distance>, AllocError>
    requires { base.now.span ≡ no_place }
    ensures { IfOk result (spec.IsDistance ty base.now.text steps) }
{
    if steps == 0 {
        return Ok(None);
    }
    let base = base.duplicate(alloc)?;
    Ok(Some(Distance { steps, base, ty }))
}

/// What a variant counts from, and how far it stands behind it: its own expression, or else what the
/// variant before it counts from.
fn nearest(
    alloc: Global,
    variant: &Variant,
    value: &Shared<Expr>,
    steps: usize,
) -> Result<(Shared<Expr>, usize), AllocError>
    ensures written { (own : Expr) → variant.now.discriminant ≡ Some own →
        IfOk result (λ near. (near.0 ≡ own) × (near.1 ≡ 0)) }
    ensures unwritten { variant.now.discriminant ≡ None →
        IfOk result (λ near. (near.0 ≡ value.now) × (near.1 ≡ steps)) }
{
    match &variant.discriminant {
        Some(own) => Ok((Shared::new(alloc, own.duplicate(alloc)?)?, 0)),
        None => Ok((value.duplicate()?, steps)),
    }
}

/// The constant of a variant that stands so many variants behind the expression.
fn constant(
    alloc: Global,
    ty: DiscriminantType,
    base: &Ident,
    value: &Shared<Expr>,
    steps: usize,
) -> Result<Constant, AllocError>
    requires { base.now.span ≡ no_place }
    ensures value { IfOk result (λ constant. constant.value ≡ value.now) }
    ensures distance { IfOk result (λ constant. spec.IsDistance ty base.now.text steps constant.distance) }
{
    Ok(Constant {
        value: value.duplicate()?,
        distance: distance(alloc, ty, base, steps)?,
    })
}

/// A constant for each variant, in their order.
pub fn constants(
    alloc: Global,
    ty: DiscriminantType,
    base: &Ident,
    variants: &[Variant],
) -> Result<Constants, AllocError>
    requires { base.now.span ≡ no_place }
    ensures { IfOk result (AllZip (spec.IsConstant ty base.now.text) (counted_from None 0 variants.now)) }
{
    let mut value = Shared::new(alloc, zero(alloc)?)?;
    let mut steps = 0;
    let mut found = Seq::new(alloc);
    for variant in variants {
        let (near, count) = nearest(alloc, variant, &value, steps)?;
        value = near;
        found.push(constant(alloc, ty, base, &value, count)?)?;
        steps = count + 1;
    }
    Ok(found)
}
