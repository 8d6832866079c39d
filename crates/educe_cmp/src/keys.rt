//! The function that gives the discriminant of a value, and the comparison of two discriminants.
ghost use Rattle.std.specs.Prelude.{◌≡◌, ℕ, List, None, IfOk};
ghost use Rattle.std.specs.List.{AllZip};
ghost use Rattle.educe_tokens.specs.Appends.{no_place};
ghost use Rattle.educe_cmp.specs.Names.{names_of};
ghost use Rattle.educe_meaning.specs.Arms as spec;
ghost use Rattle.educe_discriminants.specs.declared.discriminant_type.DiscriminantType.{DiscriminantType};
ghost use Rattle.educe_syntax.specs.Few.{variants_of};
ghost use Rattle.educe_meaning.specs.Discriminants.{counted_from};

use crate::counting::{Constants, constants};
use crate::names::Names;
use educe_attrs::discriminant_type;
use educe_body::{BuiltIn, Form, KeyArm, KeyArms, Shared, built_in_path};
use educe_handlers::bare_pattern;
use educe_syntax::{DeriveInput, Duplicate, Ident, Variant};
use educe_tokens::Seq;
use std::alloc::{AllocError, Global};

/// An arm for each variant, with its constant.
fn key_arms(
    alloc: Global,
    variants: &[Variant],
    constants: Constants,
) -> Result<KeyArms, AllocError>
    ensures { (ty : DiscriminantType) (base : List ℕ) →
        AllZip (spec.IsConstant ty base) (counted_from None 0 variants.now) constants →
        IfOk result (AllZip (spec.IsKeyArm ty base) (counted_from None 0 variants.now)) }
{
    let mut arms = Seq::new(alloc);
    for (variant, constant) in variants.iter().zip(constants.into_items()) {
        arms.push(KeyArm {
            pattern: bare_pattern(alloc, variant)?,
            constant,
        })?;
    }
    Ok(arms)
}

/// The key function of an enum of these variants.
pub fn key_function(
    alloc: Global,
    ast: &DeriveInput,
    names: &Names,
    variants: &[Variant],
) -> Result<Form, AllocError>
    requires { variants.now ≡ variants_of ast.now }
    ensures { IfOk result (spec.IsKeyFunction ast.now (names_of names.now)) }
{
    let ty = discriminant_type(alloc, &ast.attrs)?;
    let constants = constants(alloc, ty, &names.base, variants)?;
    let arms = key_arms(alloc, variants, constants)?;
    let function = names.discriminant.duplicate(alloc)?;
    let this = names.this.duplicate(alloc)?;
    Ok(Form::KeyFunction(function, this, ty, arms))
}

/// `&discriminant(value)`
fn key_of(alloc: Global, names: &Names, value: &Ident) -> Result<Form, AllocError>
    requires { value.now.span ≡ no_place }
    ensures { IfOk result (spec.IsKeyOf (names_of names.now) value.now.text) }
{
    let function = names.discriminant.duplicate(alloc)?;
    Ok(Form::Key(function, value.duplicate(alloc)?))
}

/// The comparison of the discriminants of both values.
pub fn key_comparison(alloc: Global, names: &Names) -> Result<Form, AllocError>
    ensures { IfOk result (spec.IsKeyComparison (names_of names.now)) }
{
    let own = Ident::from_name(alloc, "self")?;
    let mut arguments = Seq::new(alloc);
    arguments.push(key_of(alloc, names, &own)?)?;
    arguments.push(key_of(alloc, names, &names.other)?)?;
    let path = Shared::new(alloc, built_in_path(alloc, BuiltIn::Cmp)?)?;
    Ok(Form::Call(path, arguments))
}
