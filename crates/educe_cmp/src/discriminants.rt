//! The discriminants of an enum: their type, and a constant for each variant (Rust Reference,
//! Enumerations; Primitive representations).
ghost use Rattle.std.specs.Prelude.{◌≡◌, ℤ, List, IfOk};
ghost use Rattle.educe_syntax.specs.Few as few;
ghost use Rattle.educe_attrs.specs.Represented.{IsDiscriminantType};
ghost use Rattle.educe_meaning.specs.Arms as spec;
ghost use Rattle.educe_body_values.specs.declared.answers.Answers.{Answers};
ghost use Rattle.educe_meaning.specs.Discriminants.{HaveNumbers};

use crate::counting::{Constants, constants};
use crate::names::Names;
use educe_attrs::discriminant_type;
use educe_discriminants::DiscriminantType;
use educe_syntax::{DeriveInput, Shape, Variant};
use std::alloc::{AllocError, Global};

/// The variants of an enum; a struct has none.
fn variants_of(ast: &DeriveInput) -> &[Variant]
    ensures { result.now ≡ few.variants_of ast.now }
{
    match &ast.shape {
        Shape::Struct(_) => &[],
        Shape::Enum(variants) => variants.as_slice(),
    }
}

/// The type of the discriminants of an enum, which is the last integer type that a `repr` list has, or
/// else `isize`, and a constant for each variant. What a distance is added to is named as in the
/// functions of the orders.
pub fn discriminants_of(
    alloc: Global,
    ast: &DeriveInput,
) -> Result<(DiscriminantType, Constants), AllocError>
    ensures ty { IfOk result (λ found. IsDiscriminantType ast.now.attrs found.0) }
    ensures constants { IfOk result (λ found. spec.AreConstants ast.now found.0 found.1) }
    // Where the discriminants are numbers of the type, they are the numbers of the constants.
    ensures numbers { (table : Answers) (numbers : List ℤ) → HaveNumbers table ast.now numbers →
        IfOk result (λ found. spec.AreNumbers table numbers found.1) }
{
    let names = Names::choose(alloc, ast, None)?;
    let ty = discriminant_type(alloc, &ast.attrs)?;
    let constants = constants(alloc, ty, &names.base, variants_of(ast))?;
    Ok((ty, constants))
}
