//! The types of all fields.
ghost use Rattle.std.specs.Prelude.{◌≡◌, ◌++◌, OnOk, IfOk};
ghost use Rattle.std.specs.List.{flat_map};
ghost use Rattle.educe_syntax.specs.Few.{all_fields};
ghost use Rattle.educe_settings.specs.EveryType.{behind, types_of};
ghost use Rattle.educe_settings.specs.Cases.{fields_in};

use educe_syntax::{DeriveInput, Field, Shape, Ty, Variant};
use std::alloc::{AllocError, Global};

/// Adds the types of fields.
fn push_types<'d>(fields: &'d [Field], types: &mut Vec<&'d Ty>) -> Result<(), AllocError>
    ensures { OnOk result (behind types.new.items ≡ behind types.old.items ++ types_of fields.now) }
{
    for field in fields {
        types.push(&field.ty)?;
    }
    Ok(())
}

/// Adds the types of the fields of each variant.
fn push_variants<'d>(variants: &'d [Variant], types: &mut Vec<&'d Ty>) -> Result<(), AllocError>
    ensures { OnOk result (behind types.new.items ≡ behind types.old.items ++ types_of (flat_map fields_in variants.now)) }
{
    for variant in variants {
        push_types(variant.fields.fields.as_slice(), types)?;
    }
    Ok(())
}

/// The types of all fields of a definition, in written order.
pub fn all_types(alloc: Global, ast: &DeriveInput) -> Result<Vec<&Ty>, AllocError>
    ensures { IfOk result (λ types. behind types.items ≡ types_of (all_fields ast.now)) }
{
    let mut types = Vec::new(alloc);
    match &ast.shape {
        Shape::Struct(shape) => push_types(shape.fields.as_slice(), &mut types)?,
        Shape::Enum(variants) => push_variants(variants.as_slice(), &mut types)?,
    }
    Ok(types)
}
