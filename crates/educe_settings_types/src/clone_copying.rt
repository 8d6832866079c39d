//! Whether `clone` copies values as a whole (documentation of `educe`, Clone).
ghost use Rattle.std.specs.Prelude.{◌≡◌, not, ◌&&◌, IfOk, IfErr};
ghost use Rattle.std.specs.List.{list_all};
ghost use Rattle.educe_attrs.specs.Causes.{OfStop};
ghost use Rattle.educe_settings.specs.Cases.{fields_in};
ghost use Rattle.educe_settings.specs.Copying as spec;
ghost use Rattle.educe_settings.specs.Listed as listing;
ghost use Rattle.educe_settings_types.specs.Bitwise as bitwise;

use educe_attrs::Stop;
use educe_bound::{Bound, Trait, is_listed};
use educe_bound_classes::type_uses_generic_params;
use educe_settings::{Task, bound_of_type};
use educe_syntax::{DeriveInput, Field, Params, Shape, Variant};
use std::alloc::Global;

/// Whether none of the types of these fields names a type or const parameter.
fn are_closed(fields: &[Field], params: &Params) -> bool
    ensures { result ≡ list_all (bitwise.is_closed params.now) fields.now }
{
    fields
        .iter()
        .all(|field| !type_uses_generic_params(&field.ty, params))
}

/// Whether none of the types of a variant's fields names a type or const parameter.
fn is_closed(variant: &Variant, params: &Params) -> bool
    ensures { result ≡ list_all (bitwise.is_closed params.now) (fields_in variant.now) }
{
    are_closed(variant.fields.fields.as_slice(), params)
}

/// Whether none of the types of the fields of these variants names a type or const parameter.
fn are_closed_variants(variants: &[Variant], params: &Params) -> bool
    ensures { result ≡ list_all (λ v. list_all (bitwise.is_closed params.now) (fields_in v)) variants.now }
{
    variants.iter().all(|variant| is_closed(variant, params))
}

/// Whether none of the types of all fields of a definition names a type or const parameter.
fn is_closed_shape(ast: &DeriveInput) -> bool
    ensures { result ≡ bitwise.is_closed_shape ast.now.generics.params ast.now.shape }
{
    let params = &ast.generics.params;
    match &ast.shape {
        Shape::Struct(shape) => are_closed(shape.fields.as_slice(), params),
        Shape::Enum(variants) => are_closed_variants(variants.as_slice(), params),
    }
}

/// Whether the bound lists predicates, and at least one.
fn has_predicates(bound: &Bound) -> bool
    ensures { result ≡ spec.has_predicates bound.now }
{
    match bound {
        Bound::Disabled => false,
        Bound::Auto => false,
        Bound::All => false,
        Bound::Custom(predicates) => predicates.len() != 0,
    }
}

/// Whether a definition has no generic parameter, or this bound lists no predicate.
fn is_unbounded(ast: &DeriveInput, bound: &Bound) -> bool
    ensures { result ≡ bitwise.is_unbounded ast.now bound.now }
{
    ast.generics.params.len() == 0 || !has_predicates(bound)
}

/// Whether values may be copied as a whole where `Copy` is listed, with this bound.
fn is_whole(ast: &DeriveInput, bound: &Bound, has_custom_method: bool) -> bool
    ensures { result ≡ ((not has_custom_method && bitwise.is_closed_shape ast.now.generics.params ast.now.shape) &&
        bitwise.is_unbounded ast.now bound.now) }
{
    !has_custom_method && is_closed_shape(ast) && is_unbounded(ast, bound)
}

/// Whether `clone` copies the value as a whole, by whether a field has a method of `Clone`. It is rejected
/// exactly where `Copy` is listed and an attribute of the type is wrong, or memory fails.
pub fn can_use_bitwise_copy(
    alloc: Global,
    task: Task<'_, '_>,
    has_custom_method: bool,
) -> Result<bool, Stop>
    requires listed { task.listed.now ≡ listing.listed task.ast.now }
    ensures copies { IfOk result (λ copies. copies ≡ bitwise.copies_with task.entry.ast.now has_custom_method) }
    ensures uncaused { IfOk result (λ _. bitwise.IsCopyUncaused task.entry.ast.now) }
    ensures err { IfErr result (λ s. OfStop (bitwise.OfCopy task.entry.ast.now) s) }
{
    let Task { ast, listed, .. } = task;
    if !is_listed(listed, Trait::Copy) {
        return Ok(false);
    }
    let trait_ = Trait::Copy;
    let bound = bound_of_type(
        alloc,
        Task {
            trait_,
            ast,
            listed,
        },
    )?;
    Ok(is_whole(ast, &bound, has_custom_method))
}
