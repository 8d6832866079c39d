//! What each row of the attribute table rejects in the same way: a trait once more, a trait that is not listed, and
//! one that is not supported (documentation of `educe`, Traits).

use crate::answers::{check_fields, check_types};
use crate::builders::{
    debug_enum, debug_field, debug_struct, debug_variant, ord_field, partial_ord_field,
};
use crate::words::Worded;
use educe_attrs::{
    FieldBuilder, TypeBuilder, clone, copy, default, eq, hash, ord, partial_eq, partial_ord,
};
use educe_bound::Trait;
use std::alloc::{AllocError, Global};
use std::test::Fail;

/// `Meta` stands for an attribute that the place allows, `Trait` for its trait, `Another` for one that is not listed.
static PLACE: &str = r#"
#[educe(Meta)]␊#[educe(Meta)]
: 2:9: the trait `Trait` is used repeatedly

#[educe(Meta)]␊#[educe(Another)]
: 2:9: the trait `Another` is not used

#[educe(Meta)]␊#[educe(Other)]
: 2:9: unsupported trait `Other`, available traits:
    Debug
    Clone
    Copy
    PartialEq
    Eq
    PartialOrd
    Ord
    Hash
    Default
"#;

/// Another trait.
fn another(this: Trait) -> Trait {
    match this {
        Trait::Hash => Trait::Clone,
        _ => Trait::Hash,
    }
}

/// The table of a trait, of which the place allows this attribute.
fn place(alloc: Global, this: Trait, meta: &str) -> Result<String, AllocError> {
    let table = PLACE.replace(alloc, "Meta", meta)?;
    let table = table.replace(alloc, "Another", another(this).name())?;
    table.replace(alloc, "Trait", this.name())
}

/// A type or a variant where this attribute is allowed.
fn check_type<B: TypeBuilder + Drop>(alloc: Global, builder: B, meta: &str) -> Result<(), Fail>
where
    B::Attribute: Worded,
{
    let table = place(alloc, B::TRAIT, meta)?;
    check_types(alloc, builder, &[B::TRAIT], &table)
}

/// A field where this attribute is allowed.
fn check_field<B: FieldBuilder + Drop>(alloc: Global, builder: B, meta: &str) -> Result<(), Fail>
where
    B::Attribute: Worded,
{
    let table = place(alloc, B::TRAIT, meta)?;
    check_fields(alloc, builder, &[B::TRAIT], &table)
}

#[test]
fn debug_anywhere(rt: HostRuntime) -> Result<(), Fail> {
    let alloc = rt.alloc();
    check_type(alloc, debug_struct(true), "Debug")?;
    check_type(alloc, debug_enum(), "Debug(name = true)")?;
    check_type(alloc, debug_variant(false), "Debug = V")?;
    check_field(alloc, debug_field(true), "Debug = f")
}

#[test]
fn clone_copy_and_hash_at_types(rt: HostRuntime) -> Result<(), Fail> {
    let alloc = rt.alloc();
    check_type(
        alloc,
        clone::TypeAttributeBuilder {
            enable_flag: true,
            enable_bound: true,
        },
        "Clone",
    )?;
    check_type(
        alloc,
        copy::TypeAttributeBuilder {
            enable_flag: true,
            enable_bound: true,
        },
        "Copy()",
    )?;
    check_type(
        alloc,
        hash::TypeAttributeBuilder {
            enable_flag: true,
            enable_bound: true,
        },
        "Hash",
    )
}

#[test]
fn comparisons_at_types(rt: HostRuntime) -> Result<(), Fail> {
    let alloc = rt.alloc();
    check_type(
        alloc,
        partial_eq::TypeAttributeBuilder {
            enable_flag: true,
            enable_bound: true,
        },
        "PartialEq(bound(*))",
    )?;
    check_type(
        alloc,
        eq::TypeAttributeBuilder {
            enable_flag: true,
            enable_bound: true,
        },
        "Eq",
    )?;
    check_type(
        alloc,
        partial_ord::TypeAttributeBuilder {
            enable_flag: true,
            enable_bound: true,
        },
        "PartialOrd()",
    )?;
    check_type(
        alloc,
        ord::TypeAttributeBuilder {
            enable_flag: true,
            enable_bound: true,
        },
        "Ord(bound = false)",
    )
}

/// `Default` at a type and at a variant.
#[test]
fn default_at_types(rt: HostRuntime) -> Result<(), Fail> {
    let alloc = rt.alloc();
    check_type(
        alloc,
        default::TypeAttributeBuilder {
            enable_flag: true,
            enable_new: true,
            enable_expression: true,
            enable_bound: true,
        },
        "Default(new)",
    )?;
    check_type(
        alloc,
        default::TypeAttributeBuilder {
            enable_flag: true,
            enable_new: false,
            enable_expression: false,
            enable_bound: false,
        },
        "Default",
    )
}

#[test]
fn traits_at_fields(rt: HostRuntime) -> Result<(), Fail> {
    let alloc = rt.alloc();
    check_field(
        alloc,
        clone::FieldAttributeBuilder {
            enable_method: true,
        },
        "Clone(method = f)",
    )?;
    check_field(
        alloc,
        partial_eq::FieldAttributeBuilder {
            enable_ignore: true,
            enable_method: true,
        },
        "PartialEq(ignore)",
    )?;
    check_field(
        alloc,
        hash::FieldAttributeBuilder {
            enable_ignore: true,
            enable_method: true,
        },
        "Hash = false",
    )?;
    check_field(
        alloc,
        partial_ord_field(true, true, true, true),
        "PartialOrd(rank = 1)",
    )?;
    check_field(alloc, ord_field(true, true, true, true), "Ord(ignore)")
}

/// What a field allows of a trait that says nothing of fields.
static NOTHING: &str = r#"
#[educe()]␊#[educe(Hash)]
: 2:9: the trait `Hash` is not used

#[educe()]␊#[educe(Other)]
: 2:9: unsupported trait `Other`, available traits:
    Debug
    Clone
    Copy
    PartialEq
    Eq
    PartialOrd
    Ord
    Hash
    Default

#[educe()]␊#[educe(1)]
: 2:9: syntax error
"#;

#[test]
fn copy_and_eq_at_fields(rt: HostRuntime) -> Result<(), Fail> {
    let alloc = rt.alloc();
    check_fields(alloc, copy::FieldAttributeBuilder, &[Trait::Copy], NOTHING)?;
    check_fields(alloc, eq::FieldAttributeBuilder, &[Trait::Eq], NOTHING)
}
