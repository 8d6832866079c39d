//! The builders with the switches that each place has.

use educe_attrs::debug::{FieldName, TypeName};
use educe_attrs::{debug, ord, partial_ord};
use educe_syntax::{Ident, parse_ident};
use educe_tests::{found, lexed_slice};
use std::alloc::Global;
use std::test::Fail;

/// The name that a text is.
pub(crate) fn ident(alloc: Global, text: &str) -> Result<Ident, Fail> {
    found(parse_ident(alloc, &lexed_slice(alloc, text)?))
}

/// The builder for a struct whose fields have names or not.
pub(crate) fn debug_struct(named_field: bool) -> debug::TypeAttributeBuilder {
    debug::TypeAttributeBuilder {
        enable_flag: true,
        enable_name: true,
        enable_named_field: true,
        enable_bound: true,
        name: TypeName::Default,
        named_field,
    }
}

/// The builder for an enum.
pub(crate) fn debug_enum() -> debug::TypeAttributeBuilder {
    debug::TypeAttributeBuilder {
        enable_flag: true,
        enable_name: true,
        enable_named_field: false,
        enable_bound: true,
        name: TypeName::Disable,
        named_field: false,
    }
}

/// The builder for a variant whose fields have names or not.
pub(crate) fn debug_variant(named_field: bool) -> debug::TypeAttributeBuilder {
    debug::TypeAttributeBuilder {
        enable_flag: false,
        enable_name: true,
        enable_named_field: true,
        enable_bound: false,
        name: TypeName::Default,
        named_field,
    }
}

/// The builder for a field that is shown with a name or without.
pub(crate) fn debug_field(enable_name: bool) -> debug::FieldAttributeBuilder {
    debug::FieldAttributeBuilder {
        enable_name,
        enable_ignore: true,
        enable_method: true,
        name: FieldName::Default,
    }
}

/// The builder for a type whose name is another where none is given; no name is allowed in its attribute.
pub(crate) fn debug_named(alloc: Global, name: &str) -> Result<debug::TypeAttributeBuilder, Fail> {
    let name = ident(alloc, name)?;
    Ok(debug::TypeAttributeBuilder {
        enable_flag: true,
        enable_name: false,
        enable_named_field: true,
        enable_bound: true,
        name: TypeName::Custom(name),
        named_field: false,
    })
}

/// The builder for a field whose name is another where none is given.
pub(crate) fn debug_field_named(
    alloc: Global,
    name: &str,
) -> Result<debug::FieldAttributeBuilder, Fail> {
    let name = ident(alloc, name)?;
    Ok(debug::FieldAttributeBuilder {
        enable_name: true,
        enable_ignore: true,
        enable_method: true,
        name: FieldName::Custom(name),
    })
}

/// The builder for a field of the rank 7.
pub(crate) fn ord_field(
    enable_ignore: bool,
    enable_method: bool,
    enable_rank: bool,
    enable_reverse: bool,
) -> ord::FieldAttributeBuilder {
    ord::FieldAttributeBuilder {
        enable_ignore,
        enable_method,
        enable_rank,
        enable_reverse,
        rank: 7,
    }
}

/// The builder for a field of the rank -3.
pub(crate) fn partial_ord_field(
    enable_ignore: bool,
    enable_method: bool,
    enable_rank: bool,
    enable_reverse: bool,
) -> partial_ord::FieldAttributeBuilder {
    partial_ord::FieldAttributeBuilder {
        enable_ignore,
        enable_method,
        enable_rank,
        enable_reverse,
        rank: -3,
    }
}
