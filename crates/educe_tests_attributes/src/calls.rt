//! The calls of builders that are named after a trait.
ghost use Rattle.educe_attrs_values.specs.Metas.{IsNamed};

use crate::answers::{answer, only_meta};
use crate::builders::{debug_field, debug_struct, ord_field, partial_ord_field};
use educe_attrs::{clone, copy, default, eq, hash, ord, partial_eq, partial_ord};
use educe_attrs_values::path_of;
use educe_bound::Trait;
use educe_syntax::Meta;
use std::alloc::Global;
use std::test::Fail;

const CLONE: clone::TypeAttributeBuilder = clone::TypeAttributeBuilder {
    enable_flag: true,
    enable_bound: true,
};

const COPY: copy::TypeAttributeBuilder = copy::TypeAttributeBuilder {
    enable_flag: true,
    enable_bound: true,
};

const PARTIAL_EQ: partial_eq::TypeAttributeBuilder = partial_eq::TypeAttributeBuilder {
    enable_flag: true,
    enable_bound: true,
};

const EQ: eq::TypeAttributeBuilder = eq::TypeAttributeBuilder {
    enable_flag: true,
    enable_bound: true,
};

const PARTIAL_ORD: partial_ord::TypeAttributeBuilder = partial_ord::TypeAttributeBuilder {
    enable_flag: true,
    enable_bound: true,
};

const ORD: ord::TypeAttributeBuilder = ord::TypeAttributeBuilder {
    enable_flag: true,
    enable_bound: true,
};

const HASH: hash::TypeAttributeBuilder = hash::TypeAttributeBuilder {
    enable_flag: true,
    enable_bound: true,
};

const DEFAULT: default::TypeAttributeBuilder = default::TypeAttributeBuilder {
    enable_flag: true,
    enable_new: true,
    enable_expression: true,
    enable_bound: true,
};

const CLONED: clone::FieldAttributeBuilder = clone::FieldAttributeBuilder {
    enable_method: true,
};

const COMPARED: partial_eq::FieldAttributeBuilder = partial_eq::FieldAttributeBuilder {
    enable_ignore: true,
    enable_method: true,
};

const HASHED: hash::FieldAttributeBuilder = hash::FieldAttributeBuilder {
    enable_ignore: true,
    enable_method: true,
};

/// What a `Debug` attribute says of a type.
fn debug_of_a_type(alloc: Global, source: &str, meta: &Meta) -> Result<String, Fail>
    requires { IsNamed meta.now }
{
    let builder = debug_struct(true);
    let answered = builder.build_from_debug_meta(alloc, meta);
    drop(builder);
    answer(alloc, source, answered)
}

/// What a `Debug` attribute says of a field.
fn debug_of_a_field(alloc: Global, source: &str, meta: &Meta) -> Result<String, Fail>
    requires { IsNamed meta.now }
{
    let builder = debug_field(true);
    let answered = builder.build_from_debug_meta(alloc, meta);
    drop(builder);
    answer(alloc, source, answered)
}

/// What the attribute of a trait says of a type.
fn type_words(alloc: Global, which: Trait, source: &str, meta: &Meta) -> Result<String, Fail>
    requires { IsNamed meta.now }
{
    match which {
        Trait::Debug => debug_of_a_type(alloc, source, meta),
        Trait::Clone => answer(alloc, source, CLONE.build_from_clone_meta(alloc, meta)),
        Trait::Copy => answer(alloc, source, COPY.build_from_copy_meta(alloc, meta)),
        Trait::PartialEq => answer(
            alloc,
            source,
            PARTIAL_EQ.build_from_partial_eq_meta(alloc, meta),
        ),
        Trait::Eq => answer(alloc, source, EQ.build_from_eq_meta(alloc, meta)),
        Trait::PartialOrd => answer(
            alloc,
            source,
            PARTIAL_ORD.build_from_partial_ord_meta(alloc, meta),
        ),
        Trait::Ord => answer(alloc, source, ORD.build_from_ord_meta(alloc, meta)),
        Trait::Hash => answer(alloc, source, HASH.build_from_hash_meta(alloc, meta)),
        Trait::Default => answer(alloc, source, DEFAULT.build_from_default_meta(alloc, meta)),
    }
}

/// What the attribute of a trait says of a field; `Default` is given the field's type as well.
fn field_words(alloc: Global, which: Trait, source: &str, meta: &Meta) -> Result<String, Fail>
    requires { IsNamed meta.now }
{
    match which {
        Trait::Debug => debug_of_a_field(alloc, source, meta),
        Trait::Clone => answer(alloc, source, CLONED.build_from_clone_meta(alloc, meta)),
        Trait::Copy => answer(
            alloc,
            source,
            copy::FieldAttributeBuilder.build_from_copy_meta(alloc, meta),
        ),
        Trait::PartialEq => answer(
            alloc,
            source,
            COMPARED.build_from_partial_eq_meta(alloc, meta),
        ),
        Trait::Eq => answer(
            alloc,
            source,
            eq::FieldAttributeBuilder.build_from_eq_meta(alloc, meta),
        ),
        Trait::PartialOrd => answer(
            alloc,
            source,
            partial_ord_field(true, true, true, true).build_from_partial_ord_meta(alloc, meta),
        ),
        Trait::Ord => answer(
            alloc,
            source,
            ord_field(true, true, true, true).build_from_ord_meta(alloc, meta),
        ),
        Trait::Hash => answer(alloc, source, HASHED.build_from_hash_meta(alloc, meta)),
        Trait::Default => Err(Fail::from(source)),
    }
}

/// The trait that a meta names.
fn named_trait(meta: &Meta) -> Result<Trait, Fail> {
    let path = path_of(meta).ok_or("no name")?;
    Ok(Trait::from_path(path).ok_or("no trait")?)
}

/// What the attribute of a trait says of a type. It is the one meta that a text is.
pub(crate) fn read_type(alloc: Global, source: &str) -> Result<String, Fail> {
    let meta = only_meta(alloc, source)?;
    let words = type_words(alloc, named_trait(&meta)?, source, &meta);
    drop(meta);
    words
}

/// What the attribute of a trait says of a field. It is the one meta that a text is.
pub(crate) fn read_field(alloc: Global, source: &str) -> Result<String, Fail> {
    let meta = only_meta(alloc, source)?;
    let words = field_words(alloc, named_trait(&meta)?, source, &meta);
    drop(meta);
    words
}
