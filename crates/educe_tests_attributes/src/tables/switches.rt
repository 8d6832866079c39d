//! The switches of builders: those of types that have bounds and nothing else, and those of fields that are compared,
//! ordered or hashed (documentation of `educe`, Clone; Copy; PartialEq; Eq; PartialOrd; Ord; Hash).

use crate::answers::check_metas;
use crate::builders::ord_field;
use crate::words::Worded;
use educe_attrs::{AttributeBuilder, clone, copy, eq, hash, ord, partial_eq, partial_ord};
use std::alloc::Global;
use std::test::Fail;

/// The metas of a table in which `Trait` stands for the trait of the builder.
fn check_of_trait<B: AttributeBuilder + Drop>(
    alloc: Global,
    builder: B,
    table: &str,
) -> Result<(), Fail>
where
    B::Attribute: Worded,
{
    let table = table.replace(alloc, "Trait", B::TRAIT.name())?;
    check_metas(alloc, builder, &table)
}

static FLAG: &str = r#"
Trait
Trait()
: needed bounds

Trait = false
Trait(bound = false)
: 1:1: you are using an incorrect format of the `Trait` attribute, which should be reformatted as follows:
    #[educe(Trait)]
"#;

static BOUND: &str = r#"
Trait(bound = false)
: no bounds

Trait
Trait()
Trait = 1
: 1:1: you are using an incorrect format of the `Trait` attribute, which should be reformatted as follows:
    #[educe(Trait(bound(where_predicates)))]
    #[educe(Trait(bound = false))]
"#;

/// What a variant allows, and what a field does that has neither switch.
static NOTHING: &str = r#"
Trait
Trait()
Trait = 1
Trait = false
Trait(bound = 1)
Trait(method = f)
Trait(1 1)
: 1:1: the `Trait` attribute cannot be placed here
"#;

#[test]
fn switches_of_clone(rt: HostRuntime) -> Result<(), Fail> {
    let alloc = rt.alloc();
    check_of_trait(
        alloc,
        clone::TypeAttributeBuilder {
            enable_flag: true,
            enable_bound: false,
        },
        FLAG,
    )?;
    check_of_trait(
        alloc,
        clone::TypeAttributeBuilder {
            enable_flag: false,
            enable_bound: true,
        },
        BOUND,
    )?;
    check_of_trait(
        alloc,
        clone::TypeAttributeBuilder {
            enable_flag: false,
            enable_bound: false,
        },
        NOTHING,
    )
}

#[test]
fn switches_of_copy(rt: HostRuntime) -> Result<(), Fail> {
    let alloc = rt.alloc();
    check_of_trait(
        alloc,
        copy::TypeAttributeBuilder {
            enable_flag: true,
            enable_bound: false,
        },
        FLAG,
    )?;
    check_of_trait(
        alloc,
        copy::TypeAttributeBuilder {
            enable_flag: false,
            enable_bound: true,
        },
        BOUND,
    )?;
    check_of_trait(
        alloc,
        copy::TypeAttributeBuilder {
            enable_flag: false,
            enable_bound: false,
        },
        NOTHING,
    )
}

#[test]
fn switches_of_partial_eq(rt: HostRuntime) -> Result<(), Fail> {
    let alloc = rt.alloc();
    check_of_trait(
        alloc,
        partial_eq::TypeAttributeBuilder {
            enable_flag: true,
            enable_bound: false,
        },
        FLAG,
    )?;
    check_of_trait(
        alloc,
        partial_eq::TypeAttributeBuilder {
            enable_flag: false,
            enable_bound: true,
        },
        BOUND,
    )?;
    check_of_trait(
        alloc,
        partial_eq::TypeAttributeBuilder {
            enable_flag: false,
            enable_bound: false,
        },
        NOTHING,
    )
}

#[test]
fn switches_of_eq(rt: HostRuntime) -> Result<(), Fail> {
    let alloc = rt.alloc();
    check_of_trait(
        alloc,
        eq::TypeAttributeBuilder {
            enable_flag: true,
            enable_bound: false,
        },
        FLAG,
    )?;
    check_of_trait(
        alloc,
        eq::TypeAttributeBuilder {
            enable_flag: false,
            enable_bound: true,
        },
        BOUND,
    )?;
    check_of_trait(
        alloc,
        eq::TypeAttributeBuilder {
            enable_flag: false,
            enable_bound: false,
        },
        NOTHING,
    )
}

#[test]
fn switches_of_partial_ord(rt: HostRuntime) -> Result<(), Fail> {
    let alloc = rt.alloc();
    check_of_trait(
        alloc,
        partial_ord::TypeAttributeBuilder {
            enable_flag: true,
            enable_bound: false,
        },
        FLAG,
    )?;
    check_of_trait(
        alloc,
        partial_ord::TypeAttributeBuilder {
            enable_flag: false,
            enable_bound: true,
        },
        BOUND,
    )?;
    check_of_trait(
        alloc,
        partial_ord::TypeAttributeBuilder {
            enable_flag: false,
            enable_bound: false,
        },
        NOTHING,
    )
}

#[test]
fn switches_of_ord(rt: HostRuntime) -> Result<(), Fail> {
    let alloc = rt.alloc();
    check_of_trait(
        alloc,
        ord::TypeAttributeBuilder {
            enable_flag: true,
            enable_bound: false,
        },
        FLAG,
    )?;
    check_of_trait(
        alloc,
        ord::TypeAttributeBuilder {
            enable_flag: false,
            enable_bound: true,
        },
        BOUND,
    )?;
    check_of_trait(
        alloc,
        ord::TypeAttributeBuilder {
            enable_flag: false,
            enable_bound: false,
        },
        NOTHING,
    )
}

#[test]
fn switches_of_hash(rt: HostRuntime) -> Result<(), Fail> {
    let alloc = rt.alloc();
    check_of_trait(
        alloc,
        hash::TypeAttributeBuilder {
            enable_flag: true,
            enable_bound: false,
        },
        FLAG,
    )?;
    check_of_trait(
        alloc,
        hash::TypeAttributeBuilder {
            enable_flag: false,
            enable_bound: true,
        },
        BOUND,
    )?;
    check_of_trait(
        alloc,
        hash::TypeAttributeBuilder {
            enable_flag: false,
            enable_bound: false,
        },
        NOTHING,
    )
}

static IGNORE: &str = r#"
Trait = false
Trait(ignore)
: ignored; no method

Trait(method = f)
: 1:1: you are using an incorrect format of the `Trait` attribute, which should be reformatted as follows:
    #[educe(Trait = false)]
    #[educe(Trait(ignore))]
"#;

static METHOD: &str = r#"
Trait(method = f)
: kept; method f

Trait = false
Trait(ignore)
: 1:1: you are using an incorrect format of the `Trait` attribute, which should be reformatted as follows:
    #[educe(Trait(method(path_to_method)))]
"#;

#[test]
fn switches_of_partial_eq_at_a_field(rt: HostRuntime) -> Result<(), Fail> {
    let alloc = rt.alloc();
    check_of_trait(
        alloc,
        partial_eq::FieldAttributeBuilder {
            enable_ignore: true,
            enable_method: false,
        },
        IGNORE,
    )?;
    check_of_trait(
        alloc,
        partial_eq::FieldAttributeBuilder {
            enable_ignore: false,
            enable_method: true,
        },
        METHOD,
    )?;
    check_of_trait(
        alloc,
        partial_eq::FieldAttributeBuilder {
            enable_ignore: false,
            enable_method: false,
        },
        NOTHING,
    )
}

#[test]
fn switches_of_hash_at_a_field(rt: HostRuntime) -> Result<(), Fail> {
    let alloc = rt.alloc();
    check_of_trait(
        alloc,
        hash::FieldAttributeBuilder {
            enable_ignore: true,
            enable_method: false,
        },
        IGNORE,
    )?;
    check_of_trait(
        alloc,
        hash::FieldAttributeBuilder {
            enable_ignore: false,
            enable_method: true,
        },
        METHOD,
    )?;
    check_of_trait(
        alloc,
        hash::FieldAttributeBuilder {
            enable_ignore: false,
            enable_method: false,
        },
        NOTHING,
    )
}

/// Both orders at a field of the rank 7.
fn check_orders(
    alloc: Global,
    enable_ignore: bool,
    enable_method: bool,
    enable_rank: bool,
    enable_reverse: bool,
    table: &str,
) -> Result<(), Fail> {
    check_of_trait(
        alloc,
        ord_field(enable_ignore, enable_method, enable_rank, enable_reverse),
        table,
    )?;
    check_of_trait(
        alloc,
        partial_ord::FieldAttributeBuilder {
            enable_ignore,
            enable_method,
            enable_rank,
            enable_reverse,
            rank: 7,
        },
        table,
    )
}

static ORDER_IGNORE: &str = r#"
Trait(ignore = true)
: ignored; no method; rank 7

Trait()
Trait(method = f)
Trait(rank = 1)
Trait(reverse)
: 1:1: you are using an incorrect format of the `Trait` attribute, which should be reformatted as follows:
    #[educe(Trait = false)]
    #[educe(Trait(ignore))]
"#;

static ORDER_METHOD: &str = r#"
Trait(method = f)
: kept; method f; rank 7

Trait()
Trait = false
Trait(ignore)
Trait(rank = 1)
Trait(reverse)
: 1:1: you are using an incorrect format of the `Trait` attribute, which should be reformatted as follows:
    #[educe(Trait(method(path_to_method)))]
"#;

static ORDER_RANK: &str = r#"
Trait()
Trait = false
Trait(ignore)
Trait(method = f)
: 1:1: you are using an incorrect format of the `Trait` attribute, which should be reformatted as follows:
    #[educe(Trait(rank = integer))]
"#;

static ORDER_REVERSE: &str = r#"
Trait(reverse)
: kept; no method; rank 7; reversed

Trait()
Trait = false
Trait(ignore)
Trait(method = f)
Trait(rank = 1)
: 1:1: you are using an incorrect format of the `Trait` attribute, which should be reformatted as follows:
    #[educe(Trait(reverse))]
"#;

static ORDER_IGNORE_OR_METHOD: &str = r#"
Trait(ignore = true)
: ignored; no method; rank 7

Trait(method = f)
: kept; method f; rank 7

Trait()
Trait(rank = 1)
Trait(reverse)
: 1:1: you are using an incorrect format of the `Trait` attribute, which should be reformatted as follows:
    #[educe(Trait = false)]
    #[educe(Trait(ignore))]
    #[educe(Trait(method(path_to_method)))]
"#;

static ORDER_IGNORE_OR_RANK: &str = r#"
Trait(ignore = true)
: ignored; no method; rank 7

Trait()
Trait(method = f)
: 1:1: you are using an incorrect format of the `Trait` attribute, which should be reformatted as follows:
    #[educe(Trait = false)]
    #[educe(Trait(ignore))]
    #[educe(Trait(rank = integer))]
"#;

static ORDER_METHOD_OR_RANK: &str = r#"
Trait(method = f)
: kept; method f; rank 7

Trait()
Trait = false
Trait(ignore)
: 1:1: you are using an incorrect format of the `Trait` attribute, which should be reformatted as follows:
    #[educe(Trait(method(path_to_method)))]
    #[educe(Trait(rank = integer))]
"#;

static ORDER_RANK_OR_REVERSE: &str = r#"
Trait(reverse)
: kept; no method; rank 7; reversed

Trait()
Trait = false
Trait(ignore)
Trait(method = f)
: 1:1: you are using an incorrect format of the `Trait` attribute, which should be reformatted as follows:
    #[educe(Trait(rank = integer))]
    #[educe(Trait(reverse))]
"#;

#[test]
fn switches_of_orders_at_a_field(rt: HostRuntime) -> Result<(), Fail> {
    let alloc = rt.alloc();
    check_orders(alloc, true, false, false, false, ORDER_IGNORE)?;
    check_orders(alloc, false, true, false, false, ORDER_METHOD)?;
    check_orders(alloc, false, false, true, false, ORDER_RANK)?;
    check_orders(alloc, false, false, false, true, ORDER_REVERSE)?;
    check_orders(alloc, true, true, false, false, ORDER_IGNORE_OR_METHOD)?;
    check_orders(alloc, true, false, true, false, ORDER_IGNORE_OR_RANK)?;
    check_orders(alloc, false, true, true, false, ORDER_METHOD_OR_RANK)?;
    check_orders(alloc, false, false, true, true, ORDER_RANK_OR_REVERSE)?;
    check_orders(alloc, false, false, false, false, NOTHING)
}
