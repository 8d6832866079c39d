//! The attributes of `Debug` at types and variants (documentation of `educe`, Debug).

use crate::answers::{check_metas, check_types};
use crate::builders::{debug_enum, debug_named, debug_struct, debug_variant};
use educe_attrs::debug;
use educe_attrs::debug::TypeName;
use educe_bound::Trait;
use std::test::Fail;

static STRUCT: &str = r#"
Debug
Debug()
Debug(name = true)
Debug(named_field(true))
: own name; named fields; needed bounds

Debug = Point
Debug = "Point"
Debug(name = Point)
Debug(name(Point))
Debug(rename = Point)
Debug(rename("Point"))
: name Point; named fields; needed bounds

Debug = r#type
: name r#type; named fields; needed bounds

Debug(name = "union")
: name union; named fields; needed bounds

Debug(name = false)
Debug(name(false))
Debug(name = "")
Debug(rename(""))
: no name; named fields; needed bounds

Debug(named_field = false)
: own name; fields without names; needed bounds

Debug(bound = false)
: own name; named fields; no bounds

Debug(named_field = false, bound(*), name = Point)
: name Point; fields without names; all bounds

Debug = true
Debug = 1
Debug = a::b
Debug = ""
Debug = "a b"
Debug = "fn"
: 1:9: expected `Debug = Ident`

Debug(name)
: 1:7: expected `name = Ident`, `name(Ident)`, `name = false`, or `name(false)`

Debug(rename)
: 1:7: expected `rename = Ident`, `rename(Ident)`, `rename = false`, or `rename(false)`

Debug(name = 1)
Debug(name = " ")
Debug(name = "true")
: 1:14: expected `name = Ident` or `name = false`

Debug(rename(1))
: 1:14: expected `rename = Ident` or `rename = false`

Debug(name())
: 1:11: expected `name = Ident` or `name = false`

Debug(name(a b))
: 1:12: expected `name = Ident` or `name = false`

Debug(named_field)
: 1:7: expected `named_field = false` or `named_field(false)`

Debug(named_field = 1)
Debug(named_field = "false")
: 1:21: expected `named_field = false`

Debug(named_field[])
: 1:18: expected `named_field = false`

Debug(name = a, rename = b)
: 1:17: you are trying to reset the `rename` parameter

Debug(rename = a, bound = true, name = a)
: 1:33: you are trying to reset the `name` parameter

Debug(named_field = true, named_field = true)
: 1:27: you are trying to reset the `named_field` parameter

Debug = "1.5"
: 1:9: `1.5` is not supported

Debug(name = "1.5")
: 1:14: `1.5` is not supported

Debug("name")
: 1:7: syntax error

Debug(ignore)
Debug(new)
Debug(name::name = a)
: 1:1: you are using an incorrect format of the `Debug` attribute, which should be reformatted as follows:
    #[educe(Debug)]
    #[educe(Debug = NewName)]
    #[educe(Debug(name(NewName)))]
    #[educe(Debug(name = false))]
    #[educe(Debug(named_field = false))]
    #[educe(Debug(bound(where_predicates)))]
    #[educe(Debug(bound = false))]

Debug(a = !!!!!!!!!!!!!!!!!!!!!!!!!!!!!!!!!!!!!!!!!!!!!!!!!!!!!!!!!!!!!!!!!!!!!!!!!!!!!!!!!!!!!!!!!!!!!!!!!!!!!!!!!!!!!!!!!!!!!!!!!!!!!!!!!x)
: 1:139: nested too deeply
"#;

#[test]
fn debug_at_a_struct(rt: HostRuntime) -> Result<(), Fail> {
    check_metas(rt.alloc(), debug_struct(true), STRUCT)
}

static TUPLE: &str = r#"
Debug
: own name; fields without names; needed bounds

Debug(named_field = true)
: own name; named fields; needed bounds

Debug(method = a)
: 1:1: you are using an incorrect format of the `Debug` attribute, which should be reformatted as follows:
    #[educe(Debug)]
    #[educe(Debug = NewName)]
    #[educe(Debug(name(NewName)))]
    #[educe(Debug(name = false))]
    #[educe(Debug(named_field = true))]
    #[educe(Debug(bound(where_predicates)))]
    #[educe(Debug(bound = false))]
"#;

#[test]
fn debug_at_a_tuple(rt: HostRuntime) -> Result<(), Fail> {
    check_metas(rt.alloc(), debug_struct(false), TUPLE)
}

static ENUM: &str = r#"
Debug
Debug()
Debug(name = "")
: no name; fields without names; needed bounds

Debug(name = true)
: own name; fields without names; needed bounds

Debug = E
Debug(name = E)
Debug(rename(E))
: name E; fields without names; needed bounds

Debug(bound = false)
: no name; fields without names; no bounds

Debug(name = true, bound(T: Debug))
: own name; fields without names; bounds T : Debug,

Debug(named_field = true)
: 1:1: you are using an incorrect format of the `Debug` attribute, which should be reformatted as follows:
    #[educe(Debug)]
    #[educe(Debug = NewName)]
    #[educe(Debug(name(NewName)))]
    #[educe(Debug(name = true))]
    #[educe(Debug(bound(where_predicates)))]
    #[educe(Debug(bound = false))]

Debug = 1
: 1:9: expected `Debug = Ident`

Debug(name)
: 1:7: expected `name = Ident`, `name(Ident)`, `name = false`, or `name(false)`

Debug(name = 1)
: 1:14: expected `name = Ident` or `name = false`

Debug(name = A, name = A)
: 1:17: you are trying to reset the `name` parameter

Debug(1)
: 1:7: syntax error

Debug(a = !!!!!!!!!!!!!!!!!!!!!!!!!!!!!!!!!!!!!!!!!!!!!!!!!!!!!!!!!!!!!!!!!!!!!!!!!!!!!!!!!!!!!!!!!!!!!!!!!!!!!!!!!!!!!!!!!!!!!!!!!!!!!!!!!x)
: 1:139: nested too deeply

Debug(bound = "T: 1.5")
: 1:15: `1.5` is not supported
"#;

#[test]
fn debug_at_an_enum(rt: HostRuntime) -> Result<(), Fail> {
    check_metas(rt.alloc(), debug_enum(), ENUM)
}

static VARIANT: &str = r#"
Debug = V
: name V; named fields; needed bounds

Debug(name = false)
: no name; named fields; needed bounds

Debug(rename(V), named_field = false)
: name V; fields without names; needed bounds

Debug
Debug()
Debug(bound = false)
: 1:1: you are using an incorrect format of the `Debug` attribute, which should be reformatted as follows:
    #[educe(Debug = NewName)]
    #[educe(Debug(name(NewName)))]
    #[educe(Debug(name = false))]
    #[educe(Debug(named_field = false))]

Debug = 1
: 1:9: expected `Debug = Ident`

Debug(name)
: 1:7: expected `name = Ident`, `name(Ident)`, `name = false`, or `name(false)`

Debug(name = 1)
: 1:14: expected `name = Ident` or `name = false`

Debug(name = V, rename = V)
: 1:17: you are trying to reset the `rename` parameter

Debug(1)
: 1:7: syntax error

Debug(a = !!!!!!!!!!!!!!!!!!!!!!!!!!!!!!!!!!!!!!!!!!!!!!!!!!!!!!!!!!!!!!!!!!!!!!!!!!!!!!!!!!!!!!!!!!!!!!!!!!!!!!!!!!!!!!!!!!!!!!!!!!!!!!!!!x)
: 1:139: nested too deeply

Debug(name = "1.5")
: 1:14: `1.5` is not supported
"#;

#[test]
fn debug_at_a_variant(rt: HostRuntime) -> Result<(), Fail> {
    check_metas(rt.alloc(), debug_variant(true), VARIANT)
}

static TUPLE_VARIANT: &str = r#"
Debug(name = V)
: name V; fields without names; needed bounds

Debug(named_field = true)
: own name; named fields; needed bounds

Debug(ignore)
: 1:1: you are using an incorrect format of the `Debug` attribute, which should be reformatted as follows:
    #[educe(Debug = NewName)]
    #[educe(Debug(name(NewName)))]
    #[educe(Debug(name = false))]
    #[educe(Debug(named_field = true))]
"#;

#[test]
fn debug_at_a_tuple_variant(rt: HostRuntime) -> Result<(), Fail> {
    check_metas(rt.alloc(), debug_variant(false), TUPLE_VARIANT)
}

static WITHOUT_NAME: &str = r#"
Debug
: name N; fields without names; needed bounds

Debug = A
Debug(name = A)
Debug(rename = A)
: 1:1: you are using an incorrect format of the `Debug` attribute, which should be reformatted as follows:
    #[educe(Debug)]
    #[educe(Debug(named_field = true))]
    #[educe(Debug(bound(where_predicates)))]
    #[educe(Debug(bound = false))]
"#;

#[test]
fn debug_without_a_name(rt: HostRuntime) -> Result<(), Fail> {
    let alloc = rt.alloc();
    let builder = debug_named(alloc, "N")?;
    check_metas(alloc, builder, WITHOUT_NAME)
}

static ONLY_NAMED_FIELD: &str = r#"
Debug(named_field = false)
: no name; fields without names; needed bounds

Debug
Debug = A
: 1:1: you are using an incorrect format of the `Debug` attribute, which should be reformatted as follows:
    #[educe(Debug(named_field = false))]
"#;

#[test]
fn debug_with_named_field_alone(rt: HostRuntime) -> Result<(), Fail> {
    check_metas(
        rt.alloc(),
        debug::TypeAttributeBuilder {
            enable_flag: false,
            enable_name: false,
            enable_named_field: true,
            enable_bound: false,
            name: TypeName::Disable,
            named_field: true,
        },
        ONLY_NAMED_FIELD,
    )
}

static NO_SWITCH: &str = r#"
Debug
Debug = A
Debug(name = A)
: 1:1: the `Debug` attribute cannot be placed here
"#;

#[test]
fn debug_without_switches(rt: HostRuntime) -> Result<(), Fail> {
    check_metas(
        rt.alloc(),
        debug::TypeAttributeBuilder {
            enable_flag: false,
            enable_name: false,
            enable_named_field: false,
            enable_bound: false,
            name: TypeName::Default,
            named_field: true,
        },
        NO_SWITCH,
    )
}

static VARIANT_PLACES: &str = r#"
∅
: own name; named fields; needed bounds

#[educe(Debug = V)]
: name V; named fields; needed bounds

#[educe] #[educe(Clone)] #[educe(Debug(rename = V, named_field(false)))]
: name V; fields without names; needed bounds

#[educe(Debug)]
: 1:9: you are using an incorrect format of the `Debug` attribute, which should be reformatted as follows:
    #[educe(Debug = NewName)]
    #[educe(Debug(name(NewName)))]
    #[educe(Debug(name = false))]
    #[educe(Debug(named_field = false))]

#[educe(Debug = V)] #[educe(Debug = V)]
: 1:29: the trait `Debug` is used repeatedly

#[educe(Hash)]
: 1:9: the trait `Hash` is not used

#[educe(Debug = 1)]
: 1:17: expected `Debug = Ident`
"#;

#[test]
fn debug_in_the_attributes_of_a_variant(rt: HostRuntime) -> Result<(), Fail> {
    check_types(
        rt.alloc(),
        debug_variant(true),
        &[Trait::Debug, Trait::Clone],
        VARIANT_PLACES,
    )
}
