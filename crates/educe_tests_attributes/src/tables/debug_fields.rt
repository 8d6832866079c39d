//! The attributes of `Debug` at fields (documentation of `educe`, Debug).

use crate::answers::{check_fields, check_metas};
use crate::builders::{debug_field, debug_field_named};
use educe_attrs::debug;
use educe_attrs::debug::FieldName;
use educe_bound::Trait;
use std::test::Fail;

static NAMED: &str = r#"
Debug = x
Debug = "x"
Debug(name = x)
Debug(name(x))
Debug(rename = "x")
Debug(rename{x})
: name x; kept; no method

Debug = false
Debug = ""
Debug(ignore)
Debug(ignore = true)
: own name; ignored; no method

Debug = true
Debug(ignore = false)
Debug(ignore(false))
: own name; kept; no method

Debug(method = f)
Debug(method("f"))
: own name; kept; method f

Debug(method(a::f::<u8>))
: own name; kept; method a :: f ::< u8 >

Debug(method = "a::f")
: own name; kept; method a :: f

Debug(method = <T as X>::f)
: own name; kept; method < T as X >:: f

Debug[name = x, ignore, method = f,]
: name x; ignored; method f

Debug
Debug()
Debug(bound = false)
Debug(named_field = true)
Debug(rank = 1)
Debug(r#ignore)
: 1:1: you are using an incorrect format of the `Debug` attribute, which should be reformatted as follows:
    #[educe(Debug = NewName)]
    #[educe(Debug(name(NewName)))]
    #[educe(Debug = false)]
    #[educe(Debug(ignore))]
    #[educe(Debug(method(path_to_method)))]

Debug = 1
Debug = "1"
: 1:9: expected `Debug = Ident` or `Debug = false`

Debug(name)
: 1:7: expected `name = Ident` or `name(Ident)`

Debug(rename)
: 1:7: expected `rename = Ident` or `rename(Ident)`

Debug(name = true)
Debug(name = "")
: 1:14: expected `name = Ident`

Debug(name(false))
: 1:12: expected `name = Ident`

Debug(rename = 1)
: 1:16: expected `rename = Ident`

Debug(ignore = 1)
Debug(ignore = "true")
: 1:16: expected `ignore = false`

Debug(ignore())
: 1:13: expected `ignore = false`

Debug(ignore(true true))
: 1:14: expected `ignore = false`

Debug(method)
: 1:7: expected `method = Path` or `method(Path)`

Debug(method = 1)
Debug(method = "")
Debug(method = "f()")
Debug(method = "'")
: 1:16: expected `method = Path`

Debug(method(f()))
: 1:14: expected `method = Path`

Debug(method())
: 1:13: expected `method = Path`

Debug(method(f::<X<X<X<X<X<X<X<X<X<X<X<X<X<X<X<X<X<X<X<X<X<X<X<X<X<X<X<X<X<X<X<X<X<X<X<X<X<X<X<X<X<X<X<X<X<X<X<X<X<X<X<X<X<X<X<X<X<X<X<X<X<X<X<X<X<X<X<X<X<X<X<X<X<X<X<X<X<X<X<X<X<X<X<X<X<X<X<X<X<X<X<X<X<X<X<X<X<X<X<X<X<X<X<X<X<X<X<X<X<X<X<X<X<X<X<X<X<X<X<X<X<X<X<X<X<X<X<X<u8>>>>>>>>>>>>>>>>>>>>>>>>>>>>>>>>>>>>>>>>>>>>>>>>>>>>>>>>>>>>>>>>>>>>>>>>>>>>>>>>>>>>>>>>>>>>>>>>>>>>>>>>>>>>>>>>>>>>>>>>>>>>>>>>>))
: 1:273: nested too deeply

Debug(name = x, rename = x)
: 1:17: you are trying to reset the `rename` parameter

Debug(ignore, ignore)
: 1:15: you are trying to reset the `ignore` parameter

Debug(method = f, ignore, method = f)
: 1:27: you are trying to reset the `method` parameter

Debug = "1.5"
: 1:9: `1.5` is not supported

Debug(method = "f::<1.5>")
: 1:16: `1.5` is not supported

Debug(method = "f::<c\"x\">")
: 1:16: `c"x"` is not supported

Debug(method = "f::<X<X<X<X<X<X<X<X<X<X<X<X<X<X<X<X<X<X<X<X<X<X<X<X<X<X<X<X<X<X<X<X<X<X<X<X<X<X<X<X<X<X<X<X<X<X<X<X<X<X<X<X<X<X<X<X<X<X<X<X<X<X<X<X<X<X<X<X<X<X<X<X<X<X<X<X<X<X<X<X<X<X<X<X<X<X<X<X<X<X<X<X<X<X<X<X<X<X<X<X<X<X<X<X<X<X<X<X<X<X<X<X<X<X<X<X<X<X<X<X<X<X<X<X<X<X<X<X<u8>>>>>>>>>>>>>>>>>>>>>>>>>>>>>>>>>>>>>>>>>>>>>>>>>>>>>>>>>>>>>>>>>>>>>>>>>>>>>>>>>>>>>>>>>>>>>>>>>>>>>>>>>>>>>>>>>>>>>>>>>>>>>>>>>")
Debug(method = "((((((((((((((((((((((((((((((((((((((((((((((((((((((((((((((((((((((((((((((((((((((((((((((((((((((((((((((((((((((((((((((((()))))))))))))))))))))))))))))))))))))))))))))))))))))))))))))))))))))))))))))))))))))))))))))))))))))))))))))))))))))))))))))))))")
: 1:16: nested too deeply

Debug(1)
: 1:7: syntax error
"#;

#[test]
fn debug_at_a_field_with_a_name(rt: HostRuntime) -> Result<(), Fail> {
    check_metas(rt.alloc(), debug_field(true), NAMED)
}

static UNNAMED: &str = r#"
Debug = false
: own name; ignored; no method

Debug = true
: own name; kept; no method

Debug(ignore, method = f)
: own name; ignored; method f

Debug(name = x)
Debug(rename = x)
Debug
: 1:1: you are using an incorrect format of the `Debug` attribute, which should be reformatted as follows:
    #[educe(Debug = false)]
    #[educe(Debug(ignore))]
    #[educe(Debug(method(path_to_method)))]

Debug = x
Debug = ""
: 1:9: expected `Debug = false`

Debug(method)
: 1:7: expected `method = Path` or `method(Path)`

Debug(ignore, ignore)
: 1:15: you are trying to reset the `ignore` parameter

Debug(1)
: 1:7: syntax error

Debug(a = !!!!!!!!!!!!!!!!!!!!!!!!!!!!!!!!!!!!!!!!!!!!!!!!!!!!!!!!!!!!!!!!!!!!!!!!!!!!!!!!!!!!!!!!!!!!!!!!!!!!!!!!!!!!!!!!!!!!!!!!!!!!!!!!!x)
: 1:139: nested too deeply

Debug(method = "f::<1.5>")
: 1:16: `1.5` is not supported
"#;

#[test]
fn debug_at_a_field_without_a_name(rt: HostRuntime) -> Result<(), Fail> {
    check_metas(rt.alloc(), debug_field(false), UNNAMED)
}

static ONLY_NAME: &str = r#"
Debug = x
Debug(name = x)
: name x; kept; no method

Debug = true
: 1:9: expected `Debug = Ident`

Debug(ignore)
Debug(method = f)
: 1:1: you are using an incorrect format of the `Debug` attribute, which should be reformatted as follows:
    #[educe(Debug = NewName)]
    #[educe(Debug(name(NewName)))]
"#;

#[test]
fn debug_with_a_name_alone(rt: HostRuntime) -> Result<(), Fail> {
    check_metas(
        rt.alloc(),
        debug::FieldAttributeBuilder {
            enable_name: true,
            enable_ignore: false,
            enable_method: false,
            name: FieldName::Default,
        },
        ONLY_NAME,
    )
}

static ONLY_METHOD: &str = r#"
Debug(method = f)
: own name; kept; method f

Debug = false
Debug(ignore)
: 1:1: you are using an incorrect format of the `Debug` attribute, which should be reformatted as follows:
    #[educe(Debug(method(path_to_method)))]
"#;

#[test]
fn debug_with_a_method_alone(rt: HostRuntime) -> Result<(), Fail> {
    check_metas(
        rt.alloc(),
        debug::FieldAttributeBuilder {
            enable_name: false,
            enable_ignore: false,
            enable_method: true,
            name: FieldName::Default,
        },
        ONLY_METHOD,
    )
}

static NO_SWITCH: &str = r#"
Debug = false
Debug(name = x)
: 1:1: the `Debug` attribute cannot be placed here
"#;

#[test]
fn debug_without_switches(rt: HostRuntime) -> Result<(), Fail> {
    check_metas(
        rt.alloc(),
        debug::FieldAttributeBuilder {
            enable_name: false,
            enable_ignore: false,
            enable_method: false,
            name: FieldName::Default,
        },
        NO_SWITCH,
    )
}

static RENAMED: &str = r#"
∅
#[educe(Debug = true)]
: name N; kept; no method

#[educe(Debug(ignore))]
#[educe(Debug = false)] #[educe(Clone(method = f))]
: name N; ignored; no method

#[educe(Debug = x)]
: name x; kept; no method
"#;

#[test]
fn debug_at_a_field_that_has_another_name(rt: HostRuntime) -> Result<(), Fail> {
    let alloc = rt.alloc();
    let builder = debug_field_named(alloc, "N")?;
    check_fields(alloc, builder, &[Trait::Debug, Trait::Clone], RENAMED)
}
