//! The attributes of fields that are cloned, compared or hashed (documentation of `educe`, Clone;
//! PartialEq; Hash).

use crate::answers::check_metas;
use educe_attrs::{clone, copy, eq, hash, partial_eq};
use std::test::Fail;

static CLONE: &str = r#"
Clone(method = f)
Clone(method = "f")
: method f

Clone(method(a::f))
: method a :: f

Clone
Clone()
Clone = false
Clone(ignore)
Clone(bound = false)
: 1:1: you are using an incorrect format of the `Clone` attribute, which should be reformatted as follows:
    #[educe(Clone(method(path_to_method)))]

Clone(method)
: 1:7: expected `method = Path` or `method(Path)`

Clone(method = 1)
: 1:16: expected `method = Path`

Clone(method = f, method(f))
: 1:19: you are trying to reset the `method` parameter

Clone(1)
: 1:7: syntax error

Clone(a = !!!!!!!!!!!!!!!!!!!!!!!!!!!!!!!!!!!!!!!!!!!!!!!!!!!!!!!!!!!!!!!!!!!!!!!!!!!!!!!!!!!!!!!!!!!!!!!!!!!!!!!!!!!!!!!!!!!!!!!!!!!!!!!!!x)
: 1:139: nested too deeply

Clone(method = "f::<1.5>")
: 1:16: `1.5` is not supported
"#;

#[test]
fn clone_at_a_field(rt: HostRuntime) -> Result<(), Fail> {
    check_metas(
        rt.alloc(),
        clone::FieldAttributeBuilder {
            enable_method: true,
        },
        CLONE,
    )
}

static CLONE_WITHOUT_METHOD: &str = r#"
Clone(method = f)
Clone
: 1:1: the `Clone` attribute cannot be placed here
"#;

#[test]
fn clone_without_a_method(rt: HostRuntime) -> Result<(), Fail> {
    check_metas(
        rt.alloc(),
        clone::FieldAttributeBuilder {
            enable_method: false,
        },
        CLONE_WITHOUT_METHOD,
    )
}

static COPY: &str = r#"
Copy
Copy()
Copy = 1
Copy(1 1)
: 1:1: the `Copy` attribute cannot be placed here
"#;

#[test]
fn copy_at_a_field(rt: HostRuntime) -> Result<(), Fail> {
    check_metas(rt.alloc(), copy::FieldAttributeBuilder, COPY)
}

static EQ: &str = r#"
Eq
Eq(ignore)
: 1:1: the `Eq` attribute cannot be placed here
"#;

#[test]
fn eq_at_a_field(rt: HostRuntime) -> Result<(), Fail> {
    check_metas(rt.alloc(), eq::FieldAttributeBuilder, EQ)
}

static PARTIAL_EQ: &str = r#"
PartialEq = false
PartialEq(ignore)
PartialEq(ignore(true))
PartialEq{ignore}
: ignored; no method

PartialEq = true
PartialEq(ignore = false)
: kept; no method

PartialEq(method = f)
: kept; method f

PartialEq(method("a::f"), ignore)
: ignored; method a :: f

PartialEq
PartialEq()
PartialEq(rank = 1)
PartialEq(bound = false)
PartialEq(name = x)
: 1:1: you are using an incorrect format of the `PartialEq` attribute, which should be reformatted as follows:
    #[educe(PartialEq = false)]
    #[educe(PartialEq(ignore))]
    #[educe(PartialEq(method(path_to_method)))]

PartialEq = 1
PartialEq = ""
: 1:13: expected `PartialEq = false`

PartialEq(ignore = x)
: 1:20: expected `ignore = false`

PartialEq(method)
: 1:11: expected `method = Path` or `method(Path)`

PartialEq(method = 1)
: 1:20: expected `method = Path`

PartialEq(ignore, ignore = false)
: 1:19: you are trying to reset the `ignore` parameter

PartialEq(1)
: 1:11: syntax error

PartialEq(a = !!!!!!!!!!!!!!!!!!!!!!!!!!!!!!!!!!!!!!!!!!!!!!!!!!!!!!!!!!!!!!!!!!!!!!!!!!!!!!!!!!!!!!!!!!!!!!!!!!!!!!!!!!!!!!!!!!!!!!!!!!!!!!!!!x)
: 1:143: nested too deeply

PartialEq(method = "f::<1.5>")
: 1:20: `1.5` is not supported
"#;

#[test]
fn partial_eq_at_a_field(rt: HostRuntime) -> Result<(), Fail> {
    check_metas(
        rt.alloc(),
        partial_eq::FieldAttributeBuilder {
            enable_ignore: true,
            enable_method: true,
        },
        PARTIAL_EQ,
    )
}

static HASH: &str = r#"
Hash = false
Hash(ignore)
Hash(ignore(true))
Hash{ignore}
: ignored; no method

Hash = true
Hash(ignore = false)
: kept; no method

Hash(method = f)
: kept; method f

Hash(method("a::f"), ignore)
: ignored; method a :: f

Hash
Hash()
Hash(rank = 1)
Hash(bound = false)
Hash(name = x)
: 1:1: you are using an incorrect format of the `Hash` attribute, which should be reformatted as follows:
    #[educe(Hash = false)]
    #[educe(Hash(ignore))]
    #[educe(Hash(method(path_to_method)))]

Hash = 1
Hash = ""
: 1:8: expected `Hash = false`

Hash(ignore = x)
: 1:15: expected `ignore = false`

Hash(method)
: 1:6: expected `method = Path` or `method(Path)`

Hash(method = 1)
: 1:15: expected `method = Path`

Hash(ignore, ignore = false)
: 1:14: you are trying to reset the `ignore` parameter

Hash(1)
: 1:6: syntax error

Hash(a = !!!!!!!!!!!!!!!!!!!!!!!!!!!!!!!!!!!!!!!!!!!!!!!!!!!!!!!!!!!!!!!!!!!!!!!!!!!!!!!!!!!!!!!!!!!!!!!!!!!!!!!!!!!!!!!!!!!!!!!!!!!!!!!!!x)
: 1:138: nested too deeply

Hash(method = "f::<1.5>")
: 1:15: `1.5` is not supported
"#;

#[test]
fn hash_at_a_field(rt: HostRuntime) -> Result<(), Fail> {
    check_metas(
        rt.alloc(),
        hash::FieldAttributeBuilder {
            enable_ignore: true,
            enable_method: true,
        },
        HASH,
    )
}
