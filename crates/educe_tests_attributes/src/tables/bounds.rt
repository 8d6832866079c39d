//! The attributes of a type that allow the trait alone and `bound` (documentation of `educe`, Bounds).

use crate::answers::check_metas;
use educe_attrs::{clone, copy, eq, hash, ord, partial_eq, partial_ord};
use std::test::Fail;

static CLONE: &str = r##"
Clone
Clone()
Clone[]
Clone{}
Clone(bound = true)
Clone(bound(true))
: needed bounds

Clone(bound = false)
Clone(bound(false))
: no bounds

Clone(bound(T: Clone))
: bounds T : Clone,

Clone(bound(*))
Clone[bound{*}]
: all bounds

Clone(bound())
Clone(bound = "")
: bounds

Clone(bound(T: Copy, for<'a> &'a U: X<U>,))
: bounds T : Copy, for < 'a > & 'a U : X < U >,

Clone(bound = "T: Copy, U: ?Sized + 'static")
: bounds T : Copy, U : ? Sized + 'static,

Clone(bound = r#"T: Copy"#)
Clone(bound("T: Copy"),)
: bounds T : Copy,

Clone = false
Clone(other)
Clone(::bound)
Clone(r#bound = false)
Clone(Bound = false)
Clone(bound::bound)
Clone(a = !!!!!!!!!!!!!!!!!!!!!!!!!!!!!!!!!!!!!!!!!!!!!!!!!!!!!!!!!!!!!!!!!!!!!!!!!!!!!!!!!!!!!!!!!!!!!!!!!!!!!!!!!!!!!!!!!!!!!!!!!!!!!!!!x)
: 1:1: you are using an incorrect format of the `Clone` attribute, which should be reformatted as follows:
    #[educe(Clone)]
    #[educe(Clone(bound(where_predicates)))]
    #[educe(Clone(bound = false))]

Clone(bound = true, bound(*))
: 1:21: you are trying to reset the `bound` parameter

Clone(bound)
: 1:7: expected `bound = "where_predicates"`, `bound(where_predicates)`, `bound(*)`, `bound = false`, or `bound(false)`

Clone(bound = 1)
Clone(bound = T)
Clone(bound = "*")
Clone(bound = "true")
Clone(bound = "T")
: 1:15: expected `bound = "where_predicates"` or `bound = false`

Clone(bound(1))
Clone(bound(T))
Clone(bound(*, T: Copy))
Clone(bound(true, T: Copy))
Clone(bound("*"))
: 1:13: expected `bound = "where_predicates"` or `bound = false`

Clone(1)
Clone(,)
: 1:7: syntax error

Clone(bound = true bound = true)
: 1:20: syntax error

Clone(bound =)
: 1:14: syntax error

Clone(a = !!!!!!!!!!!!!!!!!!!!!!!!!!!!!!!!!!!!!!!!!!!!!!!!!!!!!!!!!!!!!!!!!!!!!!!!!!!!!!!!!!!!!!!!!!!!!!!!!!!!!!!!!!!!!!!!!!!!!!!!!!!!!!!!!x)
: 1:139: nested too deeply

Clone(bound = "T: 1.5")
: 1:15: `1.5` is not supported

Clone(bound = "T: X<X<X<X<X<X<X<X<X<X<X<X<X<X<X<X<X<X<X<X<X<X<X<X<X<X<X<X<X<X<X<X<X<X<X<X<X<X<X<X<X<X<X<X<X<X<X<X<X<X<X<X<X<X<X<X<X<X<X<X<X<X<X<X<X<X<X<X<X<X<X<X<X<X<X<X<X<X<X<X<X<X<X<X<X<X<X<X<X<X<X<X<X<X<X<X<X<X<X<X<X<X<X<X<X<X<X<X<X<X<X<X<X<X<X<X<X<X<X<X<X<X<X<X<X<X<X<X<X<u8>>>>>>>>>>>>>>>>>>>>>>>>>>>>>>>>>>>>>>>>>>>>>>>>>>>>>>>>>>>>>>>>>>>>>>>>>>>>>>>>>>>>>>>>>>>>>>>>>>>>>>>>>>>>>>>>>>>>>>>>>>>>>>>>>")
: 1:15: nested too deeply
"##;

#[test]
fn clone_at_a_type(rt: HostRuntime) -> Result<(), Fail> {
    check_metas(
        rt.alloc(),
        clone::TypeAttributeBuilder {
            enable_flag: true,
            enable_bound: true,
        },
        CLONE,
    )
}

static COPY: &str = r#"
Copy
Copy()
: needed bounds

Copy(bound = false)
: no bounds

Copy(bound(T: Copy))
: bounds T : Copy,

Copy = false
Copy(other)
: 1:1: you are using an incorrect format of the `Copy` attribute, which should be reformatted as follows:
    #[educe(Copy)]
    #[educe(Copy(bound(where_predicates)))]
    #[educe(Copy(bound = false))]

Copy(bound = true, bound(*))
: 1:20: you are trying to reset the `bound` parameter

Copy(bound)
: 1:6: expected `bound = "where_predicates"`, `bound(where_predicates)`, `bound(*)`, `bound = false`, or `bound(false)`

Copy(bound = 1)
: 1:14: expected `bound = "where_predicates"` or `bound = false`

Copy(1)
: 1:6: syntax error

Copy(a = !!!!!!!!!!!!!!!!!!!!!!!!!!!!!!!!!!!!!!!!!!!!!!!!!!!!!!!!!!!!!!!!!!!!!!!!!!!!!!!!!!!!!!!!!!!!!!!!!!!!!!!!!!!!!!!!!!!!!!!!!!!!!!!!!x)
: 1:138: nested too deeply

Copy(bound = "T: 1.5")
: 1:14: `1.5` is not supported
"#;

#[test]
fn copy_at_a_type(rt: HostRuntime) -> Result<(), Fail> {
    check_metas(
        rt.alloc(),
        copy::TypeAttributeBuilder {
            enable_flag: true,
            enable_bound: true,
        },
        COPY,
    )
}

static PARTIAL_EQ: &str = r#"
PartialEq
PartialEq()
: needed bounds

PartialEq(bound = false)
: no bounds

PartialEq(bound(T: PartialEq))
: bounds T : PartialEq,

PartialEq = false
PartialEq(other)
: 1:1: you are using an incorrect format of the `PartialEq` attribute, which should be reformatted as follows:
    #[educe(PartialEq)]
    #[educe(PartialEq(bound(where_predicates)))]
    #[educe(PartialEq(bound = false))]

PartialEq(bound = true, bound(*))
: 1:25: you are trying to reset the `bound` parameter

PartialEq(bound)
: 1:11: expected `bound = "where_predicates"`, `bound(where_predicates)`, `bound(*)`, `bound = false`, or `bound(false)`

PartialEq(bound = 1)
: 1:19: expected `bound = "where_predicates"` or `bound = false`

PartialEq(1)
: 1:11: syntax error

PartialEq(a = !!!!!!!!!!!!!!!!!!!!!!!!!!!!!!!!!!!!!!!!!!!!!!!!!!!!!!!!!!!!!!!!!!!!!!!!!!!!!!!!!!!!!!!!!!!!!!!!!!!!!!!!!!!!!!!!!!!!!!!!!!!!!!!!!x)
: 1:143: nested too deeply

PartialEq(bound = "T: 1.5")
: 1:19: `1.5` is not supported
"#;

#[test]
fn partial_eq_at_a_type(rt: HostRuntime) -> Result<(), Fail> {
    check_metas(
        rt.alloc(),
        partial_eq::TypeAttributeBuilder {
            enable_flag: true,
            enable_bound: true,
        },
        PARTIAL_EQ,
    )
}

static EQ: &str = r#"
Eq
Eq()
: needed bounds

Eq(bound = false)
: no bounds

Eq(bound(T: Eq))
: bounds T : Eq,

Eq = false
Eq(other)
: 1:1: you are using an incorrect format of the `Eq` attribute, which should be reformatted as follows:
    #[educe(Eq)]
    #[educe(Eq(bound(where_predicates)))]
    #[educe(Eq(bound = false))]

Eq(bound = true, bound(*))
: 1:18: you are trying to reset the `bound` parameter

Eq(bound)
: 1:4: expected `bound = "where_predicates"`, `bound(where_predicates)`, `bound(*)`, `bound = false`, or `bound(false)`

Eq(bound = 1)
: 1:12: expected `bound = "where_predicates"` or `bound = false`

Eq(1)
: 1:4: syntax error

Eq(a = !!!!!!!!!!!!!!!!!!!!!!!!!!!!!!!!!!!!!!!!!!!!!!!!!!!!!!!!!!!!!!!!!!!!!!!!!!!!!!!!!!!!!!!!!!!!!!!!!!!!!!!!!!!!!!!!!!!!!!!!!!!!!!!!!x)
: 1:136: nested too deeply

Eq(bound = "T: 1.5")
: 1:12: `1.5` is not supported
"#;

#[test]
fn eq_at_a_type(rt: HostRuntime) -> Result<(), Fail> {
    check_metas(
        rt.alloc(),
        eq::TypeAttributeBuilder {
            enable_flag: true,
            enable_bound: true,
        },
        EQ,
    )
}

static PARTIAL_ORD: &str = r#"
PartialOrd
PartialOrd()
: needed bounds

PartialOrd(bound = false)
: no bounds

PartialOrd(bound(T: PartialOrd))
: bounds T : PartialOrd,

PartialOrd = false
PartialOrd(other)
: 1:1: you are using an incorrect format of the `PartialOrd` attribute, which should be reformatted as follows:
    #[educe(PartialOrd)]
    #[educe(PartialOrd(bound(where_predicates)))]
    #[educe(PartialOrd(bound = false))]

PartialOrd(bound = true, bound(*))
: 1:26: you are trying to reset the `bound` parameter

PartialOrd(bound)
: 1:12: expected `bound = "where_predicates"`, `bound(where_predicates)`, `bound(*)`, `bound = false`, or `bound(false)`

PartialOrd(bound = 1)
: 1:20: expected `bound = "where_predicates"` or `bound = false`

PartialOrd(1)
: 1:12: syntax error

PartialOrd(a = !!!!!!!!!!!!!!!!!!!!!!!!!!!!!!!!!!!!!!!!!!!!!!!!!!!!!!!!!!!!!!!!!!!!!!!!!!!!!!!!!!!!!!!!!!!!!!!!!!!!!!!!!!!!!!!!!!!!!!!!!!!!!!!!!x)
: 1:144: nested too deeply

PartialOrd(bound = "T: 1.5")
: 1:20: `1.5` is not supported
"#;

#[test]
fn partial_ord_at_a_type(rt: HostRuntime) -> Result<(), Fail> {
    check_metas(
        rt.alloc(),
        partial_ord::TypeAttributeBuilder {
            enable_flag: true,
            enable_bound: true,
        },
        PARTIAL_ORD,
    )
}

static ORD: &str = r#"
Ord
Ord()
: needed bounds

Ord(bound = false)
: no bounds

Ord(bound(T: Ord))
: bounds T : Ord,

Ord = false
Ord(other)
: 1:1: you are using an incorrect format of the `Ord` attribute, which should be reformatted as follows:
    #[educe(Ord)]
    #[educe(Ord(bound(where_predicates)))]
    #[educe(Ord(bound = false))]

Ord(bound = true, bound(*))
: 1:19: you are trying to reset the `bound` parameter

Ord(bound)
: 1:5: expected `bound = "where_predicates"`, `bound(where_predicates)`, `bound(*)`, `bound = false`, or `bound(false)`

Ord(bound = 1)
: 1:13: expected `bound = "where_predicates"` or `bound = false`

Ord(1)
: 1:5: syntax error

Ord(a = !!!!!!!!!!!!!!!!!!!!!!!!!!!!!!!!!!!!!!!!!!!!!!!!!!!!!!!!!!!!!!!!!!!!!!!!!!!!!!!!!!!!!!!!!!!!!!!!!!!!!!!!!!!!!!!!!!!!!!!!!!!!!!!!!x)
: 1:137: nested too deeply

Ord(bound = "T: 1.5")
: 1:13: `1.5` is not supported
"#;

#[test]
fn ord_at_a_type(rt: HostRuntime) -> Result<(), Fail> {
    check_metas(
        rt.alloc(),
        ord::TypeAttributeBuilder {
            enable_flag: true,
            enable_bound: true,
        },
        ORD,
    )
}

static HASH: &str = r#"
Hash
Hash()
: needed bounds

Hash(bound = false)
: no bounds

Hash(bound(T: Hash))
: bounds T : Hash,

Hash = false
Hash(other)
: 1:1: you are using an incorrect format of the `Hash` attribute, which should be reformatted as follows:
    #[educe(Hash)]
    #[educe(Hash(bound(where_predicates)))]
    #[educe(Hash(bound = false))]

Hash(bound = true, bound(*))
: 1:20: you are trying to reset the `bound` parameter

Hash(bound)
: 1:6: expected `bound = "where_predicates"`, `bound(where_predicates)`, `bound(*)`, `bound = false`, or `bound(false)`

Hash(bound = 1)
: 1:14: expected `bound = "where_predicates"` or `bound = false`

Hash(1)
: 1:6: syntax error

Hash(a = !!!!!!!!!!!!!!!!!!!!!!!!!!!!!!!!!!!!!!!!!!!!!!!!!!!!!!!!!!!!!!!!!!!!!!!!!!!!!!!!!!!!!!!!!!!!!!!!!!!!!!!!!!!!!!!!!!!!!!!!!!!!!!!!!x)
: 1:138: nested too deeply

Hash(bound = "T: 1.5")
: 1:14: `1.5` is not supported
"#;

#[test]
fn hash_at_a_type(rt: HostRuntime) -> Result<(), Fail> {
    check_metas(
        rt.alloc(),
        hash::TypeAttributeBuilder {
            enable_flag: true,
            enable_bound: true,
        },
        HASH,
    )
}
