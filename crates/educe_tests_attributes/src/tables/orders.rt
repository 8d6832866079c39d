//! The attributes of fields by which two values are ordered: ranks, and what one order takes from the
//! other (documentation of `educe`, PartialOrd; Ord).

use crate::answers::{check_fields, check_metas};
use crate::builders::{ord_field, partial_ord_field};
use educe_bound::Trait;
use std::test::Fail;

static ORD: &str = r#"
Ord = false
Ord(ignore)
: ignored; no method; rank 7

Ord = true
: kept; no method; rank 7

Ord(method = f)
: kept; method f; rank 7

Ord(rank = 1)
Ord[rank = 1]
: kept; no method; rank 1 at 4 to 12

Ord{rank(1)}
Ord(rank[1])
: kept; no method; rank 1 at 4 to 11

Ord(rank = -1)
: kept; no method; rank -1 at 4 to 13

Ord(rank(- 7))
: kept; no method; rank -7 at 4 to 13

Ord(rank = 0)
: kept; no method; rank 0 at 4 to 12

Ord(rank = -0)
: kept; no method; rank 0 at 4 to 13

Ord(rank = 0x_Fu8)
: kept; no method; rank 15 at 4 to 17

Ord(rank = 1_000i64)
: kept; no method; rank 1000 at 4 to 19

Ord(rank = "-1")
: kept; no method; rank -1 at 4 to 15

Ord(rank = "+5")
Ord(rank = r"5")
: kept; no method; rank 5 at 4 to 15

Ord(rank("007"))
: kept; no method; rank 7 at 4 to 15

Ord(rank = 9223372036854775807)
: kept; no method; rank 9223372036854775807 at 4 to 30

Ord(rank = -9223372036854775808)
: kept; no method; rank -9223372036854775808 at 4 to 31

Ord(rank = "9223372036854775807")
: kept; no method; rank 9223372036854775807 at 4 to 32

Ord(rank = "-9223372036854775808")
: kept; no method; rank -9223372036854775808 at 4 to 33

Ord(ignore, rank = 3, method = f)
: ignored; method f; rank 3 at 12 to 20

Ord(reverse)
Ord(reverse = true)
Ord(reverse(true))
: kept; no method; rank 7; reversed

Ord(reverse = false)
Ord(reverse(false))
: kept; no method; rank 7

Ord(reverse, method = f, rank = 3)
: kept; method f; rank 3 at 25 to 33; reversed

Ord(ignore, reverse)
: ignored; no method; rank 7; reversed

Ord
Ord()
Ord(bound = false)
Ord(name = x)
Ord(r#rank = 1)
Ord(r#ignore)
Ord(r#reverse)
Ord(reversed)
Ord(a::rank = 1)
Ord(::rank = 1)
: 1:1: you are using an incorrect format of the `Ord` attribute, which should be reformatted as follows:
    #[educe(Ord = false)]
    #[educe(Ord(ignore))]
    #[educe(Ord(method(path_to_method)))]
    #[educe(Ord(rank = integer))]
    #[educe(Ord(reverse))]

Ord = 1
: 1:7: expected `Ord = false`

Ord(ignore = 1)
: 1:14: expected `ignore = false`

Ord(reverse = 3)
Ord(reverse = x)
: 1:15: expected `reverse = false`

Ord(reverse(3))
: 1:13: expected `reverse = false`

Ord(method)
: 1:5: expected `method = Path` or `method(Path)`

Ord(method = 1)
: 1:14: expected `method = Path`

Ord(rank)
: 1:5: expected `rank = integer` or `rank(integer)`

Ord(rank = 9223372036854775808)
Ord(rank = -9223372036854775809)
Ord(rank = a)
Ord(rank = true)
Ord(rank = '1')
Ord(rank = (1))
Ord(rank = !1)
Ord(rank = - -1)
Ord(rank = 1 + 1)
Ord(rank = "9223372036854775808")
Ord(rank = "-9223372036854775809")
Ord(rank = "")
Ord(rank = " 1")
Ord(rank = "1 ")
Ord(rank = "- 1")
Ord(rank = "+-1")
Ord(rank = "-")
Ord(rank = "+")
Ord(rank = "0x1")
Ord(rank = "1_0")
Ord(rank = "1u8")
Ord(rank = "１")
Ord(rank = "1.5")
Ord(rank = "(")
Ord(rank = -"1")
: 1:12: expected `rank = integer`

Ord(rank(+ 1))
Ord(rank(1 2))
Ord(rank((1)))
: 1:10: expected `rank = integer`

Ord(rank())
Ord(rank{})
: 1:9: expected `rank = integer`

Ord(rank = 1, rank = 2)
: 1:15: you are trying to reset the `rank` parameter

Ord(rank = 1, ignore, rank(2))
: 1:23: you are trying to reset the `rank` parameter

Ord(ignore, method = f, ignore)
: 1:25: you are trying to reset the `ignore` parameter

Ord(reverse, reverse)
Ord(reverse, reverse = false)
: 1:14: you are trying to reset the `reverse` parameter

Ord(rank = 1 ignore)
: 1:14: syntax error

Ord(a = !!!!!!!!!!!!!!!!!!!!!!!!!!!!!!!!!!!!!!!!!!!!!!!!!!!!!!!!!!!!!!!!!!!!!!!!!!!!!!!!!!!!!!!!!!!!!!!!!!!!!!!!!!!!!!!!!!!!!!!!!!!!!!!!!x)
: 1:137: nested too deeply

Ord(method = "f::<1.5>")
: 1:14: `1.5` is not supported
"#;

#[test]
fn ord_at_a_field(rt: HostRuntime) -> Result<(), Fail> {
    check_metas(rt.alloc(), ord_field(true, true, true, true), ORD)
}

static PARTIAL_ORD: &str = r#"
PartialOrd = false
: ignored; no method; rank -3

PartialOrd(method = f)
: kept; method f; rank -3

PartialOrd(rank = 1, ignore = true)
: ignored; no method; rank 1 at 11 to 19

PartialOrd(reverse)
: kept; no method; rank -3; reversed

PartialOrd(reverse = false, method = f)
: kept; method f; rank -3

PartialOrd
PartialOrd()
PartialOrd(new)
: 1:1: you are using an incorrect format of the `PartialOrd` attribute, which should be reformatted as follows:
    #[educe(PartialOrd = false)]
    #[educe(PartialOrd(ignore))]
    #[educe(PartialOrd(method(path_to_method)))]
    #[educe(PartialOrd(rank = integer))]
    #[educe(PartialOrd(reverse))]

PartialOrd = 1
: 1:14: expected `PartialOrd = false`

PartialOrd(ignore(x))
: 1:19: expected `ignore = false`

PartialOrd(reverse(x))
: 1:20: expected `reverse = false`

PartialOrd(rank)
: 1:12: expected `rank = integer` or `rank(integer)`

PartialOrd(rank = x)
: 1:19: expected `rank = integer`

PartialOrd(method)
: 1:12: expected `method = Path` or `method(Path)`

PartialOrd(method = 1)
: 1:21: expected `method = Path`

PartialOrd(method = f, method = g)
: 1:24: you are trying to reset the `method` parameter

PartialOrd(reverse = false, ignore, reverse)
: 1:37: you are trying to reset the `reverse` parameter

PartialOrd(1)
: 1:12: syntax error

PartialOrd(a = !!!!!!!!!!!!!!!!!!!!!!!!!!!!!!!!!!!!!!!!!!!!!!!!!!!!!!!!!!!!!!!!!!!!!!!!!!!!!!!!!!!!!!!!!!!!!!!!!!!!!!!!!!!!!!!!!!!!!!!!!!!!!!!!!x)
: 1:144: nested too deeply

PartialOrd(method = "f::<1.5>")
: 1:21: `1.5` is not supported
"#;

#[test]
fn partial_ord_at_a_field(rt: HostRuntime) -> Result<(), Fail> {
    check_metas(
        rt.alloc(),
        partial_ord_field(true, true, true, true),
        PARTIAL_ORD,
    )
}

static ORD_OR_PARTIAL_ORD: &str = r#"
∅
#[educe(PartialOrd(method = f))]
#[educe(PartialOrd(rank = 1), Ord = true)]
: kept; no method; rank 7

#[educe(Ord(rank = 1))]
#[educe(Ord(rank = 1), PartialOrd)]
#[educe(Ord(rank = 1), PartialOrd(ignore), PartialOrd(ignore))]
: kept; no method; rank 1 at 12 to 20

#[educe(PartialOrd = false)]
#[educe(PartialOrd(ignore))]
: ignored; no method; rank 7

#[educe(PartialOrd(rank = 1))]
: kept; no method; rank 1 at 19 to 27

#[educe(PartialOrd(method = f, rank = -2, ignore))]
: ignored; no method; rank -2 at 31 to 40

#[educe(PartialOrd(ignore), Ord(rank = 1))]
: kept; no method; rank 1 at 32 to 40

#[educe(Ord(reverse))]
#[educe(PartialOrd(reverse))]
#[educe(PartialOrd(reverse, method = f))]
#[educe(PartialOrd(reverse = false), Ord(reverse))]
: kept; no method; rank 7; reversed

#[educe(PartialOrd(reverse), Ord(reverse = false))]
#[educe(PartialOrd(reverse), Ord = true)]
: kept; no method; rank 7

#[educe(Ord(method = f))] #[educe(PartialOrd(rank = 1))]
: kept; method f; rank 7

#[educe(PartialOrd(foo), Ord(rank = 1))]
: kept; no method; rank 1 at 29 to 37

#[educe(PartialOrd(ignore))] #[educe(Ord(rank = 1))] #[educe(PartialOrd(1 1))]
: kept; no method; rank 1 at 41 to 49

#[educe(PartialOrd)]
#[educe(PartialOrd(foo))]
: 1:9: you are using an incorrect format of the `PartialOrd` attribute, which should be reformatted as follows:
    #[educe(PartialOrd = false)]
    #[educe(PartialOrd(ignore))]
    #[educe(PartialOrd(method(path_to_method)))]
    #[educe(PartialOrd(rank = integer))]
    #[educe(PartialOrd(reverse))]

#[educe(PartialOrd(ignore), Ord)]
: 1:29: you are using an incorrect format of the `Ord` attribute, which should be reformatted as follows:
    #[educe(Ord = false)]
    #[educe(Ord(ignore))]
    #[educe(Ord(method(path_to_method)))]
    #[educe(Ord(rank = integer))]
    #[educe(Ord(reverse))]

#[educe(PartialOrd(rank = x))]
: 1:27: expected `rank = integer`

#[educe(PartialOrd(rank))]
: 1:20: expected `rank = integer` or `rank(integer)`

#[educe(PartialOrd(rank = 1, rank = 1))]
: 1:30: you are trying to reset the `rank` parameter

#[educe(PartialOrd(rank = 1), PartialOrd(rank = 2))]
: 1:31: the trait `PartialOrd` is used repeatedly

#[educe(PartialOrd(ignore))] #[educe[PartialOrd(ignore)]]
: 1:38: the trait `PartialOrd` is used repeatedly

#[educe(Ord(rank = 1), PartialOrd(ignore), Ord(rank = 1))]
: 1:44: the trait `Ord` is used repeatedly

#[educe(PartialOrd(method = 1))]
: 1:29: expected `method = Path`

#[educe(PartialOrd(ignore), Ord(rank = x))]
: 1:40: expected `rank = integer`
"#;

#[test]
fn ord_takes_from_partial_ord(rt: HostRuntime) -> Result<(), Fail> {
    check_fields(
        rt.alloc(),
        ord_field(true, true, true, true),
        &[Trait::PartialOrd, Trait::Ord],
        ORD_OR_PARTIAL_ORD,
    )
}

static PARTIAL_ORD_OR_ORD: &str = r#"
∅
: kept; no method; rank -3

#[educe(PartialOrd(method = f))]
: kept; method f; rank -3

#[educe(Ord(method = f))]
: kept; method f of `Ord`; rank -3

#[educe(Ord(reverse))]
: kept; no method; rank -3; reversed

#[educe(Ord(reverse, method = f, rank = 2))]
: kept; method f of `Ord`; rank 2 at 33 to 41; reversed

#[educe(Ord(reverse), PartialOrd(reverse = false))]
#[educe(Ord(reverse), PartialOrd = true)]
: kept; no method; rank -3

#[educe(Ord(ignore))]
#[educe(Ord = false)]
#[educe(PartialOrd(ignore), Ord(rank = 1, method = f))]
#[educe(Ord(foo), PartialOrd(ignore))]
#[educe(Ord(ignore), Ord(ignore), PartialOrd(ignore))]
: ignored; no method; rank -3

#[educe(Ord(rank = 5, method = "a::f"))]
: kept; method a :: f of `Ord`; rank 5 at 12 to 20

#[educe(Ord(method = f), PartialOrd(method = g))]
: kept; method g; rank -3

#[educe(PartialOrd(foo), Ord(rank = 1))]
: 1:9: you are using an incorrect format of the `PartialOrd` attribute, which should be reformatted as follows:
    #[educe(PartialOrd = false)]
    #[educe(PartialOrd(ignore))]
    #[educe(PartialOrd(method(path_to_method)))]
    #[educe(PartialOrd(rank = integer))]
    #[educe(PartialOrd(reverse))]

#[educe(Ord(foo))]
#[educe(Ord)]
: 1:9: you are using an incorrect format of the `Ord` attribute, which should be reformatted as follows:
    #[educe(Ord = false)]
    #[educe(Ord(ignore))]
    #[educe(Ord(method(path_to_method)))]
    #[educe(Ord(rank = integer))]
    #[educe(Ord(reverse))]

#[educe(Ord(method = 1))]
: 1:22: expected `method = Path`

#[educe(Ord(ignore), Ord(rank = 2))]
: 1:22: the trait `Ord` is used repeatedly

#[educe(PartialOrd(ignore), PartialOrd(ignore))]
: 1:29: the trait `PartialOrd` is used repeatedly
"#;

#[test]
fn partial_ord_takes_from_ord(rt: HostRuntime) -> Result<(), Fail> {
    check_fields(
        rt.alloc(),
        partial_ord_field(true, true, true, true),
        &[Trait::Ord, Trait::Debug, Trait::PartialOrd],
        PARTIAL_ORD_OR_ORD,
    )
}

static ORD_ALONE: &str = r#"
#[educe(Ord(rank = 1))]
: kept; no method; rank 1 at 12 to 20

#[educe(PartialOrd(rank = 1))]
#[educe(PartialOrd(foo))]
: 1:9: the trait `PartialOrd` is not used
"#;

#[test]
fn ord_takes_nothing_where_it_is_alone(rt: HostRuntime) -> Result<(), Fail> {
    check_fields(
        rt.alloc(),
        ord_field(true, true, true, true),
        &[Trait::Ord],
        ORD_ALONE,
    )
}

static PARTIAL_ORD_ALONE: &str = r#"
#[educe(PartialOrd(ignore))]
: ignored; no method; rank -3

#[educe(PartialOrd(ignore), Ord(ignore))]
: 1:29: the trait `Ord` is not used
"#;

#[test]
fn partial_ord_takes_nothing_where_it_is_alone(rt: HostRuntime) -> Result<(), Fail> {
    check_fields(
        rt.alloc(),
        partial_ord_field(true, true, true, true),
        &[Trait::PartialOrd],
        PARTIAL_ORD_ALONE,
    )
}

/// A place whose type lists the other order alone.
static ORD_WITHOUT_ORD: &str = r#"
∅
#[educe(PartialOrd(rank = 1))]
: kept; no method; rank 7

#[educe(Ord(rank = 1))]
: 1:9: the trait `Ord` is not used
"#;

#[test]
fn ord_takes_nothing_where_it_is_not_listed(rt: HostRuntime) -> Result<(), Fail> {
    check_fields(
        rt.alloc(),
        ord_field(true, true, true, true),
        &[Trait::PartialOrd],
        ORD_WITHOUT_ORD,
    )
}

static ORD_WITHOUT_SWITCHES: &str = r#"
∅
: kept; no method; rank 7

#[educe(PartialOrd(rank = 1))]
: 1:9: the `PartialOrd` attribute cannot be placed here

#[educe(Ord(rank = 1))]
: 1:9: the `Ord` attribute cannot be placed here
"#;

#[test]
fn ord_without_switches_takes_nothing(rt: HostRuntime) -> Result<(), Fail> {
    check_fields(
        rt.alloc(),
        ord_field(false, false, false, false),
        &[Trait::PartialOrd, Trait::Ord],
        ORD_WITHOUT_SWITCHES,
    )
}

static PARTIAL_ORD_WITHOUT_METHOD: &str = r#"
#[educe(Ord(rank = 1))]
: kept; no method; rank 1 at 12 to 20

#[educe(Ord(method = f))]
: 1:9: you are using an incorrect format of the `Ord` attribute, which should be reformatted as follows:
    #[educe(Ord = false)]
    #[educe(Ord(ignore))]
    #[educe(Ord(rank = integer))]
    #[educe(Ord(reverse))]

#[educe(PartialOrd(method = f))]
: 1:9: you are using an incorrect format of the `PartialOrd` attribute, which should be reformatted as follows:
    #[educe(PartialOrd = false)]
    #[educe(PartialOrd(ignore))]
    #[educe(PartialOrd(rank = integer))]
    #[educe(PartialOrd(reverse))]
"#;

#[test]
fn partial_ord_without_a_method_takes_none(rt: HostRuntime) -> Result<(), Fail> {
    check_fields(
        rt.alloc(),
        partial_ord_field(true, false, true, true),
        &[Trait::PartialOrd, Trait::Ord],
        PARTIAL_ORD_WITHOUT_METHOD,
    )
}
