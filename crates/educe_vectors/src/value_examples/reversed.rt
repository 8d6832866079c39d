//! Worked examples of what the orders evaluate to where they turn their answer on a field round.

use crate::tables::check_table;
use std::test::Fail;

static STRUCTS: &str = r#"
the first field downwards, the second upwards
#[educe(Ord)] struct S { #[educe(Ord(reverse))] a: u8, b: u8 }
: cmp 0(1, 5) 0(2, 5) = Greater
: cmp 0(2, 5) 0(1, 5) = Less
: cmp 0(1, 1) 0(1, 2) = Less
: cmp 0(1, 2) 0(1, 1) = Greater
: cmp 0(1, 2) 0(1, 2) = Equal

the second field downwards, the first upwards
#[educe(Ord)] struct S(u8, #[educe(Ord(reverse = true))] u8);
: cmp 0(1, 5) 0(2, 5) = Less
: cmp 0(1, 1) 0(1, 2) = Greater

ranks and `reverse`
#[educe(Ord)] struct S { #[educe(Ord(rank = 2))] a: u8, #[educe(Ord(rank = 1, reverse))] b: u8 }
: cmp 0(1, 1) 0(2, 2) = Greater
: cmp 0(1, 1) 0(2, 1) = Less

`reverse = false` reverses nothing
#[educe(Ord)] struct S { #[educe(Ord(reverse = false))] a: u8 }
: cmp 0(1) 0(2) = Less

a reversed field that is ignored says nothing
#[educe(Ord)] struct S { #[educe(Ord(reverse, ignore))] a: u8, b: u8 }
: cmp 0(1, 5) 0(2, 5) = Equal
: cmp 0(1, 5) 0(2, 6) = Less

a copy of a reversed field
#[educe(Ord)] #[repr(packed)] struct S { #[educe(Ord(reverse))] a: u32 }
: cmp 0(1) 0(2) = Greater
: cmp 0(2) 0(2) = Equal

equality and hash do not see it
#[educe(PartialEq, PartialOrd, Hash)] struct S { #[educe(PartialOrd(reverse))] a: u8 }
: eq 0(1) 0(2) = false
: eq 0(2) 0(2) = true
: partial_cmp 0(1) 0(2) = Some(Greater)
: partial_cmp 0(2) 0(2) = Some(Equal)
: hash 0(2) = [2]
"#;

#[test]
fn fields_of_a_struct_are_reversed(rt: HostRuntime) -> Result<(), Fail> {
    check_table(rt.alloc(), STRUCTS)
}

static ENUMS: &str = r#"
fields of variants downwards, variants still upwards
#[educe(PartialOrd, Ord)] enum E { A, B(#[educe(Ord(reverse))] u8), C { #[educe(Ord(reverse))] x: u8, y: u8 } }
: cmp 0() 1(0) = Less
: cmp 1(9) 0() = Greater
: cmp 1(1) 2(0, 0) = Less
: cmp 1(1) 1(2) = Greater
: cmp 2(2, 1) 2(1, 1) = Less
: cmp 2(1, 1) 2(1, 2) = Less
: cmp 2(1, 2) 2(1, 2) = Equal
: partial_cmp 0() 1(0) = Some(Less)
: partial_cmp 1(1) 1(2) = Some(Greater)
: partial_cmp 2(1, 1) 2(1, 2) = Some(Less)

discriminants that go down are not reversed
#[educe(Ord)] enum E { Two(#[educe(Ord(reverse))] u8) = 2, One = 1 }
: cmp 1() 0(5) = Less
: cmp 0(5) 1() = Greater
: cmp 0(5) 0(6) = Greater
"#;

#[test]
fn fields_of_variants_are_reversed(rt: HostRuntime) -> Result<(), Fail> {
    check_table(rt.alloc(), ENUMS)
}

static METHODS: &str = r#"
the answer of a method is turned round
#[educe(Ord)] struct S { #[educe(Ord(reverse, method(c)))] a: u8 }
: method c(1, 2) -> Less
: method c(2, 1) -> Greater
: method c(1, 1) -> Equal
: cmp 0(1) 0(2) = Greater
: cmp 0(2) 0(1) = Less
: cmp 0(1) 0(1) = Equal
: cmp 0(2) 0(2) = stuck

the partial order of a method; `None` stays
#[educe(PartialOrd)] struct S { #[educe(PartialOrd(reverse, method(p)))] a: u8, b: u8 }
: method p(1, 2) -> Some(Less)
: method p(2, 1) -> Some(Greater)
: method p(3, 3) -> None
: method p(1, 1) -> Some(Equal)
: partial_cmp 0(1, 5) 0(2, 5) = Some(Greater)
: partial_cmp 0(2, 5) 0(1, 5) = Some(Less)
: partial_cmp 0(3, 5) 0(3, 6) = None
: partial_cmp 0(1, 5) 0(1, 6) = Some(Less)

the method of `Ord` is taken with `reverse`
#[educe(PartialOrd, Ord)] struct S { #[educe(Ord(reverse, method(c)))] a: u8 }
: method c(1, 2) -> Less
: method c(1, 1) -> Equal
: cmp 0(1) 0(2) = Greater
: partial_cmp 0(1) 0(2) = Some(Greater)
: partial_cmp 0(1) 0(1) = Some(Equal)

`reverse` of `PartialOrd` is taken without its method
#[educe(PartialOrd, Ord)] struct S { #[educe(PartialOrd(reverse, method(p)))] a: u8 }
: method p(1, 2) -> Some(Greater)
: cmp 0(1) 0(2) = Greater
: partial_cmp 0(1) 0(2) = Some(Less)
"#;

#[test]
fn answers_of_methods_are_reversed(rt: HostRuntime) -> Result<(), Fail> {
    check_table(rt.alloc(), METHODS)
}

static BOTH_ORDERS: &str = r#"
`PartialOrd` takes `reverse` from `Ord`
#[educe(PartialEq, PartialOrd, Ord)] struct S { #[educe(Ord(reverse))] a: u8 }
: cmp 0(1) 0(2) = Greater
: partial_cmp 0(1) 0(2) = Some(Greater)

`Ord` takes `reverse` from `PartialOrd`
#[educe(PartialOrd, Ord)] struct S { #[educe(PartialOrd(reverse))] a: u8 }
: cmp 0(1) 0(2) = Greater
: partial_cmp 0(1) 0(2) = Some(Greater)

an attribute of its own takes nothing: `reverse = false`
#[educe(PartialOrd, Ord)] struct S { #[educe(PartialOrd(reverse), Ord(reverse = false))] a: u8 }
: cmp 0(1) 0(2) = Less
: partial_cmp 0(1) 0(2) = Some(Greater)

an attribute of its own takes nothing: `= true`
#[educe(PartialOrd, Ord)] struct S { #[educe(PartialOrd = true, Ord(reverse))] a: u8 }
: cmp 0(1) 0(2) = Greater
: partial_cmp 0(1) 0(2) = Some(Less)

where `Ord` has an attribute, nothing of `PartialOrd` is taken
#[educe(PartialOrd, Ord)] struct S { #[educe(PartialOrd(reverse, rank = 2), Ord(rank = 2))] a: u8, #[educe(Ord(rank = 1))] b: u8 }
: cmp 0(1, 5) 0(2, 5) = Less
: partial_cmp 0(1, 5) 0(2, 5) = Some(Greater)
"#;

#[test]
fn one_order_takes_it_from_the_other(rt: HostRuntime) -> Result<(), Fail> {
    check_table(rt.alloc(), BOTH_ORDERS)
}
