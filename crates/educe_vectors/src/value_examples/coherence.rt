//! Worked examples of what the derived comparisons and `Hash` are together, and of what they are where their
//! settings, the values or the table are not as coherence asks (documentation of `std`, `Eq`, `PartialOrd`, `Ord`
//! and `Hash`).

use crate::tables::check_table;
use std::test::Fail;

static TOGETHER: &str = r#"
equal values are Equal, and feed the same parts
#[educe(PartialEq, PartialOrd, Ord, Hash)] struct S { #[educe(Hash(ignore))] a: u8, b: u8 }
: eq 0(1, 2) 0(1, 2) = true
: cmp 0(1, 2) 0(1, 2) = Equal
: partial_cmp 0(1, 2) 0(1, 2) = Some(Equal)
: hash 0(1, 2) = [2]

values that are not equal may feed the same parts
#[educe(PartialEq, PartialOrd, Ord, Hash)] struct S { #[educe(Hash(ignore))] a: u8, b: u8 }
: eq 0(1, 2) 0(3, 2) = false
: cmp 0(1, 2) 0(3, 2) = Less
: partial_cmp 0(1, 2) 0(3, 2) = Some(Less)
: hash 0(1, 2) = [2]
: hash 0(3, 2) = [2]

variants in the order of their discriminants
#[educe(PartialEq, PartialOrd, Ord, Hash)] enum E { B(u8) = 2, A = 1 }
: eq 0(5) 1() = false
: cmp 0(5) 1() = Greater
: cmp 1() 0(5) = Less
: partial_cmp 1() 0(5) = Some(Less)
: eq 0(5) 0(5) = true
: cmp 0(5) 0(5) = Equal
: hash 0(5) = [0, 5]

a partial order alone is Some(Equal) where both are equal, and is reversed
#[educe(PartialEq, PartialOrd)] struct S { #[educe(PartialOrd(method(p)))] a: u8, b: u8 }
: method p(1, 1) -> Some(Equal)
: method p(1, 2) -> None
: method p(2, 1) -> None
: eq 0(1, 5) 0(1, 5) = true
: partial_cmp 0(1, 5) 0(1, 5) = Some(Equal)
: partial_cmp 0(1, 5) 0(1, 6) = Some(Less)
: partial_cmp 0(1, 6) 0(1, 5) = Some(Greater)
: eq 0(1, 5) 0(2, 5) = false
: partial_cmp 0(1, 5) 0(2, 5) = None
: partial_cmp 0(2, 5) 0(1, 5) = None
"#;

#[test]
fn functions_fit_together(rt: HostRuntime) -> Result<(), Fail> {
    check_table(rt.alloc(), TOGETHER)
}

static UNMATCHED: &str = r#"
a field that equality compares and the order ignores
#[educe(PartialEq, Ord)] struct S { #[educe(Ord(ignore))] a: u8 }
: eq 0(1) 0(2) = false
: cmp 0(1) 0(2) = Equal

a field that equality compares and the partial order ignores
#[educe(PartialEq, PartialOrd)] struct S { #[educe(PartialOrd(ignore))] a: u8 }
: eq 0(1) 0(2) = false
: partial_cmp 0(1) 0(2) = Some(Equal)

a field that equality ignores and `hash` feeds
#[educe(PartialEq, Hash)] struct S { #[educe(PartialEq(ignore))] a: u8 }
: eq 0(1) 0(2) = true
: hash 0(1) = [1]
: hash 0(2) = [2]

fields that both orders rank differently
#[educe(PartialOrd, Ord)] struct S { #[educe(PartialOrd(rank = 2), Ord(rank = 1))] a: u8, #[educe(PartialOrd(rank = 1), Ord(rank = 2))] b: u8 }
: cmp 0(1, 2) 0(2, 1) = Less
: partial_cmp 0(1, 2) 0(2, 1) = Some(Greater)

a field that one order reverses
#[educe(PartialOrd, Ord)] struct S { #[educe(PartialOrd(rank = 1), Ord(rank = 1, reverse))] a: u8 }
: cmp 0(1) 0(2) = Greater
: partial_cmp 0(1) 0(2) = Some(Less)
"#;

#[test]
fn settings_that_differ_break_it(rt: HostRuntime) -> Result<(), Fail> {
    check_table(rt.alloc(), UNMATCHED)
}

static UNCOVERED: &str = r#"
variants of one discriminant
#[educe(PartialEq, Ord)] enum E { A = 1, B = 1 }
: eq 0() 1() = false
: cmp 0() 1() = Equal

a value without the field
#[educe(PartialEq)] struct S { a: u8 }
: eq 0() 0() = stuck
"#;

#[test]
fn values_that_are_not_covered_break_it(rt: HostRuntime) -> Result<(), Fail> {
    check_table(rt.alloc(), UNCOVERED)
}

static UNLAWFUL: &str = r#"
a method of equality that is not reflexive
#[educe(PartialEq)] struct S { #[educe(PartialEq(method(m)))] a: u8 }
: method m(1, 1) -> false
: eq 0(1) 0(1) = false

a method of an order that is not reversed
#[educe(Ord)] struct S { #[educe(Ord(method(c)))] a: u8 }
: method c(1, 2) -> Less
: method c(2, 1) -> Less
: cmp 0(1) 0(2) = Less
: cmp 0(2) 0(1) = Less

a method of an order that is Equal where equality is false
#[educe(PartialEq, Ord)] struct S { #[educe(Ord(method(c)))] a: u8 }
: method c(1, 2) -> Equal
: eq 0(1) 0(2) = false
: cmp 0(1) 0(2) = Equal

a method of a partial order that is None where the order is Less
#[educe(PartialOrd, Ord)] struct S { #[educe(PartialOrd(method(p)))] a: u8 }
: method p(1, 2) -> None
: cmp 0(1) 0(2) = Less
: partial_cmp 0(1) 0(2) = None

a method of equality that is true of fields that feed different parts
#[educe(PartialEq, Hash)] struct S { #[educe(PartialEq(method(m)))] a: u8 }
: method m(1, 2) -> true
: eq 0(1) 0(2) = true
: hash 0(1) = [1]
: hash 0(2) = [2]
"#;

#[test]
fn a_table_that_is_not_lawful_breaks_it(rt: HostRuntime) -> Result<(), Fail> {
    check_table(rt.alloc(), UNLAWFUL)
}
