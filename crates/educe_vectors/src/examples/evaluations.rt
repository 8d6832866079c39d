//! Worked examples of what the functions of items evaluate to, where one order speaks for both, and of `eq`.

use crate::tables::check_table;
use std::test::Fail;

static ORDERS: &str = r#"
the rank of `Ord`, where `PartialOrd` says nothing
#[educe(PartialOrd, Ord)] struct S { #[educe(Ord(rank = 1))] a: u8, b: u8 }
: partial_cmp 0(1, 2) 0(2, 1) = Some(Greater)
: cmp 0(1, 2) 0(2, 1) = Greater

the rank of `PartialOrd`, where `Ord` says nothing
#[educe(Ord, PartialOrd)] struct S { #[educe(PartialOrd(rank = 1))] a: u8, b: u8 }
: partial_cmp 0(1, 2) 0(2, 1) = Some(Greater)
: cmp 0(1, 2) 0(2, 1) = Greater

what `Ord` ignores, where `PartialOrd` says nothing
#[educe(PartialOrd, Ord)] struct S { #[educe(Ord(ignore))] a: u8, b: u8 }
: partial_cmp 0(1, 2) 0(2, 2) = Some(Equal)
: cmp 0(1, 2) 0(2, 2) = Equal

what `PartialOrd` ignores, where `Ord` says nothing
#[educe(PartialOrd, Ord)] struct S { #[educe(PartialOrd = false)] a: u8, b: u8 }
: partial_cmp 0(1, 2) 0(2, 2) = Some(Equal)
: cmp 0(1, 2) 0(2, 2) = Equal

settings of both orders
#[educe(PartialOrd, Ord)] struct S { #[educe(PartialOrd(ignore), Ord(rank = 1))] a: u8, b: u8 }
: partial_cmp 0(1, 2) 0(2, 2) = Some(Equal)
: cmp 0(1, 2) 0(2, 2) = Less

a rank of `PartialOrd`, and a field that `Ord` keeps
#[educe(PartialOrd, Ord)] struct S { #[educe(PartialOrd(rank = 1))] #[educe(Ord = true)] a: u8, b: u8 }
: partial_cmp 0(1, 2) 0(2, 1) = Some(Greater)
: cmp 0(1, 2) 0(2, 1) = Less
"#;

#[test]
fn orders_take_what_the_other_says(rt: HostRuntime) -> Result<(), Fail> {
    check_table(rt.alloc(), ORDERS)
}

static EQUALITY: &str = r#"
`eq` passes over ignored fields
#[educe(PartialEq)] struct S { #[educe(PartialEq(ignore))] a: u8, b: u8 }
: eq 0(1, 2) 0(3, 2) = true

`eq` compares each field
#[educe(PartialEq)] struct S { a: u8, b: u8 }
: eq 0(1, 2) 0(1, 2) = true
: eq 0(1, 2) 0(1, 3) = false
: eq 0(4, 2) 0(1, 2) = false
: eq 0(1) 0(1) = stuck

`eq` asks the table
#[educe(PartialEq)] struct S { a: u8, b: u8 }
: Ne 0, 0 -> true
: eq 0(0, 0) 0(0, 0) = false
: eq 0(1, 0) 0(1, 0) = stuck
"#;

#[test]
fn eq_compares_the_fields(rt: HostRuntime) -> Result<(), Fail> {
    check_table(rt.alloc(), EQUALITY)
}
