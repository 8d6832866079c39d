//! Worked examples of ranks: those of fields that take part differ.

use crate::tables::check_table;
use std::test::Fail;

static AGAIN: &str = r#"
one number in two spellings
#[educe(Ord)] struct S { #[educe(Ord(rank = 0x1_u8))] a: u8, #[educe(Ord(rank = 0b1))] b: u8 }
: rejected 1:74: the rank `1` is repeatedly used

the rank of the second field where none is set
#[educe(Ord)] struct S { #[educe(Ord(rank = -9223372036854775807))] a: u8, b: u8 }
: rejected 1:76: the rank `-9223372036854775807` is repeatedly used

a rank of `Ord` that `PartialOrd` takes too
#[educe(PartialOrd, Ord)] struct S { #[educe(Ord(rank = 1))] a: u8, #[educe(Ord(rank = 2), PartialOrd(rank = 1))] b: u8 }
: rejected 1:103: the rank `1` is repeatedly used

a rank of `PartialOrd` that `Ord` takes too
#[educe(PartialOrd, Ord)] struct S { #[educe(PartialOrd(rank = 1))] a: u8, #[educe(PartialOrd(rank = 2), Ord(rank = 1))] b: u8 }
: rejected 1:110: the rank `1` is repeatedly used
"#;

#[test]
fn a_rank_is_used_once(rt: HostRuntime) -> Result<(), Fail> {
    check_table(rt.alloc(), AGAIN)
}

static BITS: &str = r#"
the first number above
#[educe(Ord)] struct S { #[educe(Ord(rank = 9223372036854775808))] a: u8, b: u8 }
: rejected 1:45: expected `rank = integer`

the first number below
#[educe(Ord)] struct S { #[educe(Ord(rank = -9223372036854775809))] a: u8, b: u8 }
: rejected 1:45: expected `rank = integer`

the least number
#[educe(Ord)] struct S { #[educe(Ord(rank = -9223372036854775808))] a: u8, b: u8 }
: expands

the largest number
#[educe(Ord)] struct S { #[educe(Ord(rank = 9223372036854775807))] a: u8, b: u8 }
: expands
"#;

#[test]
fn ranks_have_64_bits(rt: HostRuntime) -> Result<(), Fail> {
    check_table(rt.alloc(), BITS)
}
