//! Worked examples of the line that says where and why a definition is rejected.

use crate::tables::check_table;
use std::test::Fail;

static PLACES: &str = r#"
a type that no field has
#[educe(PartialEq)] struct S<T> { a: impl X }
: rejected 1:38: syntax error

a word behind the definition
#[educe(PartialEq)] struct S { a: u8 } struct
: rejected 1:40: syntax error

a lifetime in place of a type
#[educe(PartialEq)] struct S { a: 'other }
: rejected 1:35: syntax error

a bracket that is not closed
#[educe(PartialEq)] struct S { a: u8
: rejected 1:37: syntax error

a bracket that closes another
struct S { a: u8 )
: rejected 1:18: syntax error

a keyword in place of a name
struct fn { a: u8 }
: rejected 1:8: syntax error

a union without attributes
union U { a: u8 }
: rejected 1:1: `union` is not supported

a union with a type that no field has
union U { a: impl X }
: rejected 1:1: `union` is not supported

a float as a rank
#[educe(Ord)] struct S { #[educe(Ord(rank = 1.5))] a: u8 }
: rejected 1:45: `1.5` is not supported

a name and its raw name
#[educe(PartialEq)] struct S { a: u8, r#a: u8 }
: rejected 1:39: the name `r#a` is defined more than once

a raw name and its name
#[educe(PartialEq)] struct S { r#a: u8, a: u8 }
: rejected 1:41: the name `a` is defined more than once
"#;

#[test]
fn refusals_have_their_place(rt: HostRuntime) -> Result<(), Fail> {
    check_table(rt.alloc(), PLACES)
}
