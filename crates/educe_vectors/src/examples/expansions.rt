//! Worked examples of definitions that are expanded.

use crate::tables::check_table;
use std::test::Fail;

static UNREAD: &str = r#"
comments are left out
#[educe(PartialEq)] struct S { /* other */ a: u8 } // a
: writes # [ automatically_derived ] impl :: core :: cmp :: PartialEq for S { fn eq ( & self , other : & Self ) -> :: core :: primitive :: bool { if :: core :: cmp :: PartialEq :: ne ( & self . a , & other . a ) { return false ; } true } }

a raw name stays as it is written
#[educe(PartialEq)] struct r#S { r#fn: é }
: writes # [ automatically_derived ] impl :: core :: cmp :: PartialEq for r#S { fn eq ( & self , other : & Self ) -> :: core :: primitive :: bool { if :: core :: cmp :: PartialEq :: ne ( & self . r#fn , & other . r#fn ) { return false ; } true } }

another derive
#[derive(Debug)] #[educe(PartialEq)] struct S { a: u8 }
: writes # [ automatically_derived ] impl :: core :: cmp :: PartialEq for S { fn eq ( & self , other : & Self ) -> :: core :: primitive :: bool { if :: core :: cmp :: PartialEq :: ne ( & self . a , & other . a ) { return false ; } true } }

documentation
/// one more
#[educe(PartialEq)] struct S { a: u8 }
: writes # [ automatically_derived ] impl :: core :: cmp :: PartialEq for S { fn eq ( & self , other : & Self ) -> :: core :: primitive :: bool { if :: core :: cmp :: PartialEq :: ne ( & self . a , & other . a ) { return false ; } true } }

attributes of a field
#[educe(PartialEq)] struct S { #[serde(rename = "b")] #[doc(hidden)] #[inline] a: u8 }
: writes # [ automatically_derived ] impl :: core :: cmp :: PartialEq for S { fn eq ( & self , other : & Self ) -> :: core :: primitive :: bool { if :: core :: cmp :: PartialEq :: ne ( & self . a , & other . a ) { return false ; } true } }

square brackets of a list
#[educe[PartialEq]] struct S { a: u8 }
: writes # [ automatically_derived ] impl :: core :: cmp :: PartialEq for S { fn eq ( & self , other : & Self ) -> :: core :: primitive :: bool { if :: core :: cmp :: PartialEq :: ne ( & self . a , & other . a ) { return false ; } true } }

visibility, and a type
#[educe(PartialEq)] pub(crate) struct S { pub a: [<u8 as X<{ 1 + 1 }>>::Y; 3] }
: writes # [ automatically_derived ] impl :: core :: cmp :: PartialEq for S { fn eq ( & self , other : & Self ) -> :: core :: primitive :: bool { if :: core :: cmp :: PartialEq :: ne ( & self . a , & other . a ) { return false ; } true } }
"#;

#[test]
fn what_is_left_unread_changes_nothing(rt: HostRuntime) -> Result<(), Fail> {
    check_table(rt.alloc(), UNREAD)
}

static NESTED: &str = r#"
127 references in `PartialEq`
#[educe(PartialEq)] struct S(&&&&&&&&&&&&&&&&&&&&&&&&&&&&&&&&&&&&&&&&&&&&&&&&&&&&&&&&&&&&&&&&&&&&&&&&&&&&&&&&&&&&&&&&&&&&&&&&&&&&&&&&&&&&&&&&&&&&&&&&&&&&&&&u8);
: expands

128 references in `PartialEq`
#[educe(PartialEq)] struct S(&&&&&&&&&&&&&&&&&&&&&&&&&&&&&&&&&&&&&&&&&&&&&&&&&&&&&&&&&&&&&&&&&&&&&&&&&&&&&&&&&&&&&&&&&&&&&&&&&&&&&&&&&&&&&&&&&&&&&&&&&&&&&&&&u8);
: rejected 1:157: nested too deeply

127 references in `Clone`
#[educe(Clone)] struct S { a: &&&&&&&&&&&&&&&&&&&&&&&&&&&&&&&&&&&&&&&&&&&&&&&&&&&&&&&&&&&&&&&&&&&&&&&&&&&&&&&&&&&&&&&&&&&&&&&&&&&&&&&&&&&&&&&&&&&&&&&&&&&&&&&u8 }
: expands

127 references in `Debug`
#[educe(Debug)] struct S { a: &&&&&&&&&&&&&&&&&&&&&&&&&&&&&&&&&&&&&&&&&&&&&&&&&&&&&&&&&&&&&&&&&&&&&&&&&&&&&&&&&&&&&&&&&&&&&&&&&&&&&&&&&&&&&&&&&&&&&&&&&&&&&&&u8 }
: expands
"#;

#[test]
fn types_nest_so_far(rt: HostRuntime) -> Result<(), Fail> {
    check_table(rt.alloc(), NESTED)
}
