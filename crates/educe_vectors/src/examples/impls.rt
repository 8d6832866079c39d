//! Worked examples of impls: the attributes that they take from the type, and what is left unread
//! (Rust Reference, Lint check attributes; documentation of `educe`, Traits).

use crate::tables::check_table;
use std::test::Fail;

static IMPLS: &str = r#"
a lint attribute is copied
#[allow(dead_code)] #[educe(PartialEq)] struct S;
: writes # [ automatically_derived ] # [ allow ( dead_code ) ] impl :: core :: cmp :: PartialEq for S { fn eq ( & self , other : & Self ) -> :: core :: primitive :: bool { true } }

an expected lint is allowed
#[educe(PartialEq)] #[expect(unused, reason = "x")] struct S;
: writes # [ automatically_derived ] # [ allow ( unused , reason = "x" ) ] impl :: core :: cmp :: PartialEq for S { fn eq ( & self , other : & Self ) -> :: core :: primitive :: bool { true } }

lint attributes keep their order
#[deny(a)] #[warn = 1] #[educe(PartialEq)] #[expect(b)] #[allow[c::d,]] struct S;
: writes # [ automatically_derived ] # [ deny ( a ) ] # [ warn = 1 ] # [ allow ( b ) ] # [ allow [ c :: d , ] ] impl :: core :: cmp :: PartialEq for S { fn eq ( & self , other : & Self ) -> :: core :: primitive :: bool { true } }

each impl has them
#[educe(Ord, PartialEq)] #[allow(a)] struct S;
: writes # [ automatically_derived ] # [ allow ( a ) ] impl :: core :: cmp :: PartialEq for S { fn eq ( & self , other : & Self ) -> :: core :: primitive :: bool { true } }
# [ automatically_derived ] # [ allow ( a ) ] impl :: core :: cmp :: Ord for S { fn cmp ( & self , other : & Self ) -> :: core :: cmp :: Ordering { :: core :: cmp :: Ordering :: Equal } }

an attribute of a field that is no list
#[educe(PartialEq)] struct S { #[educe] a: u8 }
: writes # [ automatically_derived ] impl :: core :: cmp :: PartialEq for S { fn eq ( & self , other : & Self ) -> :: core :: primitive :: bool { if :: core :: cmp :: PartialEq :: ne ( & self . a , & other . a ) { return false ; } true } }

an attribute of a field with a value
#[educe(PartialEq)] struct S { #[educe = method] a: u8 }
: writes # [ automatically_derived ] impl :: core :: cmp :: PartialEq for S { fn eq ( & self , other : & Self ) -> :: core :: primitive :: bool { if :: core :: cmp :: PartialEq :: ne ( & self . a , & other . a ) { return false ; } true } }

an empty list at a field
#[educe(PartialEq)] struct S { #[educe()] #[educe[]] a: u8 }
: writes # [ automatically_derived ] impl :: core :: cmp :: PartialEq for S { fn eq ( & self , other : & Self ) -> :: core :: primitive :: bool { if :: core :: cmp :: PartialEq :: ne ( & self . a , & other . a ) { return false ; } true } }

a lint attribute of a field is left unread
#[educe(PartialEq)] struct S { #[allow(unused)] a: u8 }
: writes # [ automatically_derived ] impl :: core :: cmp :: PartialEq for S { fn eq ( & self , other : & Self ) -> :: core :: primitive :: bool { if :: core :: cmp :: PartialEq :: ne ( & self . a , & other . a ) { return false ; } true } }

a representation is left unread
#[educe(PartialEq)] #[repr(C, align(8))] #[must_use = "x"] #[forbid(b)] struct S { a: u8 }
: writes # [ automatically_derived ] impl :: core :: cmp :: PartialEq for S { fn eq ( & self , other : & Self ) -> :: core :: primitive :: bool { if :: core :: cmp :: PartialEq :: ne ( & self . a , & other . a ) { return false ; } true } }

words of no `educe` list are left unread
#[educe(PartialEq)] #[a::bound(method)] struct S { #[serde(bound = method)] a: u8 }
: writes # [ automatically_derived ] impl :: core :: cmp :: PartialEq for S { fn eq ( & self , other : & Self ) -> :: core :: primitive :: bool { if :: core :: cmp :: PartialEq :: ne ( & self . a , & other . a ) { return false ; } true } }

a field whose name is a parameter
#[educe(Ord)] struct S { bound: u8, method: u8 }
: expands
"#;

#[test]
fn impls_are_answered(rt: HostRuntime) -> Result<(), Fail> {
    check_table(rt.alloc(), IMPLS)
}
