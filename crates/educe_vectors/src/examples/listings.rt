//! Worked examples of what a type lists: the traits, and why a listing is rejected (documentation of
//! `educe`, Traits).

use crate::tables::check_table;
use std::test::Fail;

static LISTINGS: &str = r#"
a trait that is not supported
#[educe(Deref)] struct S { a: u8 }
: rejected 1:9: unsupported trait `Deref`, available traits:
    Debug
    Clone
    Copy
    PartialEq
    Eq
    PartialOrd
    Ord
    Hash
    Default

an attribute that is no list
#[educe] struct S { a: u8 }
: rejected 1:3: you are using an incorrect format of the `educe` attribute, which should be reformatted as follows:
    #[educe(Trait1, Trait2, ..., TraitN)]

an attribute with a value
#[educe = "PartialEq"] struct S { a: u8 }
: rejected 1:3: you are using an incorrect format of the `educe` attribute, which should be reformatted as follows:
    #[educe(Trait1, Trait2, ..., TraitN)]

a list that is no list of metas
#[educe(PartialEq Ord)] struct S { a: u8 }
: rejected 1:19: syntax error

a sum in a list
#[educe(1 + 1)] struct S { a: u8 }
: rejected 1:9: syntax error

129 prefixes in a list
#[educe(Default = !!!!!!!!!!!!!!!!!!!!!!!!!!!!!!!!!!!!!!!!!!!!!!!!!!!!!!!!!!!!!!!!!!!!!!!!!!!!!!!!!!!!!!!!!!!!!!!!!!!!!!!!!!!!!!!!!!!!!!!!!!!!!!!!!x)] struct S { a: u8 }
: rejected 1:147: nested too deeply

a trait twice in a list
#[educe(PartialEq, PartialEq)] struct S { a: u8 }
: rejected 1:20: the trait `PartialEq` is used repeatedly

a trait in two lists
#[educe(Ord)] #[educe(PartialEq, Ord)] struct S { a: u8 }
: rejected 1:34: the trait `Ord` is used repeatedly

an enum that lists no trait
enum E { A }
: rejected 1:1: you are using `Educe` in the `derive` attribute, but it has not been set up yet

the second value's name where no trait is listed
struct S { r#other: u8 }
: rejected 1:1: you are using `Educe` in the `derive` attribute, but it has not been set up yet

no list before attributes that are left unread
#[derive(PartialEq)] #[repr(packed)] struct S<T> { #[educe(1)] a: T }
: rejected 1:1: you are using `Educe` in the `derive` attribute, but it has not been set up yet

a list inside of another attribute
#[cfg_attr(all(), educe(Ord))] struct S;
: rejected 1:1: you are using `Educe` in the `derive` attribute, but it has not been set up yet

a list in documentation
/** #[educe(Ord)] */ struct S;
: rejected 1:1: you are using `Educe` in the `derive` attribute, but it has not been set up yet

a trait with an empty list
#[educe(PartialEq())] struct S { a: u8 }
: writes # [ automatically_derived ] impl :: core :: cmp :: PartialEq for S { fn eq ( & self , other : & Self ) -> :: core :: primitive :: bool { if :: core :: cmp :: PartialEq :: ne ( & self . a , & other . a ) { return false ; } true } }

an empty list behind a list
#[educe(PartialEq)] #[educe()] struct S { a: u8 }
: writes # [ automatically_derived ] impl :: core :: cmp :: PartialEq for S { fn eq ( & self , other : & Self ) -> :: core :: primitive :: bool { if :: core :: cmp :: PartialEq :: ne ( & self . a , & other . a ) { return false ; } true } }

three traits in three lists
#[educe[Ord]] #[educe{PartialEq,}] #[educe(PartialOrd)] struct S;
: expands
"#;

#[test]
fn listings_are_answered(rt: HostRuntime) -> Result<(), Fail> {
    check_table(rt.alloc(), LISTINGS)
}
