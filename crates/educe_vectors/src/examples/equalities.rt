//! Worked examples of `Eq`: its impl, and the check of the types of fields (documentation of `educe`,
//! Eq).

use crate::tables::check_table;
use std::test::Fail;

static CHECKS: &str = r#"
the types of fields are checked before the impl
#[educe(Eq)] struct S { a: u8 }
: writes const _ : ( ) = { fn __educe_eq_fields ( ) { fn __educe_assert_eq < T : ? Sized + :: core :: cmp :: Eq > ( ) { } __educe_assert_eq :: < u8 > ( ) ; } } ;
# [ automatically_derived ] impl :: core :: cmp :: Eq for S { }

without fields there is no check
#[educe(Eq)] struct S;
: writes # [ automatically_derived ] impl :: core :: cmp :: Eq for S { }

the check has the lints and the parameters of the impl
#[allow(a)] #[educe(Eq)] struct S<T>(T);
: writes # [ allow ( a ) ] const _ : ( ) = { fn __educe_eq_fields < T > ( ) where T : :: core :: cmp :: Eq { fn __educe_assert_eq < _T : ? Sized + :: core :: cmp :: Eq > ( ) { } __educe_assert_eq :: < T > ( ) ; } } ;
# [ automatically_derived ] # [ allow ( a ) ] impl < T > :: core :: cmp :: Eq for S < T > where T : :: core :: cmp :: Eq { }

a call for each field, also of one type
#[educe(Eq)] enum E { A(u8, u16), B { a: u8 } }
: holds { } __educe_assert_eq :: < u8 > ( ) ; __educe_assert_eq :: < u16 > ( ) ; __educe_assert_eq :: < u8 > ( ) ; } } ;

a field that `PartialEq` ignores is not checked
#[educe(PartialEq, Eq)] struct S { #[educe(PartialEq(ignore))] a: u8, b: u16 }
: holds { } __educe_assert_eq :: < u16 > ( ) ; } } ;

nor is one that a method compares
#[educe(PartialEq, Eq)] struct S { #[educe(PartialEq(method(m)))] a: u8, b: u16 }
: holds { } __educe_assert_eq :: < u16 > ( ) ; } } ;

where all are, there is no check
#[educe(PartialEq, Eq)] struct S { #[educe(PartialEq(method(m)))] a: u8 }
: ends } }
# [ automatically_derived ] impl :: core :: cmp :: Eq for S { }

it inherits what `PartialEq` asks
#[educe(PartialEq(bound(T: MyTrait)), Eq)] struct S<T> { a: T }
: holds :: core :: cmp :: PartialEq for S < T > where T : MyTrait {
: holds :: core :: cmp :: Eq for S < T > where T : :: core :: cmp :: Eq , T : MyTrait { }

under an empty bound it inherits nothing, and there is no check
#[educe(PartialEq(bound(T: MyTrait)), Eq(bound = ""))] struct S<T> { a: T }
: ends for S < T > where T : MyTrait { fn eq ( & self , other : & Self ) -> :: core :: primitive :: bool { if :: core :: cmp :: PartialEq :: ne ( & self . a , & other . a ) { return false ; } true } }
# [ automatically_derived ] impl < T > :: core :: cmp :: Eq for S < T > { }

without predicates by an empty bound, there is no check
#[educe(PartialEq, Eq(bound = ""))] struct S<T> { a: T }
: ends } }
# [ automatically_derived ] impl < T > :: core :: cmp :: Eq for S < T > { }

`bound(*)` asks of each parameter, and nothing is checked
#[educe(Eq(bound(*)))] struct S<T, U>(T, u8);
: writes # [ automatically_derived ] impl < T , U > :: core :: cmp :: Eq for S < T , U > where T : :: core :: cmp :: Eq , U : :: core :: cmp :: Eq { }

a packed struct takes what `PartialEq` asks of its copies
#[educe(PartialEq, Eq)] #[repr(packed)] struct S<T>(T);
: holds Eq for S < T > where T : :: core :: cmp :: Eq , T : :: core :: cmp :: PartialEq , T : :: core :: marker :: Copy { }

a predicate that is there is not added again
#[educe(PartialEq(bound(T: ::core::cmp::Eq)), Eq)] struct S<T>(T);
: holds :: core :: cmp :: Eq for S < T > where T : :: core :: cmp :: Eq { }

`Ord` inherits of it
#[educe(PartialEq, Eq(bound(T: A)), PartialOrd, Ord)] struct S<T>(T);
: holds :: core :: cmp :: Ord for S < T > where T : :: core :: cmp :: Ord , T : A , T : :: core :: cmp :: PartialOrd , T : :: core :: cmp :: PartialEq {

`Self` in the check is the type itself
#[educe(Eq)] struct Node<T> { value: T, next: Option<Box<Self>> }
: holds __educe_assert_eq :: < T > ( ) ; __educe_assert_eq :: < Option < Box < Node :: < T > >> > ( ) ;

a packed struct asks nothing more
#[educe(Eq)] #[repr(packed)] struct S<T>(T);
: holds Eq for S < T > where T : :: core :: cmp :: Eq { }

nothing is said of it at a field
#[educe(Eq)] struct S { #[educe(Eq)] a: u8 }
: rejected 1:33: the `Eq` attribute cannot be placed here

nor at a variant
#[educe(Eq)] enum E { #[educe(Eq(bound(*)))] A }
: rejected 1:31: the `Eq` attribute cannot be placed here
"#;

#[test]
fn types_of_fields_are_checked(rt: HostRuntime) -> Result<(), Fail> {
    check_table(rt.alloc(), CHECKS)
}
