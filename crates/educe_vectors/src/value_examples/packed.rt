//! Worked examples of packed structs, and of values with type parameters (documentation of `educe`, Trait Bounds).
//! `examples/answers.sh` has compiled code answer the rows with values too.

use crate::tables::check_table;
use std::test::Fail;

static WHOLE: &str = r#"
a packed struct
#[educe(PartialEq)] #[repr(packed)] struct S<T> { a: T }
: writes # [ automatically_derived ] impl < T > :: core :: cmp :: PartialEq for S < T > where T : :: core :: cmp :: PartialEq , T : :: core :: marker :: Copy { fn eq ( & self , other : & Self ) -> :: core :: primitive :: bool { if :: core :: cmp :: PartialEq :: ne ( & { self . a } , & { other . a } ) { return false ; } true } }

a packed struct without parameters
#[educe(PartialEq, PartialOrd, Ord)] #[repr(packed)] struct S(u8, #[educe(PartialEq(method = m))] u16);
: writes # [ automatically_derived ] impl :: core :: cmp :: PartialEq for S { fn eq ( & self , other : & Self ) -> :: core :: primitive :: bool { if :: core :: cmp :: PartialEq :: ne ( & { self . 0 } , & { other . 0 } ) { return false ; } if ! m ( & { self . 1 } , & { other . 1 } ) { return false ; } true } }
# [ automatically_derived ] impl :: core :: cmp :: PartialOrd for S { fn partial_cmp ( & self , other : & Self , ) -> :: core :: option :: Option < :: core :: cmp :: Ordering > { match :: core :: cmp :: PartialOrd :: partial_cmp ( & { self . 0 } , & { other . 0 } ) { :: core :: option :: Option :: Some ( :: core :: cmp :: Ordering :: Equal ) => ( ) , :: core :: option :: Option :: Some ( :: core :: cmp :: Ordering :: Greater ) => return :: core :: option :: Option :: Some ( :: core :: cmp :: Ordering :: Greater ) , :: core :: option :: Option :: Some ( :: core :: cmp :: Ordering :: Less ) => return :: core :: option :: Option :: Some ( :: core :: cmp :: Ordering :: Less ) , :: core :: option :: Option :: None => return :: core :: option :: Option :: None , } match :: core :: cmp :: PartialOrd :: partial_cmp ( & { self . 1 } , & { other . 1 } ) { :: core :: option :: Option :: Some ( :: core :: cmp :: Ordering :: Equal ) => ( ) , :: core :: option :: Option :: Some ( :: core :: cmp :: Ordering :: Greater ) => return :: core :: option :: Option :: Some ( :: core :: cmp :: Ordering :: Greater ) , :: core :: option :: Option :: Some ( :: core :: cmp :: Ordering :: Less ) => return :: core :: option :: Option :: Some ( :: core :: cmp :: Ordering :: Less ) , :: core :: option :: Option :: None => return :: core :: option :: Option :: None , } :: core :: option :: Option :: Some ( :: core :: cmp :: Ordering :: Equal ) } }
# [ automatically_derived ] impl :: core :: cmp :: Ord for S { fn cmp ( & self , other : & Self ) -> :: core :: cmp :: Ordering { match :: core :: cmp :: Ord :: cmp ( & { self . 0 } , & { other . 0 } ) { :: core :: cmp :: Ordering :: Equal => ( ) , :: core :: cmp :: Ordering :: Greater => return :: core :: cmp :: Ordering :: Greater , :: core :: cmp :: Ordering :: Less => return :: core :: cmp :: Ordering :: Less , } match :: core :: cmp :: Ord :: cmp ( & { self . 1 } , & { other . 1 } ) { :: core :: cmp :: Ordering :: Equal => ( ) , :: core :: cmp :: Ordering :: Greater => return :: core :: cmp :: Ordering :: Greater , :: core :: cmp :: Ordering :: Less => return :: core :: cmp :: Ordering :: Less , } :: core :: cmp :: Ordering :: Equal } }
"#;

#[test]
fn packed_impls_are_written(rt: HostRuntime) -> Result<(), Fail> {
    check_table(rt.alloc(), WHOLE)
}

static COPIES: &str = r#"
packed by two
#[repr(C, packed(2))] #[educe(PartialEq)] struct S<T>(T);
: holds impl < T > :: core :: cmp :: PartialEq for S < T > where T : :: core :: cmp :: PartialEq , T : :: core :: marker :: Copy { fn eq
: holds ( & { self . 0 } , & { other . 0 } )

packed in another form
#[repr(packed = 1)] #[educe(PartialEq)] struct S<T>(T);
: holds impl < T > :: core :: cmp :: PartialEq for S < T > where T : :: core :: cmp :: PartialEq , T : :: core :: marker :: Copy { fn eq
: holds ( & { self . 0 } , & { other . 0 } )

packed in a second list
#[repr(C)] #[repr(align(8),)] #[repr(packed,)] #[educe(PartialEq)] struct S<T>(T);
: holds impl < T > :: core :: cmp :: PartialEq for S < T > where T : :: core :: cmp :: PartialEq , T : :: core :: marker :: Copy { fn eq

a packed struct under no bounds
#[educe(PartialEq(bound = false))] #[repr(packed)] struct S<T>(T);
: holds impl < T > :: core :: cmp :: PartialEq for S < T > { fn eq
: holds ( & { self . 0 } , & { other . 0 } )

a packed struct under a bound for each parameter
#[educe(PartialEq(bound(*)))] #[repr(packed)] struct S<'a, T, U>(&'a T, #[educe(PartialEq(ignore))] U);
: holds impl < 'a , T , U > :: core :: cmp :: PartialEq for S < 'a , T , U > where T : :: core :: cmp :: PartialEq , U : :: core :: cmp :: PartialEq , T : :: core :: marker :: Copy , U : :: core :: marker :: Copy { fn eq

a packed struct under listed predicates
#[educe(PartialEq(bound(T: X)))] #[repr(packed)] struct S<T>(T);
: holds impl < T > :: core :: cmp :: PartialEq for S < T > where T : X { fn eq
: holds ( & { self . 0 } , & { other . 0 } )

a packed struct under an empty list
#[educe(PartialEq(bound()))] #[repr(packed)] struct S<T>(T);
: holds impl < T > :: core :: cmp :: PartialEq for S < T > { fn eq

copies ask by their own table
#[educe(PartialEq)] #[repr(packed)] struct S<'a, A, B, C, D: ?Sized, F>(Box<A>, Option<B>, Arc<C>, &'a D, *const F);
: holds impl < 'a , A , B , C , D : ? Sized , F > :: core :: cmp :: PartialEq for S < 'a , A , B , C , D , F > where A : :: core :: cmp :: PartialEq , B : :: core :: cmp :: PartialEq , C : :: core :: cmp :: PartialEq , & 'a D : :: core :: cmp :: PartialEq , Box < A > : :: core :: marker :: Copy , B : :: core :: marker :: Copy { fn eq

copies hand on less
#[educe(PartialEq)] #[repr(packed)] struct S<A, B, C, D>(Vec<A>, Result<B, Wrapping<C>>, (D, u8));
: holds impl < A , B , C , D > :: core :: cmp :: PartialEq for S < A , B , C , D > where A : :: core :: cmp :: PartialEq , B : :: core :: cmp :: PartialEq , C : :: core :: cmp :: PartialEq , ( D , u8 ) : :: core :: cmp :: PartialEq , Vec < A > : :: core :: marker :: Copy , B : :: core :: marker :: Copy , C : :: core :: marker :: Copy , ( D , u8 ) : :: core :: marker :: Copy { fn eq

copies of the struct itself
#[educe(PartialEq)] #[repr(packed)] struct S<'a, T, U>(Option<(&'a S<'a, T, U>, U)>);
: holds impl < 'a , T , U > :: core :: cmp :: PartialEq for S < 'a , T , U > where T : :: core :: cmp :: PartialEq , U : :: core :: cmp :: PartialEq , U : :: core :: marker :: Copy { fn eq

an ignored field is not copied
#[educe(PartialEq, PartialOrd, Ord)] #[repr(packed)] struct S<T, U>(T, #[educe(PartialEq(ignore), PartialOrd(ignore))] U);
: holds impl < T , U > :: core :: cmp :: PartialEq for S < T , U > where T : :: core :: cmp :: PartialEq , T : :: core :: marker :: Copy { fn eq
: holds impl < T , U > :: core :: cmp :: PartialOrd for S < T , U > where T : :: core :: cmp :: PartialOrd , T : :: core :: marker :: Copy , T : :: core :: cmp :: PartialEq { fn partial_cmp
: holds impl < T , U > :: core :: cmp :: Ord for S < T , U > where T : :: core :: cmp :: Ord , T : :: core :: marker :: Copy , T : :: core :: cmp :: PartialOrd , T : :: core :: cmp :: PartialEq { fn cmp

a field with a method is copied
#[educe(PartialEq)] #[repr(packed)] struct S<T, U>(#[educe(PartialEq(method = m))] T, U);
: holds impl < T , U > :: core :: cmp :: PartialEq for S < T , U > where U : :: core :: cmp :: PartialEq , T : :: core :: marker :: Copy , U : :: core :: marker :: Copy { fn eq
: holds if ! m ( & { self . 0 } , & { other . 0 } ) { return false ; }

copies come by ranks
#[educe(PartialEq, Ord)] #[repr(packed)] struct S<T, U>(#[educe(Ord(rank = 1, method = m))] T, U);
: holds impl < T , U > :: core :: cmp :: PartialEq for S < T , U > where T : :: core :: cmp :: PartialEq , U : :: core :: cmp :: PartialEq , T : :: core :: marker :: Copy , U : :: core :: marker :: Copy { fn eq
: holds impl < T , U > :: core :: cmp :: Ord for S < T , U > where U : :: core :: cmp :: Ord , U : :: core :: marker :: Copy , T : :: core :: marker :: Copy { fn cmp
: holds match m ( & { self . 0 } , & { other . 0 } ) {

orders inherit of a packed struct
#[educe(PartialEq, PartialOrd, Ord)] #[repr(packed)] struct S<T>(T);
: holds impl < T > :: core :: cmp :: PartialEq for S < T > where T : :: core :: cmp :: PartialEq , T : :: core :: marker :: Copy { fn eq
: holds impl < T > :: core :: cmp :: PartialOrd for S < T > where T : :: core :: cmp :: PartialOrd , T : :: core :: marker :: Copy , T : :: core :: cmp :: PartialEq { fn partial_cmp
: holds impl < T > :: core :: cmp :: Ord for S < T > where T : :: core :: cmp :: Ord , T : :: core :: marker :: Copy , T : :: core :: cmp :: PartialOrd , T : :: core :: cmp :: PartialEq { fn cmp

orders inherit copies that they do not ask
#[educe(PartialEq, PartialOrd)] #[repr(packed)] struct S<T, U>(#[educe(PartialOrd(ignore))] T, U);
: holds impl < T , U > :: core :: cmp :: PartialEq for S < T , U > where T : :: core :: cmp :: PartialEq , U : :: core :: cmp :: PartialEq , T : :: core :: marker :: Copy , U : :: core :: marker :: Copy { fn eq
: holds impl < T , U > :: core :: cmp :: PartialOrd for S < T , U > where U : :: core :: cmp :: PartialOrd , U : :: core :: marker :: Copy , T : :: core :: cmp :: PartialEq , U : :: core :: cmp :: PartialEq , T : :: core :: marker :: Copy { fn partial_cmp

a packed struct under no bounds is inherited
#[educe(PartialEq(bound = false), PartialOrd)] #[repr(packed)] struct S<T>(T);
: holds impl < T > :: core :: cmp :: PartialEq for S < T > { fn eq
: holds impl < T > :: core :: cmp :: PartialOrd for S < T > where T : :: core :: cmp :: PartialOrd , T : :: core :: marker :: Copy { fn partial_cmp

a packed struct under a bound for each parameter is inherited
#[educe(PartialEq(bound(*)), PartialOrd)] #[repr(packed)] struct S<T>(Vec<T>);
: holds impl < T > :: core :: cmp :: PartialEq for S < T > where T : :: core :: cmp :: PartialEq , T : :: core :: marker :: Copy { fn eq
: holds impl < T > :: core :: cmp :: PartialOrd for S < T > where T : :: core :: cmp :: PartialOrd , Vec < T > : :: core :: marker :: Copy , T : :: core :: cmp :: PartialEq , T : :: core :: marker :: Copy { fn partial_cmp

a packed struct under listed predicates is inherited
#[educe(PartialEq(bound(T: Copy, T: X)), PartialOrd, Ord(bound(*)))] #[repr(packed)] struct S<T>(T);
: holds impl < T > :: core :: cmp :: PartialEq for S < T > where T : Copy , T : X { fn eq
: holds impl < T > :: core :: cmp :: PartialOrd for S < T > where T : :: core :: cmp :: PartialOrd , T : :: core :: marker :: Copy , T : Copy , T : X { fn partial_cmp
: holds impl < T > :: core :: cmp :: Ord for S < T > where T : :: core :: cmp :: Ord , T : :: core :: marker :: Copy { fn cmp

other bounds of a packed struct inherit nothing
#[educe(PartialEq, PartialOrd(bound = false), Ord(bound(*)))] #[repr(packed)] struct S<T>(Vec<T>);
: holds impl < T > :: core :: cmp :: PartialEq for S < T > where T : :: core :: cmp :: PartialEq , Vec < T > : :: core :: marker :: Copy { fn eq
: holds impl < T > :: core :: cmp :: PartialOrd for S < T > { fn partial_cmp
: holds impl < T > :: core :: cmp :: Ord for S < T > where T : :: core :: cmp :: Ord , T : :: core :: marker :: Copy { fn cmp

a copy that is asked for itself
#[educe(PartialEq(bound(T: ::core::marker::Copy)), PartialOrd)] #[repr(packed)] struct S<T>(T);
: holds impl < T > :: core :: cmp :: PartialEq for S < T > where T : :: core :: marker :: Copy { fn eq
: holds impl < T > :: core :: cmp :: PartialOrd for S < T > where T : :: core :: cmp :: PartialOrd , T : :: core :: marker :: Copy { fn partial_cmp

a packed enum is not copied
#[educe(PartialEq, PartialOrd, Ord)] #[repr(packed)] enum E<T> { A(T), B }
: holds impl < T > :: core :: cmp :: PartialEq for E < T > where T : :: core :: cmp :: PartialEq { fn eq
: holds impl < T > :: core :: cmp :: PartialOrd for E < T > where T : :: core :: cmp :: PartialOrd , T : :: core :: cmp :: PartialEq { fn partial_cmp
: holds impl < T > :: core :: cmp :: Ord for E < T > where T : :: core :: cmp :: Ord , T : :: core :: cmp :: PartialOrd , T : :: core :: cmp :: PartialEq { fn cmp
: holds if :: core :: cmp :: PartialEq :: ne ( _s_0 , _o_0 )

a packed enum under a bound for each parameter
#[educe(PartialEq(bound(*)))] #[repr(packed)] enum E<T> { A(T) }
: holds impl < T > :: core :: cmp :: PartialEq for E < T > where T : :: core :: cmp :: PartialEq { fn eq
: holds if :: core :: cmp :: PartialEq :: ne ( _s_0 , _o_0 )

a struct that is aligned
#[repr(C, align(8))] #[educe(PartialEq)] struct S<T>(T);
: holds impl < T > :: core :: cmp :: PartialEq for S < T > where T : :: core :: cmp :: PartialEq { fn eq
: holds ( & self . 0 , & other . 0 )

a list that is none of metas
#[repr(packed packed)] #[educe(PartialEq)] struct S<T>(T);
: holds impl < T > :: core :: cmp :: PartialEq for S < T > where T : :: core :: cmp :: PartialEq { fn eq
: holds ( & self . 0 , & other . 0 )

a word in a path
#[repr(a::packed, r#packed)] #[educe(PartialEq)] struct S<T>(T);
: holds impl < T > :: core :: cmp :: PartialEq for S < T > where T : :: core :: cmp :: PartialEq { fn eq
: holds ( & self . 0 , & other . 0 )
"#;

#[test]
fn packed_fields_are_copied(rt: HostRuntime) -> Result<(), Fail> {
    check_table(rt.alloc(), COPIES)
}

static VALUES: &str = r#"
a struct with parameters, equality
#[educe(PartialEq, PartialOrd, Ord)] struct S<T, U> { #[educe(Ord(rank = 1))] a: T, b: U }
: eq 0(1, 2) 0(1, 2) = true
: eq 0(1, 2) 0(1, 3) = false
: eq 0(2, 2) 0(1, 2) = false

a struct with parameters, partial order
#[educe(PartialEq, PartialOrd, Ord)] struct S<T, U> { #[educe(Ord(rank = 1))] a: T, b: U }
: partial_cmp 0(1, 2) 0(2, 1) = Some(Greater)
: partial_cmp 0(1, 2) 0(2, 2) = Some(Less)
: partial_cmp 0(1, 2) 0(1, 2) = Some(Equal)

a struct with parameters, order
#[educe(PartialEq, PartialOrd, Ord)] struct S<T, U> { #[educe(Ord(rank = 1))] a: T, b: U }
: cmp 0(1, 2) 0(2, 1) = Greater
: cmp 0(1, 2) 0(2, 2) = Less
: cmp 0(1, 2) 0(1, 2) = Equal
: cmp 0(9, 1) 0(1, 2) = Less

a packed struct, equality
#[educe(PartialEq, PartialOrd, Ord)] #[repr(packed)] struct S<T> { #[educe(Ord(rank = 1))] a: T, b: u8 }
: eq 0(1, 2) 0(1, 2) = true
: eq 0(1, 2) 0(1, 3) = false
: eq 0(2, 2) 0(1, 2) = false

a packed struct, partial order
#[educe(PartialEq, PartialOrd, Ord)] #[repr(packed)] struct S<T> { #[educe(Ord(rank = 1))] a: T, b: u8 }
: partial_cmp 0(1, 2) 0(2, 1) = Some(Greater)
: partial_cmp 0(1, 2) 0(2, 2) = Some(Less)
: partial_cmp 0(1, 2) 0(1, 2) = Some(Equal)

a packed struct, order
#[educe(PartialEq, PartialOrd, Ord)] #[repr(packed)] struct S<T> { #[educe(Ord(rank = 1))] a: T, b: u8 }
: cmp 0(1, 2) 0(2, 1) = Greater
: cmp 0(1, 2) 0(2, 2) = Less
: cmp 0(1, 2) 0(1, 2) = Equal
: cmp 0(9, 1) 0(1, 2) = Less

methods are called on copies
#[educe(PartialEq, Ord)] #[repr(packed(2))] struct S<T>(#[educe(PartialEq(method = e), Ord(method = o))] u8, T);
: method e(1, 2) -> true
: method e(2, 2) -> false
: eq 0(1, 5) 0(2, 5) = true
: eq 0(1, 5) 0(2, 6) = false
: eq 0(2, 5) 0(2, 5) = false

methods order copies
#[educe(PartialEq, Ord)] #[repr(packed(2))] struct S<T>(#[educe(PartialEq(method = e), Ord(method = o))] u8, T);
: method o(1, 2) -> Greater
: method o(1, 1) -> Equal
: cmp 0(1, 5) 0(2, 6) = Greater
: cmp 0(1, 5) 0(1, 6) = Less

an enum with a parameter, equality
#[educe(PartialEq, PartialOrd, Ord)] #[repr(i8)] enum E<T> { A(T, u8) = 2, B { x: T } = 1, C = 3 }
: eq 0(1, 2) 0(1, 2) = true
: eq 0(1, 2) 0(1, 3) = false
: eq 1(1) 1(1) = true
: eq 1(1) 0(1, 1) = false
: eq 2() 1(1) = false

an enum with a parameter, partial order
#[educe(PartialEq, PartialOrd, Ord)] #[repr(i8)] enum E<T> { A(T, u8) = 2, B { x: T } = 1, C = 3 }
: partial_cmp 0(1, 2) 1(3) = Some(Greater)
: partial_cmp 1(1) 1(2) = Some(Less)
: partial_cmp 0(1, 9) 0(2, 1) = Some(Less)
: partial_cmp 1(7) 1(7) = Some(Equal)
"#;

#[test]
fn values_are_compared(rt: HostRuntime) -> Result<(), Fail> {
    check_table(rt.alloc(), VALUES)
}
