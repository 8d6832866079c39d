//! Worked examples of bounds: their modes, what impls inherit of others, and what is no bound (documentation of
//! `educe`, Trait Bounds).

use crate::tables::check_table;
use std::test::Fail;

static MODES: &str = r#"
no bounds
#[educe(PartialEq(bound = false))] struct S<T>(T);
: holds impl < T > :: core :: cmp :: PartialEq for S < T > { fn eq

no bounds, in brackets
#[educe(Ord(bound(false)))] struct S<T>(T);
: holds impl < T > :: core :: cmp :: Ord for S < T > { fn cmp

declared predicates stay
#[educe(PartialEq(bound = false))] struct S<T: A>(T) where T: B;
: holds impl < T : A > :: core :: cmp :: PartialEq for S < T > where T : B { fn eq

automatic bounds
#[educe(PartialEq(bound = true), PartialOrd(bound(true)))] struct S<T>(Vec<T>);
: holds impl < T > :: core :: cmp :: PartialEq for S < T > where T : :: core :: cmp :: PartialEq { fn eq
: holds impl < T > :: core :: cmp :: PartialOrd for S < T > where T : :: core :: cmp :: PartialOrd , T : :: core :: cmp :: PartialEq { fn partial_cmp

a bound for each type parameter
#[educe(PartialEq(bound(*)))] struct S<'a, T, const N: usize, U>(&'a T, [u8; N], PhantomData<U>);
: holds impl < 'a , T , const N : usize , U > :: core :: cmp :: PartialEq for S < 'a , T , N , U > where T : :: core :: cmp :: PartialEq , U : :: core :: cmp :: PartialEq { fn eq

a bound for each of no parameters
#[educe(PartialEq(bound(*)))] struct S<'a>(&'a u8);
: holds impl < 'a > :: core :: cmp :: PartialEq for S < 'a > { fn eq

a bound for each parameter, of each trait
#[educe(PartialEq(bound(*)), PartialOrd(bound{*}), Ord(bound[*]))] struct S<T>(Vec<T>);
: holds impl < T > :: core :: cmp :: PartialEq for S < T > where T : :: core :: cmp :: PartialEq { fn eq
: holds impl < T > :: core :: cmp :: PartialOrd for S < T > where T : :: core :: cmp :: PartialOrd { fn partial_cmp
: holds impl < T > :: core :: cmp :: Ord for S < T > where T : :: core :: cmp :: Ord { fn cmp

predicates in a string
#[educe(PartialEq(bound = "T: X"))] struct S<T>(T);
: holds impl < T > :: core :: cmp :: PartialEq for S < T > where T : X { fn eq

predicates in a string in brackets
#[educe(PartialEq(bound("T: X<U>, U: 'static,")))] struct S<T, U>(T, U);
: holds impl < T , U > :: core :: cmp :: PartialEq for S < T , U > where T : X < U > , U : 'static { fn eq

predicates in brackets
#[educe(PartialOrd(bound(T: X)))] struct S<T>(T);
: holds impl < T > :: core :: cmp :: PartialOrd for S < T > where T : X { fn partial_cmp

predicates of all kinds
#[educe(Ord(bound(for<'b> &'b T: X<'b>, 'a: 'static, Vec<T>: ?Sized + Y<{ N }>, u8: Copy,)))] struct S<'a, T, const N: usize>(&'a T);
: holds impl < 'a , T , const N : usize > :: core :: cmp :: Ord for S < 'a , T , N > where for < 'b > & 'b T : X < 'b > , 'a : 'static , Vec < T >: ? Sized + Y < { N } > , u8 : Copy { fn cmp

listed predicates behind declared ones
#[educe(PartialEq(bound(T: X)))] struct S<T>(T) where T: X;
: holds impl < T > :: core :: cmp :: PartialEq for S < T > where T : X , T : X { fn eq

a predicate that is listed twice
#[educe(PartialEq(bound(T: X, T: X)))] struct S<T>(T);
: holds impl < T > :: core :: cmp :: PartialEq for S < T > where T : X , T : X { fn eq

an empty list
#[educe(PartialEq(bound()))] struct S<T>(T);
: holds impl < T > :: core :: cmp :: PartialEq for S < T > { fn eq

an empty string
#[educe(PartialEq(bound = ""))] struct S<T>(T) where T: A;
: holds impl < T > :: core :: cmp :: PartialEq for S < T > where T : A { fn eq

bounds of an enum
#[educe(PartialEq(bound(T: X)), Ord(bound(*)))] enum E<T, U> { A(T), B(U) }
: holds impl < T , U > :: core :: cmp :: PartialEq for E < T , U > where T : X { fn eq
: holds impl < T , U > :: core :: cmp :: Ord for E < T , U > where T : :: core :: cmp :: Ord , U : :: core :: cmp :: Ord { fn cmp

a bound of each trait
#[educe(PartialEq(bound = false), PartialOrd(bound(T: X)), Ord(bound(*)))] struct S<T>(T);
: holds impl < T > :: core :: cmp :: PartialEq for S < T > { fn eq
: holds impl < T > :: core :: cmp :: PartialOrd for S < T > where T : X { fn partial_cmp
: holds impl < T > :: core :: cmp :: Ord for S < T > where T : :: core :: cmp :: Ord { fn cmp
"#;

#[test]
fn modes_decide_what_is_added(rt: HostRuntime) -> Result<(), Fail> {
    check_table(rt.alloc(), MODES)
}

static TRAITS: &str = r#"
an automatic bound of `Debug`
#[educe(Debug)] struct S<T, U>(Vec<T>, PhantomData<U>);
: holds impl < T , U > :: core :: fmt :: Debug for S < T , U > where T : :: core :: fmt :: Debug { fn fmt

an automatic bound of `Clone`
#[educe(Clone)] struct S<T, U>(Vec<T>, PhantomData<U>);
: holds impl < T , U > :: core :: clone :: Clone for S < T , U > where T : :: core :: clone :: Clone { fn clone

an automatic bound of `Copy`, and what it inherits of `Clone`
#[educe(Clone(bound(T: X)), Copy)] struct S<T, U>(T, PhantomData<U>);
: holds impl < T , U > :: core :: marker :: Copy for S < T , U > where T : :: core :: marker :: Copy , T : X { }

an automatic bound of `Eq`, and what it inherits of `PartialEq`
#[educe(PartialEq(bound(T: X)), Eq)] struct S<T, U>(Vec<T>, PhantomData<U>);
: holds impl < T , U > :: core :: cmp :: Eq for S < T , U > where T : :: core :: cmp :: Eq , T : X { }

an automatic bound of `Hash`
#[educe(Hash)] struct S<T, U>(Vec<T>, PhantomData<U>);
: holds impl < T , U > :: core :: hash :: Hash for S < T , U > where T : :: core :: hash :: Hash { fn hash

an automatic bound of `Default`
#[educe(Default)] struct S<T, U>(T, Vec<U>);
: holds impl < T , U > :: core :: default :: Default for S < T , U > where T : :: core :: default :: Default { fn default
"#;

#[test]
fn each_trait_asks_for_itself(rt: HostRuntime) -> Result<(), Fail> {
    check_table(rt.alloc(), TRAITS)
}

static INHERITED: &str = r#"
both orders inherit
#[educe(PartialEq, PartialOrd, Ord)] struct S<T>(T);
: holds impl < T > :: core :: cmp :: PartialEq for S < T > where T : :: core :: cmp :: PartialEq { fn eq
: holds impl < T > :: core :: cmp :: PartialOrd for S < T > where T : :: core :: cmp :: PartialOrd , T : :: core :: cmp :: PartialEq { fn partial_cmp
: holds impl < T > :: core :: cmp :: Ord for S < T > where T : :: core :: cmp :: Ord , T : :: core :: cmp :: PartialOrd , T : :: core :: cmp :: PartialEq { fn cmp

an order inherits a listed predicate
#[educe(PartialEq(bound(T: MyTrait)), PartialOrd)] struct S<T> { a: T }
: holds impl < T > :: core :: cmp :: PartialEq for S < T > where T : MyTrait { fn eq
: holds impl < T > :: core :: cmp :: PartialOrd for S < T > where T : :: core :: cmp :: PartialOrd , T : MyTrait { fn partial_cmp

an empty list inherits nothing
#[educe(PartialEq(bound(T: MyTrait)), PartialOrd(bound = ""))] struct S<T> { a: T }
: holds impl < T > :: core :: cmp :: PartialEq for S < T > where T : MyTrait { fn eq
: holds impl < T > :: core :: cmp :: PartialOrd for S < T > { fn partial_cmp

an order inherits of an order
#[educe(PartialEq(bound(T: MyTrait)), PartialOrd, Ord)] struct S<T>(T);
: holds impl < T > :: core :: cmp :: PartialEq for S < T > where T : MyTrait { fn eq
: holds impl < T > :: core :: cmp :: PartialOrd for S < T > where T : :: core :: cmp :: PartialOrd , T : MyTrait { fn partial_cmp
: holds impl < T > :: core :: cmp :: Ord for S < T > where T : :: core :: cmp :: Ord , T : :: core :: cmp :: PartialOrd , T : MyTrait { fn cmp

an order inherits nothing of equality itself
#[educe(PartialEq(bound(T: MyTrait)), Ord)] struct S<T>(T);
: holds impl < T > :: core :: cmp :: PartialEq for S < T > where T : MyTrait { fn eq
: holds impl < T > :: core :: cmp :: Ord for S < T > where T : :: core :: cmp :: Ord { fn cmp

no bounds inherit nothing
#[educe(PartialEq, PartialOrd(bound = false), Ord)] struct S<T>(T);
: holds impl < T > :: core :: cmp :: PartialEq for S < T > where T : :: core :: cmp :: PartialEq { fn eq
: holds impl < T > :: core :: cmp :: PartialOrd for S < T > { fn partial_cmp
: holds impl < T > :: core :: cmp :: Ord for S < T > where T : :: core :: cmp :: Ord { fn cmp

nothing is inherited of no bounds
#[educe(PartialEq(bound = false), PartialOrd)] struct S<T>(T);
: holds impl < T > :: core :: cmp :: PartialEq for S < T > { fn eq
: holds impl < T > :: core :: cmp :: PartialOrd for S < T > where T : :: core :: cmp :: PartialOrd { fn partial_cmp

a bound for each parameter inherits nothing
#[educe(PartialEq, PartialOrd(bound(*)), Ord)] struct S<T>(Vec<T>);
: holds impl < T > :: core :: cmp :: PartialEq for S < T > where T : :: core :: cmp :: PartialEq { fn eq
: holds impl < T > :: core :: cmp :: PartialOrd for S < T > where T : :: core :: cmp :: PartialOrd { fn partial_cmp
: holds impl < T > :: core :: cmp :: Ord for S < T > where T : :: core :: cmp :: Ord , T : :: core :: cmp :: PartialOrd { fn cmp

a bound for each parameter is inherited
#[educe(PartialEq(bound(*)), PartialOrd)] struct S<T, U>(T, PhantomData<U>);
: holds impl < T , U > :: core :: cmp :: PartialEq for S < T , U > where T : :: core :: cmp :: PartialEq , U : :: core :: cmp :: PartialEq { fn eq
: holds impl < T , U > :: core :: cmp :: PartialOrd for S < T , U > where T : :: core :: cmp :: PartialOrd , T : :: core :: cmp :: PartialEq , U : :: core :: cmp :: PartialEq { fn partial_cmp

listed predicates inherit nothing
#[educe(PartialEq, PartialOrd(bound(T: X)), Ord)] struct S<T>(T);
: holds impl < T > :: core :: cmp :: PartialEq for S < T > where T : :: core :: cmp :: PartialEq { fn eq
: holds impl < T > :: core :: cmp :: PartialOrd for S < T > where T : X { fn partial_cmp
: holds impl < T > :: core :: cmp :: Ord for S < T > where T : :: core :: cmp :: Ord , T : X { fn cmp

what is there is passed over
#[educe(PartialEq(bound(T: Y, T: ::core::cmp::PartialOrd)), PartialOrd)] struct S<T>(T);
: holds impl < T > :: core :: cmp :: PartialEq for S < T > where T : Y , T : :: core :: cmp :: PartialOrd { fn eq
: holds impl < T > :: core :: cmp :: PartialOrd for S < T > where T : :: core :: cmp :: PartialOrd , T : Y { fn partial_cmp

what is listed twice is inherited once
#[educe(PartialEq(bound(T: X, T: Y, T: X)), PartialOrd)] struct S<T>(T);
: holds impl < T > :: core :: cmp :: PartialEq for S < T > where T : X , T : Y , T : X { fn eq
: holds impl < T > :: core :: cmp :: PartialOrd for S < T > where T : :: core :: cmp :: PartialOrd , T : X , T : Y { fn partial_cmp

what differs in a blank is passed over
#[educe(PartialEq(bound(T: A<Vec<u8>>, T: A<Vec<u8> >)), PartialOrd)] struct S<T>(T);
: holds impl < T > :: core :: cmp :: PartialEq for S < T > where T : A < Vec < u8 >> , T : A < Vec < u8 > > { fn eq
: holds impl < T > :: core :: cmp :: PartialOrd for S < T > where T : :: core :: cmp :: PartialOrd , T : A < Vec < u8 >> { fn partial_cmp

an ignored field's predicate is inherited
#[educe(PartialEq, PartialOrd)] struct S<T, U> { #[educe(PartialOrd(ignore))] a: T, b: U }
: holds impl < T , U > :: core :: cmp :: PartialEq for S < T , U > where T : :: core :: cmp :: PartialEq , U : :: core :: cmp :: PartialEq { fn eq
: holds impl < T , U > :: core :: cmp :: PartialOrd for S < T , U > where U : :: core :: cmp :: PartialOrd , T : :: core :: cmp :: PartialEq , U : :: core :: cmp :: PartialEq { fn partial_cmp

a method's field asks what another trait's does
#[educe(PartialEq, PartialOrd, Ord)] struct S<T, U> { #[educe(PartialEq(method = m))] a: T, #[educe(Ord(method = m))] b: U }
: holds impl < T , U > :: core :: cmp :: PartialEq for S < T , U > where U : :: core :: cmp :: PartialEq { fn eq
: holds impl < T , U > :: core :: cmp :: PartialOrd for S < T , U > where T : :: core :: cmp :: PartialOrd , U : :: core :: cmp :: PartialEq { fn partial_cmp
: holds impl < T , U > :: core :: cmp :: Ord for S < T , U > where T : :: core :: cmp :: Ord , T : :: core :: cmp :: PartialOrd , U : :: core :: cmp :: PartialEq { fn cmp

the order of the list is no matter
#[educe(Ord, PartialOrd)] #[educe(PartialEq(bound(T: X)))] struct S<T>(T);
: holds impl < T > :: core :: cmp :: PartialEq for S < T > where T : X { fn eq
: holds impl < T > :: core :: cmp :: PartialOrd for S < T > where T : :: core :: cmp :: PartialOrd , T : X { fn partial_cmp
: holds impl < T > :: core :: cmp :: Ord for S < T > where T : :: core :: cmp :: Ord , T : :: core :: cmp :: PartialOrd , T : X { fn cmp

an enum inherits
#[educe(PartialEq, PartialOrd, Ord)] enum E<T, U> { A(Vec<T>), B { x: U } }
: holds impl < T , U > :: core :: cmp :: PartialEq for E < T , U > where T : :: core :: cmp :: PartialEq , U : :: core :: cmp :: PartialEq { fn eq
: holds impl < T , U > :: core :: cmp :: PartialOrd for E < T , U > where T : :: core :: cmp :: PartialOrd , U : :: core :: cmp :: PartialOrd , T : :: core :: cmp :: PartialEq , U : :: core :: cmp :: PartialEq { fn partial_cmp
: holds impl < T , U > :: core :: cmp :: Ord for E < T , U > where T : :: core :: cmp :: Ord , U : :: core :: cmp :: Ord , T : :: core :: cmp :: PartialOrd , U : :: core :: cmp :: PartialOrd , T : :: core :: cmp :: PartialEq , U : :: core :: cmp :: PartialEq { fn cmp
"#;

#[test]
fn orders_inherit_predicates(rt: HostRuntime) -> Result<(), Fail> {
    check_table(rt.alloc(), INHERITED)
}

static REFUSED: &str = r#"
a bound without a value
#[educe(PartialEq(bound))] struct S<T>(T);
: rejected 1:19: expected `bound = "where_predicates"`, `bound(where_predicates)`, `bound(*)`, `bound = false`, or `bound(false)`

a number in place of predicates
#[educe(PartialEq(bound = 1))] struct S<T>(T);
: rejected 1:27: expected `bound = "where_predicates"` or `bound = false`

a number in brackets
#[educe(PartialEq(bound(1)))] struct S<T>(T);
: rejected 1:25: expected `bound = "where_predicates"` or `bound = false`

a name in place of predicates
#[educe(PartialEq(bound = T))] struct S<T>(T);
: rejected 1:27: expected `bound = "where_predicates"` or `bound = false`

a type without a bound
#[educe(PartialEq(bound(T)))] struct S<T>(T);
: rejected 1:25: expected `bound = "where_predicates"` or `bound = false`

a star in a string
#[educe(PartialEq(bound = "*"))] struct S<T>(T);
: rejected 1:27: expected `bound = "where_predicates"` or `bound = false`

a star beside a predicate
#[educe(PartialEq(bound(*, T: X)))] struct S<T>(T);
: rejected 1:25: expected `bound = "where_predicates"` or `bound = false`

a string that holds no predicates
#[educe(PartialEq(bound("T")))] struct S<T>(T);
: rejected 1:25: expected `bound = "where_predicates"` or `bound = false`

a float in a string of predicates
#[educe(PartialEq(bound = "T: A<1.5>"))] struct S<T>(T);
: rejected 1:27: `1.5` is not supported

two bounds
#[educe(PartialEq(bound(*), bound(*)))] struct S<T>(T);
: rejected 1:29: you are trying to reset the `bound` parameter

another parameter beside a bound
#[educe(PartialEq(bound(*), ignore))] struct S<T>(T);
: rejected 1:9: you are using an incorrect format of the `PartialEq` attribute, which should be reformatted as follows:
    #[educe(PartialEq)]
    #[educe(PartialEq(bound(where_predicates)))]
    #[educe(PartialEq(bound = false))]

a raw word
#[educe(PartialEq(r#bound = false))] struct S<T>(T);
: rejected 1:9: you are using an incorrect format of the `PartialEq` attribute, which should be reformatted as follows:
    #[educe(PartialEq)]
    #[educe(PartialEq(bound(where_predicates)))]
    #[educe(PartialEq(bound = false))]

a bound in place of a list
#[educe(PartialEq = false)] struct S<T>(T);
: rejected 1:9: you are using an incorrect format of the `PartialEq` attribute, which should be reformatted as follows:
    #[educe(PartialEq)]
    #[educe(PartialEq(bound(where_predicates)))]
    #[educe(PartialEq(bound = false))]

a bound at a variant
#[educe(PartialEq)] enum E<T> { #[educe(PartialEq(bound(T: X)))] A(T) }
: rejected 1:41: the `PartialEq` attribute cannot be placed here

a bound at a field
#[educe(Ord)] struct S { #[educe(Ord(bound = false))] a: u8 }
: rejected 1:34: you are using an incorrect format of the `Ord` attribute, which should be reformatted as follows:
    #[educe(Ord = false)]
    #[educe(Ord(ignore))]
    #[educe(Ord(method(path_to_method)))]
    #[educe(Ord(rank = integer))]
    #[educe(Ord(reverse))]

a bound of a trait that is not listed
#[educe(PartialEq)] struct S { #[educe(Hash(bound = false))] a: u8 }
: rejected 1:40: the trait `Hash` is not used

the word of a bound as a value
#[educe(PartialEq)] struct S { #[educe(PartialEq(ignore = bound))] a: u8 }
: rejected 1:59: expected `ignore = false`

the word of a bound in a list that is no list of metas
#[educe(PartialEq)] struct S { #[educe((bound))] a: u8 }
: rejected 1:40: syntax error

predicates that are no list
#[educe(PartialEq(bound(T: X U: X)))] struct S<T>(T);
: rejected 1:25: expected `bound = "where_predicates"` or `bound = false`
"#;

#[test]
fn what_is_no_bound_is_refused(rt: HostRuntime) -> Result<(), Fail> {
    check_table(rt.alloc(), REFUSED)
}

static FREE: &str = r#"
the word of a bound as a method
#[educe(PartialEq)] struct S { #[educe(PartialEq(method(bound)))] a: u8 }
: holds if ! bound ( & self . a , & other . a ) { return false ; }

the word of a bound as names
#[educe(PartialEq)] struct bound<bound> { bound: bound }
: holds impl < bound > :: core :: cmp :: PartialEq for bound < bound > where bound : :: core :: cmp :: PartialEq { fn eq
"#;

#[test]
fn the_word_is_free_elsewhere(rt: HostRuntime) -> Result<(), Fail> {
    check_table(rt.alloc(), FREE)
}
