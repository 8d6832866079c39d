//! Worked examples of `Self` in what stands outside of an impl: the name of the definition with its
//! parameters stands in its place.

use crate::tables::check_table;
use std::test::Fail;

static SELVES: &str = r#"
`Self` with arguments, in the check of `Eq`
#[educe(Eq)] struct S<T>(T, Option<Box<Self<T>>>);
: holds __educe_assert_eq :: < T > ( ) ; __educe_assert_eq :: < Option < Box < S :: < T > >> > ( ) ;

in a predicate of the check
#[educe(Eq)] struct S<T> where T: From<Self<T>> { a: T }
: holds fn __educe_eq_fields < T > ( ) where T : From < S :: < T > > , T : :: core :: cmp :: Eq {

in the type of a field with a method of `Debug`
#[educe(Debug)] struct S<T>(T, #[educe(Debug(method = m))] Option<Box<Self<T>>>);
: holds fn __educe_debug_method_used < T > ( educe__value : & Option < Box < S :: < T > >> ,

in the type of a field with a method of `Clone`
#[educe(Clone)] struct S<T>(T, #[educe(Clone(method = m))] Option<Box<Self<T>>>);
: holds fn __educe_clone_method_used < T > ( educe__value : & Option < Box < S :: < T > >> , ) -> Option < Box < S :: < T > >>

in such a method
#[educe(Clone)] struct S<T>(#[educe(Clone(method = Self::<T>::m))] T);
: holds { S :: < T > :: m ( educe__value ) }

behind `::` in such a method it stays
#[educe(Clone)] struct S(#[educe(Clone(method = own::Self::m))] u8);
: holds { own :: Self :: m ( educe__value ) }

in a call of a macro it stays
#[educe(Eq)] struct S<T>(Box<Self<T>>, [T; m!(Self)]);
: holds __educe_assert_eq :: < Box < S :: < T > > > ( ) ; __educe_assert_eq :: < [ T ; m ! ( Self ) ] > ( ) ;

in a qualified path
#[educe(Eq)] struct S<T>(T, Option<<Self as A>::B>);
: holds __educe_assert_eq :: < Option << S :: < T > as A >:: B > > ( ) ; } } ;

in the length of an array, and in the predicate that this asks for
#[educe(Eq)] struct S<T>([T; Self::N]);
: holds < T > ( ) where [ T ; S :: < T > :: N ] : :: core :: cmp :: Eq {
: holds __educe_assert_eq :: < [ T ; S :: < T > :: N ] > ( ) ; } } ;

in functions, and in what a bound is called with
#[educe(Eq)] struct S<T>(fn() -> Self, Box<dyn Fn(Self) -> Self>, T);
: holds __educe_assert_eq :: < fn ( ) -> S :: < T > > ( ) ;
: holds __educe_assert_eq :: < Box < dyn Fn ( S :: < T > ) -> S :: < T > > > ( ) ;

one among the arguments of another
#[educe(Eq)] struct S<T>(Vec<Self<Self<T>>>);
: holds __educe_assert_eq :: < Vec < S :: < T > > > ( ) ; } } ;

behind `::` in a type it stays
#[educe(Eq)] struct S<T>(Vec<::Self>, T);
: holds __educe_assert_eq :: < Vec <:: Self > > ( ) ;

the path of a call of a macro stays
#[educe(Eq)] struct S(Box<[u8; Self::m!(Self)]>);
: holds __educe_assert_eq :: < Box < [ u8 ; Self :: m ! ( Self ) ] > > ( ) ; } } ;

in the type of a const parameter, which the name has as an argument
#[educe(Eq)] struct S<const N: Index<Self>>(Vec<Self>);
: holds fn __educe_eq_fields < const N : Index < S :: < N > > > ( ) {
: holds __educe_assert_eq :: < Vec < S :: < N > > > ( ) ; } } ;

each parameter is an argument of the name
#[educe(Eq)] struct S<'a, T, const N: usize>(&'a T, Vec<Self>);
: holds __educe_assert_eq :: < Vec < S :: < 'a , T , N > > > ( ) ; } } ;

in a predicate that `PartialEq` adds
#[educe(PartialEq(bound = "Self<u8>: A"), Eq)] struct S(u8);
: holds fn __educe_eq_fields ( ) where S : A {

in the trait of a method
#[educe(Debug)] struct S<T>(T, #[educe(Debug(method = <Self as A>::show))] u8);
: holds { < S :: < T > as A >:: show ( educe__value , educe__f ) } } ;
"#;

#[test]
fn self_is_replaced(rt: HostRuntime) -> Result<(), Fail> {
    check_table(rt.alloc(), SELVES)
}
