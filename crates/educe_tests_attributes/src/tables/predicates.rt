//! The predicates that bounds ask for, and lists of predicates and parameters (documentation of `educe`, Bounds).

use crate::predicates::{asked_words, generics_words, inserted_words};
use educe_tests::check_rows;
use std::test::Fail;

/// A bound and a struct of one field; the predicates that the bound asks for, for `Clone`; in the line below, those by
/// which the field is copied if the struct is packed.
static ASKED: &str = r#"
bound = true in struct S<T>(T);
bound = true in struct S<T, U>(T);
bound = true in struct S<T>(Result<T, T>);
: bounds T : :: core :: clone :: Clone,
bounds T : :: core :: marker :: Copy,

bound = true in struct S<T>((T));
: bounds ( T ) : :: core :: clone :: Clone,
bounds ( T ) : :: core :: marker :: Copy,

bound = true in struct S<T>(Box<T>);
: bounds T : :: core :: clone :: Clone,
bounds Box < T > : :: core :: marker :: Copy,

bound = true in struct S<T, U>(Result<U, Other<S<T>>>);
: bounds U : :: core :: clone :: Clone, T : :: core :: clone :: Clone,
bounds U : :: core :: marker :: Copy, T : :: core :: marker :: Copy,

bound = true in struct S<T>(PhantomData<T>);
bound = true in struct S<T>(Box<u8>);
bound = false in struct S<T>(T);
bound() in struct S<T>(T);
: bounds
bounds

bound(*) in struct S<'a, T, const N: usize, U>(&'a T);
: bounds T : :: core :: clone :: Clone, U : :: core :: clone :: Clone,
bounds T : :: core :: marker :: Copy, U : :: core :: marker :: Copy,

bound(T: A, T: A) in struct S<T>(T);
: bounds T : A, T : A,
bounds
"#;

#[test]
fn bounds_ask_for_predicates(rt: HostRuntime) -> Result<(), Fail> {
    check_rows(rt.alloc(), asked_words, ASKED)
}

/// A struct and predicates; its parameters as an impl has them; in the line below, its own predicates and those of the
/// others, each once; in the last, its own predicates and all the others.
static LISTS: &str = r#"
struct S; and T: A
: parameters
bounds T : A,
bounds T : A,

struct S<T: X = u8, 'a: 'static, const N: usize = 1, 'b> where T: A; and T: B, T: A, T: B
: parameters 'a : 'static, 'b, T : X, const N : usize,
bounds T : A, T : B,
bounds T : A, T : B, T : A, T : B,

struct S<T> where T: A, T: A; and T: A, T: A + A
: parameters T,
bounds T : A, T : A + A,
bounds T : A, T : A, T : A, T : A + A,

struct S<T> where Box<T>: A; and Box<T> : A
: parameters T,
bounds Box < T >: A,
bounds Box < T >: A, Box < T > : A,
"#;

#[test]
fn predicates_are_added_and_lifetimes_stand_first(rt: HostRuntime) -> Result<(), Fail> {
    check_rows(rt.alloc(), generics_words, LISTS)
}

/// Predicates; whether each is new when they are inserted one after the other; in the line below, the numbers of those
/// that are there then.
static INSERTED: &str = r#"
T : Clone, U : Clone, T:Clone
: new: true true false
numbers: 0 1

T: A, T: B, T: A, 'a: 'b, T: A + B, T :B
: new: true true false true true false
numbers: 0 1 2 3
"#;

#[test]
fn equal_predicates_are_inserted_once(rt: HostRuntime) -> Result<(), Fail> {
    check_rows(rt.alloc(), inserted_words, INSERTED)
}
