//! Worked examples of what `Hash` feeds to a hasher (documentation of `educe`, Hash).
//! `examples/answers.sh` has compiled code answer the rows with values too, each parameter at
//! its default.

use crate::tables::check_table;
use std::test::Fail;

static STRUCTS: &str = r#"
a part for each field, in written order
#[educe(Hash)] struct S { b: u8, a: u16 }
: hash 0(1, 2) = [1, 2]
: hash 0(2, 1) = [2, 1]

a struct without fields feeds nothing
#[educe(Hash)] struct S;
: hash 0() = []

an ignored field feeds nothing
#[educe(Hash)] struct S(u8, #[educe(Hash(ignore))] u8, #[educe(Hash = false)] u8, u8);
: hash 0(1, 2, 3, 4) = [1, 4]

a method feeds in place of the type's own function
#[educe(Hash)] struct S { a: u8, #[educe(Hash(method = twice))] b: u8 }
: method twice(5) -> [10]
: hash 0(3, 5) = [3, 10]

a method of a path, written as a string
#[educe(Hash)] struct S(#[educe(Hash(method("own::fed")))] u8);
: method own :: fed(7) -> [1]
: hash 0(7) = [1]

a method that spells the type's own function
#[educe(Hash)] struct S { #[educe(Hash(method = ::core::hash::Hash::hash))] a: u8 }
: hash 0(5) = [5]

a method whose name is that of the hasher
#[educe(Hash)] struct S { #[educe(Hash(method(state)))] a: u8 }
: method state(1) -> [4]
: hash 0(1) = [4]

a packed struct feeds copies
#[educe(Hash)] #[repr(packed)] struct S { a: u8, b: u32 }
: hash 0(1, 2) = [1, 2]

a name behind `r#`
#[educe(Hash)] struct S { r#type: u8, kind: u8 }
: hash 0(8, 9) = [8, 9]

the settings of comparisons say nothing of it
#[educe(PartialEq, Hash)] struct S { #[educe(PartialEq(ignore))] a: u8, b: u8 }
: hash 0(1, 2) = [1, 2]

a type and a constant as parameters
#[educe(Hash)] struct S<T = u16, const K: usize = 3> { a: T, #[educe(Hash(method = twice))] b: u8 }
: method twice(5) -> [10]
: hash 0(3, 5) = [3, 10]
"#;

#[test]
fn structs_feed_their_fields(rt: HostRuntime) -> Result<(), Fail> {
    check_table(rt.alloc(), STRUCTS)
}

static ENUMS: &str = r#"
the place of the variant, and then its fields
#[educe(Hash)] enum E { A, B(u8, #[educe(Hash(ignore))] u8) }
: hash 1(7, 9) = [1, 7]
: hash 0() = [0]

the place, whatever the discriminant
#[educe(Hash)] #[repr(u8)] enum E { A = 9, B = 4, C }
: hash 0() = [0]
: hash 1() = [1]
: hash 2() = [2]

named fields
#[educe(Hash)] enum E { A { y: u8, x: u8 }, B {} }
: hash 0(1, 2) = [0, 1, 2]
: hash 1() = [1]

one variant
#[educe(Hash)] enum E { A(u8) }
: hash 0(5) = [0, 5]

methods of two variants
#[educe(Hash)] enum E { A(#[educe(Hash(method(m)))] u8, u8), B { #[educe(Hash(method(n)))] a: u8 } }
: method m(1) -> [100]
: method n(1) -> [200]
: hash 0(1, 2) = [0, 100, 2]
: hash 1(1) = [1, 200]

a field whose name begins as the prefix of variables
#[educe(Hash)] enum E { A { _v_: u8, _v_a: u8 } }
: hash 0(1, 2) = [0, 1, 2]

a method whose name is a variable's
#[educe(Hash)] enum E { A(#[educe(Hash(method(_v_0)))] u8) }
: method _v_0(3) -> [4]
: hash 0(3) = [0, 4]

all fields of a variant are ignored
#[educe(Hash)] enum E { A(#[educe(Hash(ignore))] u8), B(#[educe(Hash(ignore))] u8) }
: hash 0(5) = [0]
: hash 1(5) = [1]

two fields of one type feed each its part
#[educe(Hash)] enum E { A(u8, u8, u8) }
: hash 0(4, 4, 4) = [0, 4, 4, 4]

a parameter that one variant alone has
#[educe(Hash)] enum E<T = u16> { A, B(T, #[educe(Hash(ignore))] u8) }
: hash 0() = [0]
: hash 1(7, 9) = [1, 7]
"#;

#[test]
fn enums_feed_the_place_first(rt: HostRuntime) -> Result<(), Fail> {
    check_table(rt.alloc(), ENUMS)
}

static TEXTS: &str = r#"
the impl of a struct
#[educe(Hash)] struct S { a: u8 }
: writes # [ automatically_derived ] impl :: core :: hash :: Hash for S { fn hash < H : :: core :: hash :: Hasher > ( & self , state : & mut H ) { :: core :: hash :: Hash :: hash ( & self . a , state ) ; } }

the impl of an enum
#[educe(Hash)] enum E { A, B(u8, #[educe(Hash(ignore))] u8) }
: writes # [ automatically_derived ] impl :: core :: hash :: Hash for E { fn hash < H : :: core :: hash :: Hasher > ( & self , state : & mut H ) { match self { Self :: A => { :: core :: hash :: Hash :: hash ( & 0usize , state ) ; } Self :: B ( _v_0 , _ , ) => { :: core :: hash :: Hash :: hash ( & 1usize , state ) ; :: core :: hash :: Hash :: hash ( _v_0 , state ) ; } } } }

the impl of an enum without variants
#[educe(Hash)] enum E {}
: writes # [ automatically_derived ] impl :: core :: hash :: Hash for E { fn hash < H : :: core :: hash :: Hasher > ( & self , state : & mut H ) { } }

the hasher's type is no parameter of the definition
#[educe(Hash)] struct S<H> { a: H }
: holds impl < H > :: core :: hash :: Hash for S < H > where H : :: core :: hash :: Hash { fn hash < _H : :: core :: hash :: Hasher > ( & self , state : & mut _H )

a field that has the name of the hasher
#[educe(Hash)] struct S { state: u8 }
: holds :: hash ( & self . state , _state ) ;

the prefix of variables is no beginning of a word
#[educe(Hash)] enum E { A { _v_: u8 } }
: holds Self :: A { _v_ : __v__v_ , } =>

a packed struct is read by copies, and asks for `Copy`
#[educe(Hash)] #[repr(packed)] struct S<T> { a: T }
: holds where T : :: core :: hash :: Hash , T : :: core :: marker :: Copy
: holds hash ( & { self . a } , state ) ;

a method asks nothing of its field's type
#[educe(Hash)] struct S<T, U> { #[educe(Hash(method(m)))] a: T, b: Vec<U> }
: holds for S < T , U > where U : :: core :: hash :: Hash {

nothing is said of it at a variant
#[educe(Hash)] enum E { #[educe(Hash)] A }
: rejected 1:33: the `Hash` attribute cannot be placed here

it has no rank
#[educe(Hash)] struct S { #[educe(Hash(rank = 1))] a: u8 }
: rejected 1:35: you are using an incorrect format of the `Hash` attribute, which should be reformatted as follows:
    #[educe(Hash = false)]
    #[educe(Hash(ignore))]
    #[educe(Hash(method(path_to_method)))]
"#;

#[test]
fn impls_of_hash_are_written(rt: HostRuntime) -> Result<(), Fail> {
    check_table(rt.alloc(), TEXTS)
}
