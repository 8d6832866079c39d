//! Worked examples of clones (documentation of `educe`, Clone; Copy).

use crate::tables::check_table;
use std::test::Fail;

static STRUCTS: &str = r#"
each field is cloned
#[educe(Clone)] struct S { a: u8, b: u16 }
: Clone 1 -> 11
: Clone 2 -> 12
: clone 0(1, 2) = 0(11, 12)
: clone 0(2, 1) = 0(12, 11)

fields without names
#[educe(Clone)] struct S(u8, u8);
: Clone 1 -> 3
: clone 0(1, 1) = 0(3, 3)

no fields
#[educe(Clone)] struct S;
: clone 0() = 0()

no fields in brackets
#[educe(Clone)] struct S {}
: clone 0() = 0()

a method in place of the type's own function
#[educe(Clone)] struct S { a: u8, #[educe(Clone(method = own::twice))] b: u8 }
: Clone 5 -> 5
: method own :: twice(5) -> 10
: clone 0(5, 5) = 0(5, 10)

a method that spells the type's own function
#[educe(Clone)] struct S(#[educe(Clone(method("::core::clone::Clone::clone")))] u8);
: Clone 5 -> 6
: clone 0(5) = 0(6)

a packed struct clones copies
#[educe(Clone)] #[repr(packed)] struct S { a: u8, b: u32 }
: Clone 1 -> 11
: Clone 2 -> 12
: clone 0(1, 2) = 0(11, 12)

a name behind `r#`
#[educe(Clone)] struct S { r#type: u8, kind: u8 }
: Clone 1 -> 11
: Clone 2 -> 12
: clone 0(1, 2) = 0(11, 12)

the settings of comparisons say nothing of it
#[educe(Clone, PartialEq)] struct S { #[educe(PartialEq(ignore))] a: u8 }
: Clone 1 -> 11
: clone 0(1) = 0(11)
"#;

#[test]
fn clones_of_structs_have_clones_of_their_fields(rt: HostRuntime) -> Result<(), Fail> {
    check_table(rt.alloc(), STRUCTS)
}

static COPIES: &str = r#"
where `Copy` is listed the value is copied as a whole
#[educe(Copy, Clone)] struct S { a: u8, b: u8 }
: clone 0(1, 2) = 0(1, 2)

and so is one of an enum
#[educe(Clone, Copy)] enum E { A, B(u8) }
: clone 0() = 0()
: clone 1(7) = 1(7)

a lifetime is no parameter that counts
#[educe(Clone, Copy)] struct S<'a> { a: &'a u8 }
: clone 0(7) = 0(7)

a method is called
#[educe(Clone, Copy)] struct S { #[educe(Clone(method = m))] a: u8, b: u8 }
: method m(1) -> 2
: Clone 1 -> 3
: clone 0(1, 1) = 0(2, 3)

a type that names a parameter is cloned by itself
#[educe(Clone, Copy)] struct S<T> { a: T }
: Clone 1 -> 2
: clone 0(1) = 0(2)

predicates of `Copy` may not hold of each value
#[educe(Clone, Copy(bound = "T: Copy"))] struct S<T> { a: *const u8, b: PhantomData<fn(u8)> }
: Clone 1 -> 2
: clone 0(1, 1) = 0(2, 2)

without a parameter they are no exception
#[educe(Clone, Copy(bound = "u8: Copy"))] struct S { a: u8 }
: clone 0(1) = 0(1)
"#;

#[test]
fn values_that_are_copied_are_cloned_so(rt: HostRuntime) -> Result<(), Fail> {
    check_table(rt.alloc(), COPIES)
}

static ENUMS: &str = r#"
the variant of the value is made
#[educe(Clone)] enum E { A, B(u8, u8), C { x: u8 }, D() }
: Clone 1 -> 11
: Clone 2 -> 12
: clone 0() = 0()
: clone 1(1, 2) = 1(11, 12)
: clone 2(2) = 2(12)
: clone 3() = 3()

methods of two variants
#[educe(Clone)] enum E { A(#[educe(Clone(method(m)))] u8), B { #[educe(Clone(method(n)))] a: u8, b: u8 } }
: method m(1) -> 100
: method n(1) -> 200
: Clone 1 -> 2
: clone 0(1) = 0(100)
: clone 1(1, 1) = 1(200, 2)

a method whose name is the function's
#[educe(Clone)] enum Enum { V2 { #[educe(Clone(method(clone)))] f1: u8 } }
: method clone(1) -> 101
: clone 0(1) = 0(101)

a field whose name begins as the prefix of variables
#[educe(Clone)] enum E { A { _s_: u8, _s_a: u8 } }
: Clone 1 -> 11
: Clone 2 -> 12
: clone 0(1, 2) = 0(11, 12)

a method whose name is a variable's
#[educe(Clone)] enum E { A(#[educe(Clone(method(_s_0)))] u8) }
: method _s_0(3) -> 4
: clone 0(3) = 0(4)
"#;

#[test]
fn clones_of_enums_are_of_the_same_variant(rt: HostRuntime) -> Result<(), Fail> {
    check_table(rt.alloc(), ENUMS)
}

static SOURCES: &str = r#"
each field becomes what is made of both
#[educe(Clone)] struct S { a: u8, b: u8 }
: CloneFrom 1, 3 -> 13
: CloneFrom 2, 4 -> 24
: clone_from 0(1, 2) 0(3, 4) = 0(13, 24)

a method is handed the field of the source alone
#[educe(Clone)] struct S(#[educe(Clone(method = m))] u8, u8);
: method m(3) -> 30
: CloneFrom 2, 4 -> 24
: clone_from 0(1, 2) 0(3, 4) = 0(30, 24)

the fields of a packed struct become clones of copies
#[educe(Clone)] #[repr(C, packed(2))] struct S { a: u8, b: u32 }
: Clone 3 -> 13
: Clone 4 -> 14
: clone_from 0(1, 2) 0(3, 4) = 0(13, 14)

without fields nothing changes
#[educe(Clone)] struct S;
: clone_from 0() 0() = 0()

values of one variant
#[educe(Clone)] enum E { A, B(u8, u8), C { x: u8 } }
: CloneFrom 1, 3 -> 13
: CloneFrom 2, 4 -> 24
: clone_from 0() 0() = 0()
: clone_from 1(1, 2) 1(3, 4) = 1(13, 24)
: clone_from 2(1) 2(3) = 2(13)

a value of another variant is cloned as a whole
#[educe(Clone)] enum E { A, B(u8), C { x: u8 } }
: CloneWhole 0 -> 7
: CloneWhole 2 -> 9
: clone_from 1(1) 0() = whole 7
: clone_from 0() 2(1) = whole 9

a method of a variant
#[educe(Clone)] enum E { A(#[educe(Clone(method(m)))] u8), B }
: method m(3) -> 30
: clone_from 0(1) 0(3) = 0(30)

a method whose name is that of the source
#[educe(Clone)] struct S { #[educe(Clone(method(source)))] a: u8 }
: method source(3) -> 30
: clone_from 0(1) 0(3) = 0(30)
"#;

#[test]
fn values_become_clones_of_a_source(rt: HostRuntime) -> Result<(), Fail> {
    check_table(rt.alloc(), SOURCES)
}

static TEXTS: &str = r#"
the impl of a struct
#[educe(Clone)] struct S { a: u8 }
: writes # [ automatically_derived ] impl :: core :: clone :: Clone for S { fn clone ( & self ) -> Self { Self { a : :: core :: clone :: Clone :: clone ( & self . a ) , } } fn clone_from ( & mut self , source : & Self ) { :: core :: clone :: Clone :: clone_from ( & mut self . a , & source . a ) ; } }

the impl of an enum
#[educe(Clone)] enum E { A, B(u8) }
: writes # [ automatically_derived ] impl :: core :: clone :: Clone for E { fn clone ( & self ) -> Self { match self { Self :: A => Self :: A , Self :: B ( _s_0 , ) => Self :: B ( :: core :: clone :: Clone :: clone ( _s_0 ) , ) , } } fn clone_from ( & mut self , source : & Self ) { match self { Self :: A => { if let Self :: A = source { } else { * self = :: core :: clone :: Clone :: clone ( source ) ; } } , Self :: B ( _d_0 , ) => { if let Self :: B ( _s_0 , ) = source { :: core :: clone :: Clone :: clone_from ( _d_0 , _s_0 ) ; } else { * self = :: core :: clone :: Clone :: clone ( source ) ; } } , } } }

the impl of an enum without variants
#[educe(Clone)] enum E {}
: writes # [ automatically_derived ] impl :: core :: clone :: Clone for E { fn clone ( & self ) -> Self { :: core :: unreachable ! ( ) } fn clone_from ( & mut self , source : & Self ) { let _ = source ; } }

the impls of a struct that is copied as a whole
#[educe(Copy, Clone)] struct S { a: u8 }
: writes # [ automatically_derived ] impl :: core :: clone :: Clone for S { fn clone ( & self ) -> Self { * self } }
# [ automatically_derived ] impl :: core :: marker :: Copy for S { }

a method is called in a marker too
#[educe(Clone)] struct S<T> { a: T, #[educe(Clone(method = Self::twice))] b: Vec<Self> }
: writes # [ automatically_derived ] impl < T > :: core :: clone :: Clone for S < T > where T : :: core :: clone :: Clone { fn clone ( & self ) -> Self { Self { a : :: core :: clone :: Clone :: clone ( & self . a ) , b : Self :: twice ( & self . b ) , } } fn clone_from ( & mut self , source : & Self ) { :: core :: clone :: Clone :: clone_from ( & mut self . a , & source . a ) ; self . b = Self :: twice ( & source . b ) ; } }
const _ : ( ) = { fn __educe_clone_method_used < T > ( educe__value : & Vec < S :: < T > > , ) -> Vec < S :: < T > > where T : :: core :: clone :: Clone { S :: < T > :: twice ( educe__value ) } } ;

the impl of an enum with a method, and its marker
#[educe(Clone)] enum Enum { V2 { #[educe(Clone(method(clone)))] f1: u8 } }
: writes # [ automatically_derived ] impl :: core :: clone :: Clone for Enum { fn clone ( & self ) -> Self { match self { Self :: V2 { f1 : _s_f1 , } => Self :: V2 { f1 : clone ( _s_f1 ) , } , } } fn clone_from ( & mut self , source : & Self ) { match self { Self :: V2 { f1 : _d_f1 , } => { if let Self :: V2 { f1 : _s_f1 , } = source { * _d_f1 = clone ( _s_f1 ) ; } else { * self = :: core :: clone :: Clone :: clone ( source ) ; } } , } } }
const _ : ( ) = { fn __educe_clone_method_used ( educe__value : & u8 , ) -> u8 { clone ( educe__value ) } } ;

a marker has the lints and the parameters of the impl
#[allow(dead_code)] #[educe(Clone)] struct S<'a, const N: usize>(&'a u8, #[educe(Clone(method = m))] [u8; N]);
: ends # [ allow ( dead_code ) ] const _ : ( ) = { fn __educe_clone_method_used < 'a , const N : usize > ( educe__value : & [ u8 ; N ] , ) -> [ u8 ; N ] { m ( educe__value ) } } ;

a marker has the predicates that the impl adds
#[educe(Clone)] struct S<T>(#[educe(Clone(method = m))] u8, T);
: ends const _ : ( ) = { fn __educe_clone_method_used < T > ( educe__value : & u8 , ) -> u8 where T : :: core :: clone :: Clone { m ( educe__value ) } } ;

each method has its own marker, in written order
#[educe(Clone)] struct S(#[educe(Clone(method = m))] u8, bool, #[educe(Clone(method = a::n))] u16);
: items 3
: ends const _ : ( ) = { fn __educe_clone_method_used ( educe__value : & u8 , ) -> u8 { m ( educe__value ) } } ;
const _ : ( ) = { fn __educe_clone_method_used ( educe__value : & u16 , ) -> u16 { a :: n ( educe__value ) } } ;

those of variants too, and a method that stands twice has two
#[educe(Clone)] enum E { A(#[educe(Clone(method = m))] u8), B { #[educe(Clone(method = m))] a: u16 } }
: items 3
: ends const _ : ( ) = { fn __educe_clone_method_used ( educe__value : & u8 , ) -> u8 { m ( educe__value ) } } ;
const _ : ( ) = { fn __educe_clone_method_used ( educe__value : & u16 , ) -> u16 { m ( educe__value ) } } ;

a container hands on what is asked
#[educe(Clone)] struct S<T> { a: Vec<Box<T>> }
: holds for S < T > where T : :: core :: clone :: Clone { fn clone

a type of another name is asked itself
#[educe(Clone)] struct S<T> { a: Wrapper<T> }
: holds for S < T > where Wrapper < T > : :: core :: clone :: Clone { fn clone

a box of the struct itself
#[educe(Clone)] struct S<T> { a: Box<S<T>> }
: holds for S < T > where T : :: core :: clone :: Clone { fn clone

a struct with a lifetime is copied as a whole
#[educe(Clone, Copy)] struct S<'a> { a: &'a u8 }
: holds fn clone ( & self ) -> Self { * self } }

but predicates of `Copy` on it do
#[educe(Clone, Copy(bound('a: 'static)))] struct S<'a> { a: &'a u8 }
: holds fn clone ( & self ) -> Self { Self { a : :: core :: clone :: Clone :: clone ( & self . a ) , } }

a bound that lists no predicate does not keep from copying as a whole
#[educe(Clone, Copy(bound(*)))] struct S<const N: usize>(u8);
: holds fn clone ( & self ) -> Self { * self } }

nor do empty bounds
#[educe(Clone, Copy(bound()))] struct S<const N: usize>(u8);
: holds fn clone ( & self ) -> Self { * self } }

also in a string
#[educe(Clone, Copy(bound = ""))] struct S<'a>(&'a u8);
: holds fn clone ( & self ) -> Self { * self } }

a packed struct that is copied as a whole asks what `bound(*)` says
#[educe(Clone(bound(*)), Copy)] #[repr(packed)] struct S<T>(u8, PhantomData<u8>);
: holds Clone for S < T > where T : :: core :: clone :: Clone , T : :: core :: marker :: Copy { fn clone

the impl of `Copy` inherits what that of `Clone` adds
#[educe(Clone, Copy(bound = true))] struct S<T, U> { a: T, #[educe(Clone(method = m))] b: U }
: holds impl < T , U > :: core :: clone :: Clone for S < T , U > where T : :: core :: clone :: Clone { fn clone
: holds impl < T , U > :: core :: marker :: Copy for S < T , U > where T : :: core :: marker :: Copy , U : :: core :: marker :: Copy , T : :: core :: clone :: Clone { }

a packed struct is read by copies, and asks for `Copy`
#[educe(Clone)] #[repr(packed)] struct S<T> { a: T, b: u8 }
: holds where T : :: core :: clone :: Clone , T : :: core :: marker :: Copy {
: holds { Self { a : :: core :: clone :: Clone :: clone ( & { self . a } ) , b :
: holds { self . a = :: core :: clone :: Clone :: clone ( & { source . a } ) ; self . b =

names that the input has are not declared
#[educe(Clone)] enum E { A { source: u8, _s_: u8, _d_a: u8, #[educe(Clone(method = educe__value))] b: u8 } }
: holds clone_from ( & mut self , _source : & Self )
: holds Self :: A { source : __d_source

a definition that has no types of parameters is copied as a whole
#[educe(Clone, Copy)] struct S<'a, const N: usize> { a: &'a [u8; 4] }
: holds impl < 'a , const N : usize > :: core :: clone :: Clone for S < 'a , N > { fn clone ( & self ) -> Self { * self } }
: holds impl < 'a , const N : usize > :: core :: marker :: Copy for S < 'a , N > { }
"#;

#[test]
fn impls_of_clone_and_copy_are_written(rt: HostRuntime) -> Result<(), Fail> {
    check_table(rt.alloc(), TEXTS)
}

static REFUSALS: &str = r#"
nothing is said of it at a variant
#[educe(Clone)] enum E { #[educe(Clone)] A }
: rejected 1:34: the `Clone` attribute cannot be placed here

nor are bounds
#[educe(Clone)] enum E { #[educe(Clone(bound(T: X)))] A }
: rejected 1:34: the `Clone` attribute cannot be placed here

nothing is said of `Copy` at a variant
#[educe(Copy)] enum E { #[educe(Copy)] A }
: rejected 1:33: the `Copy` attribute cannot be placed here

nothing is said of `Copy` at a field
#[educe(Clone, Copy)] struct S { #[educe(Copy)] a: u8 }
: rejected 1:42: the `Copy` attribute cannot be placed here

a list of a field that is no list of metas
#[educe(Copy)] struct S { #[educe(1)] a: u8 }
: rejected 1:35: syntax error

a trait at a field that the type does not list
#[educe(Copy)] struct S { #[educe(Hash)] a: u8 }
: rejected 1:35: the trait `Hash` is not used

a trait twice at a field
#[educe(Clone)] struct S(#[educe(Clone(method = f), Clone(method = g))] u8);
: rejected 1:53: the trait `Clone` is used repeatedly

no field is ignored
#[educe(Clone)] struct S { #[educe(Clone(ignore))] a: u8 }
: rejected 1:36: you are using an incorrect format of the `Clone` attribute, which should be reformatted as follows:
    #[educe(Clone(method(path_to_method)))]

a method that is missing
#[educe(Clone)] struct S { #[educe(Clone(method))] a: u8 }
: rejected 1:42: expected `method = Path` or `method(Path)`

what the type says of `Copy` is read for `Clone`
#[educe(Clone, Copy(method = m))] struct S(u8);
: rejected 1:16: you are using an incorrect format of the `Copy` attribute, which should be reformatted as follows:
    #[educe(Copy)]
    #[educe(Copy(bound(where_predicates)))]
    #[educe(Copy(bound = false))]

the value of its bound too
#[educe(Clone, Copy(bound = 1))] struct S<T>(T);
: rejected 1:29: expected `bound = "where_predicates"` or `bound = false`

`Copy` that is not listed
#[educe(Clone)] struct S { #[educe(Copy)] a: u8 }
: rejected 1:36: the trait `Copy` is not used

a rank
#[educe(Clone)] struct S { #[educe(Clone(rank = 1))] a: u8 }
: rejected 1:36: you are using an incorrect format of the `Clone` attribute, which should be reformatted as follows:
    #[educe(Clone(method(path_to_method)))]
"#;

#[test]
fn wrong_clones_are_refused(rt: HostRuntime) -> Result<(), Fail> {
    check_table(rt.alloc(), REFUSALS)
}
