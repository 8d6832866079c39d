//! Worked examples of default values (documentation of `educe`, Default). `examples/answers.sh` has
//! compiled code answer the rows with values too, with `N<7>` as a type whose default value is `N(7)`,
//! `X` as a constant of the value 7, and each parameter at its default.

use crate::tables::check_table;
use std::test::Fail;

static STRUCTS: &str = r#"
each field has the default value of its type
#[educe(Default)] struct S { a: N<1>, b: N<7>, c: N<1> }
: Default 0 -> 1
: Default 1 -> 7
: default = 0(1, 7, 1)

a struct without fields
#[educe(Default)] struct S;
: default = 0()

an expression in place of the type's own value
#[educe(Default)] struct S { #[educe(Default = 5)] a: u8, #[educe(Default(expression = X + 1))] b: u8 }
: value 5 -> 5
: value X + 1 -> 8
: default = 0(5, 8)

the other name of the parameter
#[educe(Default)] struct S(#[educe(Default(expr = -3))] i32, u8);
: value - 3 -> -3
: Default 1 -> 0
: default = 0(-3, 0)

an expression that is the default value of the field's type
#[educe(Default)] struct S { a: u8, #[educe(Default = <u8 as ::core::default::Default>::default())] b: u8 }
: Default 0 -> 0
: default = 0(0, 0)

the default value of the type by another path is any expression
#[educe(Default)] struct S { a: u8, #[educe(Default = <::core::primitive::u8 as ::core::default::Default>::default())] b: u8 }
: Default 0 -> 0
: value <:: core :: primitive :: u8 as :: core :: default :: Default >:: default ( ) -> 0
: default = 0(0, 0)

a literal that does not fit is converted
#[educe(Default)] struct S { #[educe(Default = 'x')] a: u32 }
: value :: core :: convert :: Into :: into ( 'x' ) -> 120
: default = 0(120)

an expression of the whole type
#[educe(Default(expression = S { a: 2 }))] struct S { a: u8 }
: value S { a : 2 } -> 4
: default = whole 4

the function `new` makes what `default` makes
#[educe(Default(new))] struct S(u8);
: Default 0 -> 0
: value < Self as :: core :: default :: Default > :: default ( ) -> 4
: default = 0(0)
: new = whole 4

a type and a constant as parameters
#[educe(Default(new))] struct S<T = N<3>, const K: i128 = 7> { a: T, b: N<K> }
: Default 0 -> 3
: Default 1 -> 7
: value < Self as :: core :: default :: Default > :: default ( ) -> 4
: default = 0(3, 7)
: new = whole 4

without an answer there is no value
#[educe(Default)] struct S { a: u8 }
: default = stuck
"#;

#[test]
fn structs_are_made(rt: HostRuntime) -> Result<(), Fail> {
    check_table(rt.alloc(), STRUCTS)
}

static ENUMS: &str = r#"
the marked variant
#[educe(Default)] enum Enum { V1, #[educe(Default)] V2 { f1: u8 }, V3(u8) }
: Default 0 -> 0
: default = 1(0)

the only variant needs no mark
#[educe(Default)] enum E { A(N<3>, #[educe(Default = N(9))] N<3>) }
: Default 0 -> 3
: value N ( 9 ) -> 9
: default = 0(3, 9)

a unit variant
#[educe(Default)] enum E { A, #[educe(Default())] B }
: default = 1()

the last variant
#[educe(Default)] enum E { A(N<6>), B(N<6>), #[educe(Default)] C(N<6>) }
: Default 0 -> 6
: default = 2(6)

the type of a field is that of an earlier variant
#[educe(Default)] enum E { A(N<16>, N<8>), #[educe(Default)] B(N<8>, N<16>) }
: Default 0 -> 16
: Default 1 -> 8
: default = 1(8, 16)

a parameter that the marked variant does not have
#[educe(Default)] enum E<T = u8, U = &'static u8> { A(U), #[educe(Default)] B(T) }
: Default 1 -> 0
: default = 1(0)

an expression of the whole enum
#[educe(Default(expr = E::A))] enum E { A, B }
: value E :: A -> 0
: default = whole 0

an expression for a field of the marked variant
#[educe(Default)] enum E { A(u8), #[educe(Default)] B { #[educe(Default = X)] a: u8, b: u8 } }
: value X -> 7
: Default 0 -> 0
: default = 1(7, 0)
"#;

#[test]
fn variants_are_made(rt: HostRuntime) -> Result<(), Fail> {
    check_table(rt.alloc(), ENUMS)
}

static TEXTS: &str = r#"
the impl of a struct
#[educe(Default)] struct S { a: u8, #[educe(Default = 7)] b: u8 }
: writes # [ automatically_derived ] impl :: core :: default :: Default for S { fn default ( ) -> Self { Self { a : < u8 as :: core :: default :: Default > :: default ( ) , b : 7 , } } }

a function `new`
#[allow(dead_code)] #[educe(Default(new))] struct S<T>(T);
: writes # [ automatically_derived ] # [ allow ( dead_code ) ] impl < T > :: core :: default :: Default for S < T > where T : :: core :: default :: Default { fn default ( ) -> Self { Self ( < T as :: core :: default :: Default > :: default ( ) , ) } }
# [ allow ( dead_code ) ] impl < T > S < T > where T : :: core :: default :: Default { # [ doc = " Returns the \"default value\" for a type." ] pub fn new ( ) -> Self { < Self as :: core :: default :: Default > :: default ( ) } }

`new = false` asks for none
#[educe(Default(new = false))] struct S;
: writes # [ automatically_derived ] impl :: core :: default :: Default for S { fn default ( ) -> Self { Self } }

a string is converted
#[educe(Default(new))] struct S { #[educe(Default = "Hi")] a: String }
: holds Self { a : :: core :: convert :: Into :: into ( "Hi" ) , }
: holds pub fn new ( ) -> Self {

a literal that fits is not
#[educe(Default)] struct S(#[educe(Default = "a")] &'static str, #[educe(Default = 1u8)] u64, #[educe(Default = true)] bool, #[educe(Default = b'a')] u8);
: holds Self ( "a" , 1u8 , true , b'a' , )

the expression of a whole type is converted where it is one literal
#[educe(Default(expression = 1))] struct S(u8);
: holds { :: core :: convert :: Into :: into ( 1 ) }

the chosen variant
#[educe(Default)] enum E { A, #[educe(Default)] B { a: u8 } }
: holds { Self :: B { a : < u8 as :: core :: default :: Default > :: default ( ) , } }

bounds speak of the fields that are made by their types
#[educe(Default)] enum E<T, U, V> { A(V), #[educe(Default)] B(T, #[educe(Default = x())] U) }
: holds for E < T , U , V > where T : :: core :: default :: Default {

containers that are made of nothing ask nothing
#[educe(Default)] struct S<T> { a: Vec<T>, b: Option<T> }
: holds for S < T > {

no variant is marked
#[educe(Default)] enum E { A, B }
: rejected 1:9: there is no variant set as default

an enum without variants has none
#[educe(Default)] enum E {}
: rejected 1:9: there is no variant set as default

two variants are marked
#[educe(Default)] enum E { #[educe(Default)] A, #[educe(Default)] B }
: rejected 1:57: multiple default variants are set

a packed struct asks nothing more
#[educe(Default)] #[repr(packed)] struct S<T> { a: T }
: holds where T : :: core :: default :: Default {
"#;

#[test]
fn impls_of_default_are_written(rt: HostRuntime) -> Result<(), Fail> {
    check_table(rt.alloc(), TEXTS)
}

static REFUSED: &str = r#"
a variant is marked where the type has an expression
#[educe(Default(expression = E::A))] enum E { #[educe(Default)] A, B }
: rejected 1:55: the `Default` attribute cannot be placed here

a field has a value where the type has an expression
#[educe(Default(expression = S(1)))] struct S(#[educe(Default = 1)] u8);
: rejected 1:55: the `Default` attribute cannot be placed here

a field has a value in a variant that is not the default one
#[educe(Default)] enum E { #[educe(Default)] A, B(#[educe(Default = 1)] u8) }
: rejected 1:59: the `Default` attribute cannot be placed here

the trait alone at a field
#[educe(Default)] struct S { #[educe(Default)] a: u8 }
: rejected 1:38: you are using an incorrect format of the `Default` attribute, which should be reformatted as follows:
    #[educe(Default = expr)]
    #[educe(Default(expression = expr))]

a value behind `=` at a variant
#[educe(Default)] enum E { #[educe(Default = 1)] A, B }
: rejected 1:36: you are using an incorrect format of the `Default` attribute, which should be reformatted as follows:
    #[educe(Default)]

a float
#[educe(Default)] struct S { #[educe(Default = 1.5)] a: u8 }
: rejected 1:48: `1.5` is not supported

an expression twice
#[educe(Default)] struct S { #[educe(Default(expr = 1, expression = 2))] a: u8 }
: rejected 1:56: you are trying to reset the `expression` parameter

a variant is marked twice
#[educe(Default)] enum E { #[educe(Default, Default)] A, B }
: rejected 1:45: the trait `Default` is used repeatedly

a field has two values
#[educe(Default)] struct S(#[educe(Default = 1, Default = 2)] u8);
: rejected 1:49: the trait `Default` is used repeatedly

a trait at a field that the type does not list
#[educe(Default)] struct S(#[educe(Default = 1, Hash)] u8);
: rejected 1:49: the trait `Hash` is not used

what a variant says is read where what the type says can be read
#[educe(Default(foo))] enum E { #[educe(Default(bar))] A }
: rejected 1:9: you are using an incorrect format of the `Default` attribute, which should be reformatted as follows:
    #[educe(Default)]
    #[educe(Default(new))]
    #[educe(Default(expression = expr))]
    #[educe(Default(bound(where_predicates)))]
    #[educe(Default(bound = false))]
"#;

#[test]
fn wrong_defaults_are_refused(rt: HostRuntime) -> Result<(), Fail> {
    check_table(rt.alloc(), REFUSED)
}
