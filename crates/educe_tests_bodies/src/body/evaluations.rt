//! Tables of bodies that are built by hand, and what they evaluate to.

use crate::body::bodies::check_bodies;
use std::test::Fail;

static CALLS: &str = r#"
the answer of a function
struct S { a: u8, b: u8 }
|other| answer a::b(self.a, self.b)
: Truth(true)

its opposite
struct S { a: u8, b: u8 }
|other| not a :: b(self.a, self.b)
: Truth(false)

`false` is returned where it is true
struct S { a: u8, b: u8 }
|other| test a::b(self.a, self.b)
: Truth(false)

an order
struct S { a: u8, b: u8 }
|other| answer order(self.a, self.b)
: Order(Less)

an order in `Some`
struct S { a: u8, b: u8 }
|other| some order(self.a, self.b)
: PartialOrder(Some(Less))

a partial order
struct S { a: u8, b: u8 }
|other| answer partial(self.a, self.b)
: PartialOrder(None)

a function of which the table has no row
struct S { a: u8, b: u8 }
|other| answer b::a(self.a, self.b)
: Stuck

arguments of which the table has no row
struct S { a: u8, b: u8 }
|other| answer a::b(self.b, self.a)
: Stuck

more than two arguments
struct S { a: u8, b: u8 }
|other| answer a::b(self.a, self.b, self.b)
: Stuck

the opposite of an order
struct S { a: u8, b: u8 }
|other| not order(self.a, self.b)
: Stuck

an order as a test
struct S { a: u8, b: u8 }
|other| test order(self.a, self.b)
: Stuck

a truth value in `Some`
struct S { a: u8, b: u8 }
|other| some a::b(self.a, self.b)
: Stuck

a partial order in `Some`
struct S { a: u8, b: u8 }
|other| some partial(self.a, self.b)
: Stuck

numbers are compared by a function that is built in
struct S { a: u8, b: u8 }
|other| answer ::core::cmp::PartialEq::ne(self.a, self.b)
: Truth(true)
"#;

#[test]
fn calls_answer_by_rows(rt: HostRuntime) -> Result<(), Fail> {
    check_bodies(rt.alloc(), CALLS)
}

static NAMES: &str = r#"
the parameter hides a function of its name
struct S { a: u8, b: u8 }
|other| answer other(self.a, self.b)
: Stuck

also one behind `r#`
struct S { a: u8, b: u8 }
|other| answer r#other(self.a, self.b)
: Stuck

and one that has the name as an argument
struct S { a: u8, b: u8 }
|other| answer a::<other>::c(self.a, self.b)
: Stuck

a parameter behind `r#`
struct S { a: u8, b: u8 }
|r#other| answer other(self.a, self.b)
: Stuck

both behind `r#`
struct S { a: u8, b: u8 }
|r#other| answer r#other(self.a, self.b)
: Stuck

a parameter of another name hides none
struct S { a: u8, b: u8 }
|unused| answer other(self.a, self.b)
: Truth(true)

nor one behind `r#`
struct S { a: u8, b: u8 }
|unused| answer r#other(self.a, self.b)
: Truth(true)

nor one with an argument
struct S { a: u8, b: u8 }
|unused| answer a::<other>::c(self.a, self.b)
: Truth(true)

a longer word is another name
struct S { a: u8, b: u8 }
|other| answer self::other_(self.a, self.b)
: Truth(true)

no name hides a function that is built in
struct S { a: u8, b: u8 }
|core| not ::core::cmp::PartialEq::ne(self.a, self.b)
: Truth(false)
"#;

#[test]
fn names_in_scope_hide_functions(rt: HostRuntime) -> Result<(), Fail> {
    check_bodies(rt.alloc(), NAMES)
}

static FIELDS: &str = r#"
fields by their places
struct S(u8, u8);
|| answer ::core::cmp::Ord::cmp(self.0, self.1)
: Order(Less)

the other way round
struct S(u8, u8);
|| answer ::core::cmp::Ord::cmp(self.1, self.0)
: Order(Greater)

a place behind the last
struct S(u8, u8);
|| answer ::core::cmp::Ord::cmp(self.1, self.2)
: Stuck

fields by their names
struct S { a: u8, b: u8 }
|| answer ::core::cmp::Ord::cmp(self.a, self.b)
: Order(Less)

places of fields with names
struct S { a: u8, b: u8 }
|| answer ::core::cmp::Ord::cmp(self.0, self.1)
: Stuck

names of fields without
struct S(u8, u8);
|| answer ::core::cmp::Ord::cmp(self.a, self.b)
: Stuck

fields of an enum
enum S {}
|| answer ::core::cmp::Ord::cmp(self.0, self.1)
: Stuck
"#;

#[test]
fn fields_are_read_by_their_keys(rt: HostRuntime) -> Result<(), Fail> {
    check_bodies(rt.alloc(), FIELDS)
}

static HASHERS: &str = r#"
a hasher is fed a field
struct S { a: u8, b: u8 }
|state, H| part ::core::hash::Hash::hash(self.a, state)
: Parts([5])

and the place of a variant
struct S { a: u8, b: u8 }
|state, H| part ::core::hash::Hash::hash(3, state)
: Parts([3])

two places in a row, and then a field
struct S { a: u8, b: u8 }
|state, H| part ::core::hash::Hash::hash(3, state); part ::core::hash::Hash::hash(4, state); part ::core::hash::Hash::hash(self.a, state)
: Parts([3, 4, 5])

no hasher is fed itself
struct S { a: u8, b: u8 }
|state, H| part ::core::hash::Hash::hash(state, state)
: Stuck

one parameter is no hasher
struct S { a: u8, b: u8 }
|state| part ::core::hash::Hash::hash(self.a, state)
: Stuck

a body with three parameters is that of no hasher
struct S { a: u8, b: u8 }
|state, H, other| part ::core::hash::Hash::hash(self.a, state)
: Stuck
"#;

#[test]
fn hashers_are_fed_values(rt: HostRuntime) -> Result<(), Fail> {
    check_bodies(rt.alloc(), HASHERS)
}

static MADE: &str = r#"
a struct of its fields
struct S { a: u8, b: u8 }
|| build (a = 7, b = 7)
: Made(0, [FieldValue { ty: 0, number: 7 }, FieldValue { ty: 0, number: 7 }])

a variant, by the default value of another type
enum E { A(u16, u16), B { b: u8 }, C }
|| build A(<u8 as ::core::default::Default>::default(), 7)
: Made(0, [FieldValue { ty: 0, number: 3 }, FieldValue { ty: 0, number: 7 }])

fields in another order
struct S { a: u8, b: u8 }
|| build (b = 7, a = 7)
: Stuck

a field too few
struct S { a: u8, b: u8 }
|| build (a = 7)
: Stuck

a field too many
struct S { a: u8, b: u8 }
|| build (a = 7, b = 7, c = 7)
: Stuck

a variant of a struct
struct S { a: u8, b: u8 }
|| build S(a = 7, b = 7)
: Stuck

no variant of an enum
enum E { A(u16, u16), B { b: u8 }, C }
|| build ()
: Stuck

a variant that the enum does not have
enum E { A(u16, u16), B { b: u8 }, C }
|| build S()
: Stuck

the default value of a type, by its text
struct S { a: u8, b: u8 }
|| text <u8 as ::core::default::Default>::default()
: Whole(FieldValue { ty: 0, number: 3 })

the parameter is no name in the expression
struct S { a: u8, b: u8 }
|a| text b
: Whole(FieldValue { ty: 0, number: 8 })

the parameter is the name in the expression
struct S { a: u8, b: u8 }
|b| text b
: Stuck

an expression of which the table has no row
struct S { a: u8, b: u8 }
|| text a
: Stuck
"#;

#[test]
fn values_are_made_of_their_fields(rt: HostRuntime) -> Result<(), Fail> {
    check_bodies(rt.alloc(), MADE)
}

static CHANGED: &str = r#"
one parameter and no forms
struct S { a: u8, b: u8 }
|other|
: Stuck

a block that ends in a test that is false
struct S { a: u8, b: u8 }
|other| test ::core::cmp::PartialEq::ne(self.a, self.a)
: Stuck

a body that assigns to a field
struct S { a: u8, b: u8 }
|other| assign a = made(self.b)
: Made(0, [FieldValue { ty: 0, number: 8 }, FieldValue { ty: 0, number: 7 }])

without a parameter
struct S { a: u8, b: u8 }
|| assign a = made(self.b)
: Made(0, [FieldValue { ty: 0, number: 8 }, FieldValue { ty: 0, number: 7 }])

and gives a truth value
struct S { a: u8, b: u8 }
|other| assign a = made(self.b); answer ::core::cmp::PartialEq::ne(self.a, self.b)
: Made(0, [FieldValue { ty: 0, number: 8 }, FieldValue { ty: 0, number: 7 }])

with two parameters
struct S { a: u8, b: u8 }
|state, H| assign a = made(self.b); answer ::core::cmp::PartialEq::ne(self.a, self.b)
: Parts([])

with three parameters
struct S { a: u8, b: u8 }
|x, y, z| assign a = made(self.b); answer ::core::cmp::PartialEq::ne(self.a, self.b)
: Truth(true)

a return before the assignment
struct S { a: u8, b: u8 }
|other| test a::b(self.a, self.b); assign a = made(self.b)
: Made(0, [FieldValue { ty: 0, number: 5 }, FieldValue { ty: 0, number: 7 }])

an assignment of which the table has no row
struct S { a: u8, b: u8 }
|other| assign a = made(self.a)
: Stuck

a discard and a truth value
struct S { a: u8, b: u8 }
|other| discard other; answer a::b(self.a, self.b)
: Made(0, [FieldValue { ty: 0, number: 5 }, FieldValue { ty: 0, number: 7 }])
"#;

#[test]
fn bodies_that_assign_change_the_value(rt: HostRuntime) -> Result<(), Fail> {
    check_bodies(rt.alloc(), CHANGED)
}
